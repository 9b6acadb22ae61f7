// Problems as SMT-LIB text, byte for byte as docs/formats/smtlib.md has it, into a lent slice.
#![tactic(auto)]

mod limits;
mod names;
mod rows;
mod script;
pub mod texts;

ghost use Rattle.std.specs.Prelude.{◌≡◌, length, IfOk};
ghost use Rattle.rules.specs.Refusal.{problem_refusal};
ghost use Rattle.rules.specs.Exchange.Script.{exchange_output, exchange_refusal, exchange_text};
ghost use Rattle.refusals.specs.Numbers.{told_by};
ghost use Rattle.exchange.specs.Sent.{sent_by};

use put::Writer;
use refusals::Refusal;
use script::put_script;

// What became of a problem: 0, and all of its text, so many bytes, stands at the front of the slice; or the number of
// the refusal and 0, and the slice is as it was.
#[repr(C)]
#[derive(Clone, Copy, Debug, PartialEq, Eq)]
pub struct Exchanged {
    pub refused: u32,
    pub count: usize,
}

// How many bytes a text has: it is put into a slice that is too short.
fn text_size(words: &[i32]) -> usize
    requires { problem_refusal words.now ≡ 0 }
    ensures { result ≡ length (exchange_text words.now) }
{
    let mut scratch = [0u8; 1];
    let mut measured = Writer::new(&mut scratch);
    put_script(&mut measured, words);
    measured.place()
}

// The text of a problem at the front of a slice, and its length; refused, the slice is as it was.
fn put_text(words: &[i32], text: &mut [u8]) -> Result<usize, Refusal>
    ensures refused { told_by result ≡ exchange_refusal words.now (length text.old) }
    ensures size { IfOk result (λ size. size ≡ length (exchange_text words.now)) }
    ensures bytes { text.new ≡ exchange_output (told_by result) words.now text.old }
{
    judge::judge(words)?;
    let size = text_size(words);
    if text.len() < size {
        return Err(Refusal::ShortRoom);
    }
    put_script(&mut Writer::new(text), words);
    Ok(size)
}

// The text of a problem, from its words.
pub fn write(words: &[i32], text: &mut [u8]) -> Exchanged
    ensures answer { result ≡ sent_by (exchange_refusal words.now (length text.old))
        (exchange_text words.now) }
    ensures bytes { text.new ≡ exchange_output (exchange_refusal words.now (length text.old))
        words.now text.old }
{
    match put_text(words, text) {
        Ok(count) => Exchanged { refused: 0, count },
        Err(refusal) => Exchanged {
            refused: refusal.number(),
            count: 0,
        },
    }
}
