// SMT-LIB text read back: exactly the texts that have the tokens of a written one, into a lent slice of words. A
// reading goes on from a place of the text. Where another token stands than one that may, it is halted, and nothing
// more is read. No part looks further than the next token.
#![tactic(auto)]

mod flow;
mod limits;
mod numbers;
mod rows;
mod sizes;
mod texts;

ghost use Rattle.std.specs.Prelude.{◌≡◌, pos, length, replicate, MatchResult};
ghost use Rattle.rules.specs.Sizes.{most_words};
ghost use Rattle.rules.specs.Exchange.Reader.{read_text};
ghost use Rattle.reader.specs.Course.{Refused, WholeAt};
ghost use Rattle.reader.specs.Taken.{taken_by, taken_output};

use limits::all_limits;
use refusals::Refusal;
use rows::all_rows;
use sizes::sizes;
use tokens::Halted;

// What became of a text: 0, and its words, so many, stand at the front of the slice; or the number of the refusal, and
// with it the place of the first token that cannot stand there, or 0. The slice is as it was then.
#[repr(C)]
#[derive(Clone, Copy, Debug, PartialEq, Eq)]
pub struct Taken {
    pub refused: u32,
    pub count: usize,
}

// The whole text, into an array of zeros: how many words it has.
fn read_words(text: &[u8], words: &mut [i32]) -> Result<usize, Halted>
    requires { words.old ≡ replicate most_words (pos 0) }
    ensures { MatchResult result (WholeAt text.now words.new) (Refused text.now) }
{
    let shape = sizes(text)?;
    let counts = shape.counts;
    words[0] = counts.columns as i32;
    words[1] = counts.rows as i32;
    let summed = all_rows(text, shape.at, counts, words)?;
    let end = all_limits(text, summed, counts, words)?;
    if end < text.len() {
        return Err(Halted { place: end });
    }
    Ok(2 + counts.rows * counts.columns + 3 * (counts.columns + counts.rows))
}

/// The words of a text.
pub fn read(text: &[u8], out: &mut [i32]) -> Taken
    ensures answer { result ≡ taken_by (read_text text.now) (length out.old) }
    ensures content { out.new ≡ taken_output (read_text text.now) out.old }
{
    let mut words = [0i32; rules::MOST_WORDS];
    match read_words(text, &mut words) {
        Err(halted) => Taken {
            refused: Refusal::Token.number(),
            count: halted.place,
        },
        Ok(count) => {
            if out.len() < count {
                return Taken {
                    refused: Refusal::ShortRoom.number(),
                    count: 0,
                };
            }
            out[..count].copy_from_slice(&words[..count]);
            Taken { refused: 0, count }
        }
    }
}
