// The whole program as one function: bytes of standard input in, bytes to print out. A text is put into a slice that
// has room for every text, and is written where it fits.
ghost use Rattle.std.specs.Prelude.{◌+◌, ◌^◌, ◌<◌};
ghost use Rattle.rules.specs.Refusal.{problem_refusal_within, rows_within};
ghost use Rattle.rules.specs.Sizes.{most_text};
ghost use Rattle.rules.specs.Program.Reply.{program_text, reply_to};
ghost use Rattle.rules.specs.Program.Text.{refusal_text};
ghost use Rattle.put.specs.Put.{PutShort};
ghost use Rattle.lines.specs.Printed.{Printed};

use crate::answer::put_answer;
use crate::line::put_line;
use crate::write_text;
use put::Writer;
use words::count_at;

// No text of an answer or of a refusal has more bytes.
pub const MOST_TEXT: usize = 7 + 28 + 60 * rules::MOST_VARIABLES;

// The line of a refusal.
pub fn put_refusal(out: &mut Writer, number: u32)
    requires { out.old.at + most_text < 2 ^ 64 }
    ensures { PutShort most_text out.old (refusal_text number) out.new }
{
    put_line(out, b"refused ", number as i64);
}

// What the program prints for these words, with at most so many rows. An answer always has room, so the refusal is the
// problem's own.
pub fn put_reply(out: &mut Writer, most: u32, words: &[i32])
    requires { out.old.at + most_text < 2 ^ 64 }
    ensures { PutShort most_text out.old
        (reply_to (problem_refusal_within (rows_within most) words.now) words.now) out.new }
{
    let mut answer = [0i64; rules::MOST_ANSWER];
    match solver::solve_within(most, words, &mut answer) {
        Err(refusal) => put_refusal(out, refusal.number()),
        Ok(()) => {
            let variables = count_at(words, 0) + count_at(words, 1);
            put_answer(out, &answer, variables);
        }
    }
}

// What the program prints for these bytes.
fn put_response(out: &mut Writer, input: &[u8])
    requires { out.old.at + most_text < 2 ^ 64 }
    ensures { PutShort most_text out.old (program_text input.now) out.new }
{
    match wire::judge(input.len()) {
        Err(refusal) => put_refusal(out, refusal.number()),
        Ok(()) => {
            let mut words = [0i32; rules::MOST_WORDS];
            let count = wire::words_of(input, &mut words);
            put_reply(out, rules::MOST_ROWS as u32, &words[..count]);
        }
    }
}

// .. in a slice, where all of it fits.
pub fn respond(input: &[u8], out: &mut [u8]) -> Option<usize>
    ensures { Printed most_text (program_text input.now) out.old out.new result }
{
    let mut text = [0u8; MOST_TEXT];
    let mut writer = Writer::new(&mut text);
    put_response(&mut writer, input);
    let size = writer.place();
    write_text(&text[..size], out)
}
