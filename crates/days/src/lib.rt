// The text of a day's file: each body as the program `ramp` prints a problem, one behind the other.
#![tactic(auto)]

ghost use Rattle.std.specs.Prelude.{◌≡◌, ◌+◌, ◌^◌, ◌≤◌, ◌<◌, length};
ghost use Rattle.rules.specs.Sizes.{most_day_text, most_text};
ghost use Rattle.rules.specs.Program.Text.{lines_below, printed};
ghost use Rattle.rules.specs.Bundle.File.{body_in, count_in, edition_in, rows_in};
ghost use Rattle.rules.specs.Bundle.Day.{body_text, day_text};
ghost use Rattle.put.specs.Put.{PutShort};
ghost use Rattle.bundle.specs.Opened.{Opened};

use bundle::body::{part_of, rows_of};
use lines::respond::{MOST_TEXT, put_refusal, put_reply};
use lines::write_text;
use put::Writer;
use words::count_at;

// No text of a day has more bytes.
pub const MOST_DAY_TEXT: usize = rules::MOST_BODIES * MOST_TEXT;

// The text of body `i`, with the rows of the file's edition.
fn put_body(out: &mut Writer, rows: u32, words: &[i32], i: usize)
    requires { Opened words.now × (i < count_in words.now) × (out.old.at + most_text < 2 ^ 64)
        × (rows ≡ rows_in (edition_in words.now)) }
    ensures { PutShort most_text out.old (body_text (edition_in words.now) (body_in words.now i)) out.new }
{
    let part = part_of(words, i);
    put_reply(out, rows, &words[part.first..part.end]);
}

// The texts of all bodies.
fn put_bodies(out: &mut Writer, words: &[i32])
    requires { Opened words.now × (out.old.at + most_day_text < 2 ^ 64) }
    ensures { PutShort most_day_text out.old (lines_below (count_in words.now)
        (λ i. body_text (edition_in words.now) (body_in words.now i))) out.new }
{
    let rows = rows_of(words);
    let bodies = count_at(words, 1);
    for i in 0..bodies {
        put_body(out, rows, words, i);
    }
}

// The text of a file.
fn put_day(out: &mut Writer, file: &[u8])
    requires { out.old.at + most_day_text < 2 ^ 64 }
    ensures { PutShort most_day_text out.old (day_text file.now) out.new }
{
    match bundle::judge::judge(file) {
        Err(refusal) => put_refusal(out, refusal.number()),
        Ok(()) => {
            let mut words = [0i32; rules::MOST_FILE_WORDS];
            let count = wire::words_of(file, &mut words);
            put_bodies(out, &words[..count]);
        }
    }
}

// Prints a file, and answers how long its text is; a slice that is too short for all of it is kept.
pub fn day(file: &[u8], out: &mut [u8]) -> usize
    ensures size { result ≡ length (day_text file.now) }
    ensures most { result ≤ most_day_text }
    ensures output { out.new ≡ printed (day_text file.now) out.old }
{
    let mut text = [0u8; MOST_DAY_TEXT];
    let mut writer = Writer::new(&mut text);
    put_day(&mut writer, file);
    let size = writer.place();
    write_text(&text[..size], out);
    size
}
