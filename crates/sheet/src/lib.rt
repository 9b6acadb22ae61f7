// The auditor's sheet of a day's file: exact totals by value, one body after the other, and their lines.
#![tactic(auto)]

mod audit;
mod text;

ghost use Rattle.std.specs.Prelude.{◌≡◌, ◌+◌, ◌^◌, ◌<◌, ◌≤◌, length};
ghost use Rattle.rules.specs.Program.Text.{printed};
ghost use Rattle.rules.specs.Sheet.File.{file_sheet};
ghost use Rattle.rules.specs.Sizes.{most_sheet, most_text};
ghost use Rattle.put.specs.Put.{PutShort};

use audit::totals;
use lines::respond::put_refusal;
use lines::write_text;
use put::Writer;
use text::put_sheet;

// No sheet has more bytes: the lines above those of the variables, and 21 for each of these.
pub const MOST_SHEET: usize = 36 + 92 + 24 + 33 + 21 * rules::MOST_VARIABLES;

// The sheet of a file.
fn put_file(out: &mut Writer, file: &[u8])
    requires { out.old.at + most_text < 2 ^ 64 }
    ensures { PutShort most_sheet out.old (file_sheet file.now) out.new }
{
    match bundle::judge::judge(file) {
        Err(refusal) => put_refusal(out, refusal.number()),
        Ok(()) => {
            let mut words = [0i32; rules::MOST_FILE_WORDS];
            let count = wire::words_of(file, &mut words);
            put_sheet(out, totals(&words[..count]));
        }
    }
}

// Prints the sheet of a file, and answers how long it is; a slice that is too short for all of it is kept.
pub fn sheet(file: &[u8], out: &mut [u8]) -> usize
    ensures size { result ≡ length (file_sheet file.now) }
    ensures most { result ≤ most_sheet }
    ensures output { out.new ≡ printed (file_sheet file.now) out.old }
{
    let mut text = [0u8; MOST_SHEET];
    let mut writer = Writer::new(&mut text);
    put_file(&mut writer, file);
    let size = writer.place();
    write_text(&text[..size], out);
    size
}
