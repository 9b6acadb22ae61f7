// The whole program as one function: the bytes of an SMT-LIB text in, bytes to print out. What is read goes the way
// that the words of a problem go in `ramp`.
ghost use Rattle.std.specs.Prelude.{◌+◌, ◌^◌, ◌<◌};
ghost use Rattle.rules.specs.Sizes.{most_text};
ghost use Rattle.put.specs.Put.{PutShort};
ghost use Rattle.lines.specs.Printed.{Printed};
ghost use Rattle.rules.specs.Exchange.Lab.{lab_text, place_text};

use lines::respond::put_reply;
use lines::write_text;
use put::Writer;

// No longer text is taken. The longest that is written has a tenth of it, and the rest is for blanks and comments.
pub const MOST_INPUT: usize = 65536;

// The line of a place.
fn put_place(out: &mut Writer, place: usize)
    requires { out.old.at + most_text < 2 ^ 64 }
    ensures { PutShort most_text out.old (place_text place) out.new }
{
    out.text(b"refused at ");
    out.digits(place as u64);
    out.byte(b'\n');
}

// What is printed for a text.
fn put_response(out: &mut Writer, text: &[u8])
    requires { out.old.at + most_text < 2 ^ 64 }
    ensures { PutShort most_text out.old (lab_text text.now) out.new }
{
    if MOST_INPUT < text.len() {
        return put_place(out, MOST_INPUT);
    }
    let mut words = [0i32; rules::MOST_WORDS];
    let taken = reader::read(text, &mut words);
    if taken.refused != 0 {
        return put_place(out, taken.count);
    }
    put_reply(out, rules::MOST_ROWS as u32, &words[..taken.count]);
}

// .. in a slice, where all of it fits.
pub fn respond(text: &[u8], out: &mut [u8]) -> Option<usize>
    ensures { Printed most_text (lab_text text.now) out.old out.new result }
{
    let mut room = [0u8; lines::respond::MOST_TEXT];
    let mut writer = Writer::new(&mut room);
    put_response(&mut writer, text);
    let size = writer.place();
    write_text(&room[..size], out)
}
