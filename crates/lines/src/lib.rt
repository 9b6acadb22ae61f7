// Answers and refusals as text, byte for byte as the program prints them, into a lent slice.
#![tactic(auto)]

mod answer;
mod line;
pub mod respond;

ghost use Rattle.std.specs.Prelude.{length};
ghost use Rattle.lines.specs.Printed.{Printed};

// A text at the front of a slice, where all of it fits: so many bytes. `None` where the slice is too short for it,
// and as it was.
pub fn write_text(text: &[u8], out: &mut [u8]) -> Option<usize>
    ensures { Printed (length text.now) text.now out.old out.new result }
{
    let size = text.len();
    if out.len() < size {
        return None;
    }
    out[..size].copy_from_slice(text);
    Some(size)
}
