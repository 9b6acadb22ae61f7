// All of an input that has room in a slice.
#![tactic(auto)]

ghost use Rattle.std.specs.Io.{ReadsAtMost};
ghost use Rattle.reading.specs.Filled.{FillsFrom};

use std::io;
use std::io::Read;

/// Reads until `bytes` is full or the input ends, and answers how many bytes stand at the front. Of the bytes behind
/// these, and of all of them on an error, nothing is said.
pub fn read_full<R: Read>(input: &mut R, bytes: &mut [u8]) -> io::Result<usize>
    ensures most { ReadsAtMost result bytes.new }
    ensures content { FillsFrom (R.remaining input.old) (R.remaining input.new) result bytes.new }
{
    let mut done = 0;
    while done < bytes.len() {
        let count = input.read(&mut bytes[done..])?;
        if count == 0 {
            break;
        }
        done += count;
    }
    Ok(done)
}
