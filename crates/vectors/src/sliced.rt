// A run in slices of 0, 1, 0, 1 and 5 pivots, and a line for each.
ghost use Rattle.std.specs.Prelude.{IfOk};
ghost use Rattle.slices.specs.Slices.{SliceStanding};

use crate::line;
use slices::Slice;
use std::io;

// Goes on so many pivots, and prints the line.
fn go_on(rt: &impl Print, slice: Slice, pivots: usize, out: &mut [i64]) -> io::Result<Slice>
    requires { SliceStanding slice }
    ensures { IfOk result SliceStanding }
{
    let next = slice.go_on(pivots, out);
    line(rt, next.refused, out)?;
    let after = next.slice;
    Ok(after)
}

// Starts the run, and goes on five times.
pub fn run(rt: &impl Print, words: &[i32], out: &mut [i64]) -> io::Result<()> {
    let begun = slices::start(words);
    if begun.refused != 0 {
        return line(rt, begun.refused, out);
    }
    let mut slice = begun.slice;
    for pivots in [0, 1, 0, 1, 5] {
        slice = go_on(rt, slice, pivots, out)?;
    }
    Ok(())
}
