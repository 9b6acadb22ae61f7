// The program: reads an SMT-LIB text from standard input, and prints what `respond` says of it. It only reads and
// writes.
#![tactic(auto)]

mod respond;

use reading::read_full;
use respond::respond;
use std::io;

fn main(rt: HostRuntime) -> io::Result<()> {
    // one byte more than is taken, so that a longer text is seen to be too long and is not read on
    let mut input = [0u8; respond::MOST_INPUT + 1];
    let count = read_full(&mut rt.stdin(), &mut input)?;
    let mut out = [0u8; lines::respond::MOST_TEXT];
    match respond(&input[..count], &mut out) {
        Some(length) => rt.write_all(&out[..length]),
        // no run comes here: every text fits
        None => unreachable!(),
    }
}
