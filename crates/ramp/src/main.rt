// The program: reads a problem from standard input, and prints what `respond` says of it. It only reads and writes.
#![tactic(auto)]

use lines::respond::respond;
use reading::read_full;
use std::io;

// One word more than the largest problem has, so that a longer input is seen to be too long and is not read on.
const MOST_INPUT: usize = 4 * rules::MOST_WORDS + 4;

fn main(rt: HostRuntime) -> io::Result<()> {
    let mut input = [0u8; MOST_INPUT];
    let count = read_full(&mut rt.stdin(), &mut input)?;
    let mut out = [0u8; lines::respond::MOST_TEXT];
    match respond(&input[..count], &mut out) {
        Some(length) => rt.write_all(&out[..length]),
        // no run comes here: every text fits
        None => unreachable!(),
    }
}
