// The program: reads a day's file from standard input, and prints its sheet, as `sheet::sheet` says it. It only reads
// and writes.
#![tactic(auto)]

use reading::read_full;
use sheet::sheet;
use std::io;

// One word more than the longest file has, so that a longer input is seen to be too long and is not read on.
const MOST_INPUT: usize = 4 * rules::MOST_FILE_WORDS + 4;

fn main(rt: HostRuntime) -> io::Result<()> {
    let mut input = [0u8; MOST_INPUT];
    let count = read_full(&mut rt.stdin(), &mut input)?;
    let mut out = [0u8; sheet::MOST_SHEET];
    let size = sheet(&input[..count], &mut out);
    rt.write_all(&out[..size])
}
