// The test program. It reads calls of the entry points from standard input, makes each, and prints a line for it: the
// number that was returned, a colon, and the words of the output after the call. A run in slices has a line for each
// continue, and a session one for each operation.
#![tactic(auto)]

mod cycle;
mod input;
mod print;
mod scripted;
mod sliced;

use refusals::{number, verdict};
use std::io;
use std::io::Read;

const MOST_CALLS: usize = 100000;

const MOST_WORDS: usize = 1040;

const MOST_BYTES: usize = 4 * MOST_WORDS;

const MOST_OUT: usize = 136;

// What a call is of.
#[derive(Clone, Copy)]
enum Entry {
    Solve,
    Check,
    Times,
    Slices,
    Session,
}

impl From<u32> for Entry {
    // By its number; past the last one it is the last.
    fn from(number: u32) -> Entry {
        match number {
            0 => Entry::Solve,
            1 => Entry::Check,
            2 => Entry::Times,
            3 => Entry::Slices,
            _ => Entry::Session,
        }
    }
}

fn line(rt: &impl Print, number: u32, out: &[i64]) -> io::Result<()> {
    print!(rt; "{number}:")?;
    print::words(rt, out)?;
    rt.write_all(b"\n")
}

fn line_of_times(rt: &impl Print, number: u32, out: &[i64]) -> io::Result<()> {
    if cycle::is_told(number, out) {
        rt.write_all(b"0:")?;
        cycle::words(rt, out)?;
        return rt.write_all(b"\n");
    }
    line(rt, number, out)
}

// Makes the call and prints its line.
fn call(
    reader: &mut impl Read,
    rt: &impl Print,
    entry: Entry,
    words: &[i32],
    out: &mut [i64],
) -> io::Result<()> {
    match entry {
        Entry::Solve => {
            let told = solver::solve(words, out);
            line(rt, number(told), out)
        }
        Entry::Check => {
            let told = evidence::check(words, out);
            line(rt, verdict(told), out)
        }
        Entry::Times => {
            let told = times::times(words, out);
            line_of_times(rt, number(told), out)
        }
        Entry::Slices => sliced::run(rt, words, out),
        Entry::Session => scripted::run(reader, rt, words, out),
    }
}

// Reads one call.
fn next(reader: &mut impl Read, rt: &impl Print) -> io::Result<()> {
    let entry = Entry::from(input::number(reader)?);
    let mut bytes = [0u8; MOST_BYTES];
    let mut words = [0i32; MOST_WORDS];
    let word_count = input::count(reader, MOST_WORDS)?;
    input::words(reader, &mut bytes[..4 * word_count], &mut words)?;
    let mut out = [0i64; MOST_OUT];
    let out_count = input::count(reader, MOST_OUT)?;
    input::wide_words(reader, &mut out[..out_count])?;
    call(
        reader,
        rt,
        entry,
        &words[..word_count],
        &mut out[..out_count],
    )
}

fn main(rt: HostRuntime) -> io::Result<()> {
    let mut reader = rt.stdin();
    let calls = input::count(&mut reader, MOST_CALLS)?;
    for _ in 0..calls {
        next(&mut reader, &rt)?;
    }
    Ok(())
}
