// A day's problems in one file: read from bytes, and written as bytes. No body is judged.
#![tactic(auto)]

pub mod body;
mod head;
pub mod judge;
mod places;
mod writer;

ghost use Rattle.std.specs.Prelude.{◌++◌, ◌≡◌, ◌*◌, ◌≤◌, drop, length};
ghost use Rattle.whole.specs.Tables.{table};
ghost use Rattle.rules.specs.Program.Bytes.{words_from};
ghost use Rattle.rules.specs.Bundle.File.{head_size, lengths_left, pair_length, read_refusal, words_left};
ghost use Rattle.rules.specs.Bundle.Writer.{file_left, writer_refusal};
ghost use Rattle.bundle.specs.Contents.{contents_told};
ghost use Rattle.refusals.specs.Numbers.{number_told};

use places::{count_of, word_of};
use refusals::Refusal;

/// What a reader tells of a file: its refusal, or 0 with its edition and how many bodies it has.
#[repr(C)]
#[derive(Clone, Copy, Debug, Default, PartialEq, Eq)]
pub struct Contents {
    pub refused: u32,
    pub edition: u32,
    pub bodies: usize,
}

// Whether a reader may be lent room for so many lengths and so many words: the file is judged first.
fn judge_reading(file: &[u8], sizes: usize, words: usize) -> Result<(), Refusal>
    ensures { number_told result ≡ read_refusal file.now sizes words }
{
    judge::judge(file)?;
    let bodies = count_of(file, 1);
    if sizes < bodies || words < file.len() / 4 - (2 + 2 * bodies) {
        return Err(Refusal::ShortFileRoom);
    }
    Ok(())
}

// The lengths of the bodies, at the front of `lengths`, whose later words stay.
fn take_lengths(file: &[u8], bodies: usize, lengths: &mut [i32])
    requires { (bodies ≤ length lengths.old) × (4 * head_size bodies ≤ length file.now) }
    ensures { lengths.new
        ≡ table bodies (pair_length (words_from file.now)) ++ drop bodies lengths.old }
{
    for (i, length) in lengths[..bodies].iter_mut().enumerate() {
        *length = word_of(file, 3 + 2 * i);
    }
}

/// Reads a file: the lengths of its bodies, and all their words back to back. A refusal keeps what is lent.
pub fn read(file: &[u8], lengths: &mut [i32], words: &mut [i32]) -> Contents
    ensures told { result ≡ contents_told
        (read_refusal file.now (length lengths.old) (length words.old))
        (words_from file.now) }
    ensures lengths { lengths.new
        ≡ lengths_left result.refused (words_from file.now) lengths.old }
    ensures words { words.new
        ≡ words_left result.refused (words_from file.now) words.old }
{
    if let Err(refusal) = judge_reading(file, lengths.len(), words.len()) {
        return Contents {
            refused: refusal.number(),
            ..Contents::default()
        };
    }
    let edition = count_of(file, 0);
    let bodies = count_of(file, 1);
    take_lengths(file, bodies, lengths);
    let start = 8 + 8 * bodies;
    wire::words_of(&file[start..], words);
    Contents {
        refused: 0,
        edition: edition as u32,
        bodies,
    }
}

/// Writes a file of an edition from the lengths of its bodies and all their words back to back. A refusal keeps `file`.
pub fn write(edition: u32, lengths: &[i32], words: &[i32], file: &mut [u8]) -> Result<(), Refusal>
    ensures number { number_told result ≡ writer_refusal edition lengths.now words.now
        (length file.old) }
    ensures output { file.new
        ≡ file_left (number_told result) edition lengths.now words.now file.old }
{
    writer::judge(edition, lengths, words, file.len())?;
    let mut front = [0i32; head::MOST_HEAD];
    let size = head::fill(edition, lengths, &mut front);
    wire::bytes_of(&front[..size], file, 0);
    wire::bytes_of(words, file, 4 * size);
    Ok(())
}
