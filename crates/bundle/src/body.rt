// The bodies in the words of a file that is not refused: the rows that they may have, and where each stands.
ghost use Rattle.std.specs.Prelude.{◌≡◌, ◌<◌};
ghost use Rattle.rules.specs.Bundle.File.{count_in, edition_in, rows_in};
ghost use Rattle.bundle.specs.Opened.{Opened, part_at};

use editions::rows_in;
use words::count_at;

/// The place of a body's first word, and the place behind its last.
#[derive(Clone, Copy, Debug, Default, PartialEq, Eq)]
pub struct Part {
    pub first: usize,
    pub end: usize,
}

/// The most rows of a body, by the edition of the file.
pub fn rows_of(words: &[i32]) -> u32
    requires { Opened words.now }
    ensures { result ≡ rows_in (edition_in words.now) }
{
    rows_in(count_at(words, 0) as u32)
}

/// Where body `i` stands.
#[tactic(auto, unfolding(crate::specs::Opened::part_at))]
pub fn part_of(words: &[i32], i: usize) -> Part
    requires { Opened words.now × (i < count_in words.now) }
    ensures { result ≡ part_at words.now i }
{
    let first = count_at(words, 2 + 2 * i);
    let end = first + count_at(words, 3 + 2 * i);
    Part { first, end }
}
