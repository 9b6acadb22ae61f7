// The answer's words: two, then a word for each vertex, twice: the plain parts of the times, and their small parts.
ghost use Rattle.std.specs.Prelude.{◌≡◌, map, ◌+◌, ◌*◌, ◌≤◌, pos, length, replicate};
ghost use Rattle.rules.specs.Sizes.{most_vertices};
ghost use Rattle.rules.specs.Times.Answer.{cycle_words};
ghost use Rattle.lengths.specs.Answer.{Gathering, rows_of, output};
ghost use Rattle.lengths.specs.Lengths.{plain_part, small_part};

use crate::{Length, MOST_VERTICES};

// The rows that a way took, at the places from `from` to `to`: they go round.
#[derive(Clone, Copy)]
pub struct Way {
    pub from: usize,
    pub to: usize,
    pub path: [u16; MOST_VERTICES],
}

// The two halves.
#[derive(Clone, Copy)]
pub struct Halves {
    pub plain: [i64; MOST_VERTICES],
    pub small: [i64; MOST_VERTICES],
}

// The times, minus the distances.
pub fn times_of(best: [Length; MOST_VERTICES]) -> Halves
    ensures { (result.plain ≡ map plain_part best) × (result.small ≡ map small_part best) }
{
    let mut plain = [0i64; MOST_VERTICES];
    let mut small = [0i64; MOST_VERTICES];
    // Kept: a `map` for each half takes 500 ns more than this loop, where all of a chain takes 480.
    for (v, far) in best.iter().enumerate() {
        plain[v] = far.plain_time();
        small[v] = far.small_time();
    }
    Halves { plain, small }
}

// The rows that go round, and zeros.
pub fn gathered(way: Way) -> Halves
    requires { Gathering way }
    ensures { (result.plain ≡ cycle_words most_vertices (rows_of way))
        × (result.small ≡ replicate most_vertices (pos 0)) }
{
    let mut plain = [0i64; MOST_VERTICES];
    for (i, row) in way.path[way.from..way.to].iter().enumerate() {
        plain[i] = i64::from(*row);
    }
    Halves {
        plain,
        small: [0i64; MOST_VERTICES],
    }
}

// The answer at the front of the output.
pub fn write(verdict: i64, count: usize, halves: Halves, n: usize, out: &mut [i64])
    requires { (n ≤ most_vertices) × (count ≤ most_vertices) × (2 + 2 * n ≤ length out.old) }
    ensures { out.new ≡ output verdict count halves n out.old }
{
    out[0] = verdict;
    out[1] = count as i64;
    out[2..2 + n].copy_from_slice(&halves.plain[..n]);
    out[2 + n..2 + 2 * n].copy_from_slice(&halves.small[..n]);
}
