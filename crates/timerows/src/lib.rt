// Time rows as words: whether lent words are some, and what the rows of accepted words are.
//   judge    refusals 11 to 17
//   rows     accepted words as edges
#![tactic(auto)]

ghost use Rattle.std.specs.Prelude.{◌≡◌, ◌+◌, ◌*◌, ◌<◌, length};
ghost use Rattle.rules.specs.Problem.{word};

pub mod judge;
pub mod rows;

// Word k of the four of row i: x, y, strict, c.
fn word_of(words: &[i32], i: usize, k: usize) -> i32
    requires { 2 + k + 4 * i < length words.now }
    ensures { result ≡ word words.now (2 + k + 4 * i) }
{
    words[2 + k + 4 * i]
}
