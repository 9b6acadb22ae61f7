// The totals of a file's bodies.
ghost use Rattle.std.specs.Prelude.{◌≡◌};
ghost use Rattle.rules.specs.Refusal.{rows_within};
ghost use Rattle.bundle.specs.Opened.{Opened};
ghost use Rattle.tally.specs.Counting.{Countable, audited_at};
ghost use Rattle.tally.specs.Sums.{totals_in};

use bundle::body::{part_of, rows_of};
use tally::Totals;
use words::count_at;

// One body more, with at most so many rows.
fn audited(totals: Totals, most: u32, words: &[i32], body: usize) -> Totals
    requires { Countable totals }
    ensures { result ≡ audited_at (rows_within most) totals words.now body }
{
    let mut answer = [0i64; rules::MOST_ANSWER];
    match solver::solve_within(most, words, &mut answer) {
        Err(refusal) => tally::refused(totals, refusal.number()),
        Ok(()) => {
            let variables = count_at(words, 0) + count_at(words, 1);
            tally::counted(totals, &answer, variables, body)
        }
    }
}

// All bodies, in their order, with the rows of the file's edition.
pub fn totals(words: &[i32]) -> Totals
    requires { Opened words.now }
    ensures { result ≡ totals_in words.now }
{
    let rows = rows_of(words);
    let bodies = count_at(words, 1);
    let mut sums = tally::nothing();
    for i in 0..bodies {
        let part = part_of(words, i);
        sums = audited(sums, rows, &words[part.first..part.end], i);
    }
    sums
}
