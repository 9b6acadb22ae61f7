// The checker of evidence about time rows: accepts exactly times that meet every row, or a bad cycle, from anybody. It
// shares with the solver of time rows what the words are, and nothing of the passes.
//   times    times that meet every row
//   cycle    a bad cycle
#![tactic(auto)]

ghost use Rattle.std.specs.Prelude.{◌≡◌};
ghost use Rattle.rules.specs.Times.Check.{checked_times};
ghost use Rattle.refusals.specs.Numbers.{verdict_told};

use refusals::Refusal;
use timerows::judge;
use timerows::rows::TimeRows;

mod cycle;
mod times;

/// Refusals 11 to 17 by the rows and the answer's length; else whether the answer is evidence.
pub fn check(words: &[i32], answer: &[i64]) -> Result<bool, Refusal>
    ensures { verdict_told result ≡ checked_times words.now answer.now }
{
    judge::judge(words, answer.len())?;
    let rows = TimeRows { words };
    let verdict = answer[0];
    match verdict {
        1 => Ok(times::shows_times(&rows, answer)),
        2 => Ok(cycle::shows_cycle(&rows, answer)),
        _ => Ok(false),
    }
}
