// Time rows x - y <= c or x - y < c: times that meet them all, or a cycle of rows that no times meet. docs/RULES.md,
// "Time rows".
//   passes   distances, pass by pass
//   cycle    the way back to a cycle
#![tactic(auto)]

ghost use Rattle.std.specs.Prelude.{length};
ghost use Rattle.rules.specs.Times.Words.{AcceptedTimes};
ghost use Rattle.rules.specs.Times.Answer.{Timed};
ghost use Rattle.refusals.specs.Numbers.{number_told};

use lengths::answer;
use refusals::Refusal;
use timerows::judge;
use timerows::rows::TimeRows;

mod cycle;
mod passes;

// Stands for no row: one past the last number that a row can have.
const NO_ROW: u32 = 256;

// The times where the passes settle; else the cycle that the way back closed.
fn solve(words: &[i32], out: &mut [i64])
    requires { AcceptedTimes words.now (length out.old) }
    ensures { Timed words.now out.old 0 out.new }
{
    let rows = TimeRows { words };
    let n = rows.n();
    match passes::settle(&rows) {
        Ok(best) => answer::write(1, n, answer::times_of(best), n, out),
        Err(way) => answer::write(2, way.to - way.from, answer::gathered(way), n, out),
    }
}

/// Times that meet all rows, or a cycle that cannot be met.
pub fn times(rows: &[i32], out: &mut [i64]) -> Result<(), Refusal>
    ensures { Timed rows.now out.old (number_told result) out.new }
{
    judge::judge(rows, out.len())?;
    solve(rows, out);
    Ok(())
}
