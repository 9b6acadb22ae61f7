// The checker of wide evidence: accepts exactly what is right, in numbers of four words each, from anybody. It judges
// and reads the problem as the narrow checker does, for each verdict, and shares nothing with search or run.
//   numbers   the numbers of an answer, and whether their words are in their ranges
//   can       verdict 1
//   cannot    verdict 2
// Kept: one trait for these and for numbers of one word is no plainer: those need ranges, these how large limbs are.
#![tactic(auto)]

ghost use Rattle.std.specs.Prelude.{◌≡◌};
ghost use Rattle.refusals.specs.Numbers.{verdict_told};
ghost use Rattle.rules.specs.Wide.{checked_wide};

use parts::{Case, Size};
use refusals::Refusal;
use tableau::Tableau;

mod can;
mod cannot;
mod numbers;

/// Refused by the problem, or where the answer is too short; else whether the evidence is right. Nothing is written.
pub fn check(words: &[i32], answer: &[i64]) -> Result<bool, Refusal>
    ensures { verdict_told result ≡ checked_wide words.now answer.now }
{
    let Size { rows, columns } = parts::judge(words, answer, 6, 8)?;
    if !numbers::numbers_fit(answer, 1 + 2 * (columns + rows)) {
        return Ok(false);
    }
    match answer[0] {
        1 => {
            let entries = Tableau::start_entries(words, columns, rows);
            let limits = Tableau::limits_of(words, columns, rows);
            Ok(can::shows_can(&Case {
                entries: &entries,
                limits: &limits,
                rows,
                columns,
                answer,
            }))
        }
        2 => {
            let entries = Tableau::start_entries(words, columns, rows);
            let limits = Tableau::limits_of(words, columns, rows);
            Ok(cannot::shows_cannot(&Case {
                entries: &entries,
                limits: &limits,
                rows,
                columns,
                answer,
            }))
        }
        _ => Ok(false),
    }
}
