// The evidence checker: accepts exactly what is right and within the number ranges, from anybody. It reads the problem
// through the entries and the limits that the tableau type makes of the words. It shares nothing with search or run.
// Each verdict reads the problem for itself: entries that both arms lend are copied once more.
#![tactic(auto)]

ghost use Rattle.std.specs.Prelude.{◌≡◌};
ghost use Rattle.refusals.specs.Numbers.{verdict_told};
ghost use Rattle.rules.specs.Evidence.{checked};

use can::shows_can;
use cannot::shows_cannot;
use parts::{Case, Size};
use refusals::Refusal;
use tableau::Tableau;

/// Refused by the problem, or where the answer is too short; else whether the evidence is right. Nothing is written.
pub fn check(words: &[i32], answer: &[i64]) -> Result<bool, Refusal>
    ensures { verdict_told result ≡ checked words.now answer.now }
{
    let Size { rows, columns } = parts::judge(words, answer, 3, 2)?;
    match answer[0] {
        1 => {
            let entries = Tableau::start_entries(words, columns, rows);
            let limits = Tableau::limits_of(words, columns, rows);
            Ok(shows_can(&Case {
                entries: &entries,
                limits: &limits,
                rows,
                columns,
                answer,
            }))
        }
        2 => {
            let entries = Tableau::start_entries(words, columns, rows);
            let limits = Tableau::limits_of(words, columns, rows);
            Ok(shows_cannot(&Case {
                entries: &entries,
                limits: &limits,
                rows,
                columns,
                answer,
            }))
        }
        _ => Ok(false),
    }
}
