// One step of the run: the search for the next pivot, the pivot, and the range test.
#![tactic(auto)]

ghost use Rattle.std.specs.Prelude.{◌≡◌, length};
ghost use Rattle.amounts.specs.Amounts.{value_of};
ghost use Rattle.search.specs.Search.{seen};
ghost use Rattle.layout.specs.Layout.{most_entries};
ghost use Rattle.steps.specs.Step.{PutAt, Steppable, violated_pair, outcome_at};

use amounts::{Given, Value};
use layout::{ColumnPlace, RowPlace, Spot};
use pivot::asked::Asked;
use search::{Blocked, Next, View};
use tableau::{Limits, Tableau};

// How a run ends: every variable is within its limits, one is outside and stuck, or a number is too large.
#[derive(Clone, Copy, Debug, PartialEq, Eq)]
pub enum End {
    Can,
    Cannot(Blocked),
    Range,
}

// What one step comes to: an end, or the row and the column whose variables are to change places, the value of the one
// that leaves, and the new common number.
#[derive(Clone, Copy, Debug, PartialEq, Eq)]
pub enum Outcome {
    Ended(End),
    Goes(RowPlace, ColumnPlace, Value, i32),
}

// What the limit stands for that a variable violates.
fn violated_limit(rises: bool, lower: Given, upper: Given) -> Value
    ensures { result ≡ value_of (violated_pair rises lower upper) }
{
    if rises {
        amounts::lower_value(lower)
    } else {
        amounts::upper_value(upper)
    }
}

// One step: where a pivot is chosen, the entries after it are put into `next`. What is not kept was a look.
pub fn step(
    view: View,
    limits: Limits,
    entries: &[i32; Tableau::MOST_ENTRIES],
    next: &mut [i32; Tableau::MOST_ENTRIES],
) -> Outcome
    requires steppable { Steppable (seen entries.now view limits) }
    requires next_len { length next.old ≡ most_entries }
    ensures answer { result ≡ outcome_at (seen entries.now view limits) }
    ensures numbers { PutAt (seen entries.now view limits) next.new }
{
    match search::next_step(entries, view, limits) {
        Next::Within => Outcome::Ended(End::Can),
        Next::Stuck(blocked) => Outcome::Ended(End::Cannot(blocked)),
        Next::Pivot(choice) => {
            let row = choice.row;
            let column = choice.column;
            let leaving = view.basic[row.0 as usize].0 as usize;
            let value = violated_limit(choice.rises, limits.lower[leaving], limits.upper[leaving]);
            let asked = Asked {
                rows: view.rows,
                columns: view.columns,
                common: view.common,
                spot: Spot { row, column },
            };
            match pivot::pivot(entries, asked, next) {
                Some(common) => Outcome::Goes(row, column, value, common),
                None => Outcome::Ended(End::Range),
            }
        }
    }
}
