// The two multiplier vectors of "cannot": from a row whose variable is outside its limits and cannot be moved, or from
// crossed limits.
ghost use Rattle.std.specs.Prelude.{◌≡◌, ℕ, ◌+◌, ◌≤◌, ◌<◌, get_or};
ghost use Rattle.whole.specs.Numbers.{Within};
ghost use Rattle.rules.specs.Sizes.{most_columns, most_rows, most_variables, largest_number};
ghost use Rattle.rules.specs.Step.{pull};
ghost use Rattle.tableau.specs.Parts.{nowhere};
ghost use Rattle.sides.specs.Sides.{side_by};
ghost use Rattle.answers.specs.Multipliers.{Blockable, unit_at, pull_of, multipliers_in};

use search::{Blocked, Size};
use tableau::{Seat, Tableau, Variable};

// One multiplier for the lower and one for the upper limit of each variable.
#[derive(Clone, Copy, Debug, PartialEq, Eq)]
pub struct Multipliers {
    pub lower: [i64; Tableau::MOST_VARIABLES],
    pub upper: [i64; Tableau::MOST_VARIABLES],
}

// 1 at a variable, 0 elsewhere.
pub fn unit(variable: Variable) -> [i64; Tableau::MOST_VARIABLES]
    requires { variable.0 < most_variables }
    ensures { result ≡ unit_at variable.0 }
{
    let mut ones = [0; Tableau::MOST_VARIABLES];
    ones[variable.0 as usize] = 1;
    ones
}

// An entry, with its sign swapped where the row's variable must fall.
fn turned(rises: bool, entry: i64) -> i64
    requires { Within entry largest_number }
    ensures { result ≡ pull (side_by rises) entry }
{
    if rises { entry } else { -entry }
}

// The row as an equation "the sum is 0", turned to rise, at the variable of a seat: minus D at the row's own variable,
// 0 at the other basic ones.
fn pull_of(
    entries: &[i32; Tableau::MOST_ENTRIES],
    size: Size,
    common: i32,
    blocked: Blocked,
    seat: Seat,
) -> i64
    requires { Blockable entries.now size.rows size.columns common blocked.row.0 seat }
    ensures { result ≡ pull_of entries.now size.rows size.columns common blocked seat }
{
    if !seat.basic {
        let entry = search::entry_at(entries, size, blocked.row, seat.column);
        turned(blocked.rises, i64::from(entry))
    } else if seat.row.0 == blocked.row.0 {
        turned(blocked.rises, -i64::from(common))
    } else {
        0
    }
}

// The multipliers of a blocked row. D goes to the limit that its variable violates. The size of each entry goes to the
// limit that stops the entry's variable: the upper one if it would have to rise, the lower one if it would have to
// fall. The rest is 0.
pub fn multipliers_of(
    entries: &[i32; Tableau::MOST_ENTRIES],
    seats: [Seat; Tableau::MOST_VARIABLES],
    common: i32,
    size: Size,
    blocked: Blocked,
) -> Multipliers
    requires rows_le_most_rows { (size.rows ≤ most_rows) × (size.columns ≤ most_columns) }
    requires by_index { (v : ℕ) → v < size.rows + size.columns →
        Blockable entries.now size.rows size.columns common blocked.row.0 (get_or seats v nowhere) }
    ensures { result ≡ multipliers_in entries.now seats common size.rows size.columns blocked }
{
    let mut lower = [0; Tableau::MOST_VARIABLES];
    let mut upper = [0; Tableau::MOST_VARIABLES];
    for v in 0..size.rows + size.columns {
        let pull = pull_of(entries, size, common, blocked, seats[v]);
        lower[v] = (-pull).max(0);
        upper[v] = pull.max(0);
    }
    Multipliers { lower, upper }
}
