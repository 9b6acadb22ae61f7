// The words of an answer: verdict, count of pivots, denominator, and two words for each variable.
#![tactic(auto)]

ghost use Rattle.std.specs.Prelude.{◌≡◌, ℕ, ◌+◌, ◌*◌, ◌≤◌, ◌<◌, get_or, length};
ghost use Rattle.rules.specs.Run.{most_count};
ghost use Rattle.rules.specs.Sizes.{most_columns, most_rows, most_variables};
ghost use Rattle.tableau.specs.Parts.{nowhere};
ghost use Rattle.answers.specs.Answer.{verdict_number, Numerable, numerator_of, numerators_in};
ghost use Rattle.answers.specs.Answer.{is_short, words_at, laid_over};

use search::Size;
use sides::product;
use tableau::{Seat, Tableau};

pub mod conflict;
pub mod multipliers;

// How a run ends: with values, with multipliers, or with neither where a number is too large.
#[derive(Clone, Copy, Debug, PartialEq, Eq)]
pub enum Verdict {
    Can,
    Cannot,
    Range,
}

// The number of a verdict in an answer.
impl From<Verdict> for i64 {
    ghost from_gives = { λ verdict n. n ≡ verdict_number verdict };

    #[tactic(auto, unfolding(crate::specs::Answer::verdict_number))]
    fn from(verdict: Verdict) -> i64 {
        match verdict {
            Verdict::Can => 1,
            Verdict::Cannot => 2,
            Verdict::Range => 3,
        }
    }
}

// The first three words of an answer: how it ends, after how many pivots, and over which denominator.
#[derive(Clone, Copy, Debug, PartialEq, Eq)]
pub struct Head {
    pub verdict: Verdict,
    pub count: usize,
    pub denominator: i64,
}

// Whether an output of so many words has no room for the answer of so many variables.
pub fn is_short(room: usize, variables: usize) -> bool
    requires { variables ≤ most_variables }
    ensures { result ≡ is_short room variables }
{
    room < 3 + 2 * variables
}

// D times the value of the variable of a seat, from plain parts or from small parts.
fn numerator_of<'a>(
    entries: &'a [i32; Tableau::MOST_ENTRIES],
    values: &'a [i32; Tableau::MOST_COLUMNS],
    size: Size,
    common: i32,
    seat: Seat,
) -> i64
    requires { Numerable entries.now values.now size.rows size.columns common seat }
    ensures { result
        ≡ numerator_of entries.now values.now size.rows size.columns common seat }
{
    if seat.basic {
        search::row_value(entries, values, size, seat.row)
    } else {
        product(common, values[seat.column.0 as usize])
    }
}

// The numerators of all variables, over D: of the plain parts, or of the small parts.
pub fn numerators_of<'a>(
    entries: &'a [i32; Tableau::MOST_ENTRIES],
    values: &'a [i32; Tableau::MOST_COLUMNS],
    seats: [Seat; Tableau::MOST_VARIABLES],
    common: i32,
    size: Size,
) -> [i64; Tableau::MOST_VARIABLES]
    requires rows_le_most_rows { (size.rows ≤ most_rows) × (size.columns ≤ most_columns) }
    requires by_index { (v : ℕ) → v < size.rows + size.columns →
        Numerable entries.now values.now size.rows size.columns common (get_or seats v nowhere) }
    ensures { result
        ≡ numerators_in entries.now values.now seats common size.rows size.columns }
{
    let mut numerators = [0; Tableau::MOST_VARIABLES];
    for v in 0..size.rows + size.columns {
        numerators[v] = numerator_of(entries, values, size, common, seats[v]);
    }
    numerators
}

// The whole answer.
pub fn write<'a>(
    out: &mut [i64],
    head: Head,
    variables: usize,
    lower: &'a [i64; Tableau::MOST_VARIABLES],
    upper: &'a [i64; Tableau::MOST_VARIABLES],
)
    requires { (3 + 2 * variables ≤ length out.old) × (variables ≤ most_variables) × (head.count < most_count) }
    ensures { out.new ≡ laid_over variables out.old
        (words_at head.verdict head.count head.denominator variables
        lower.now upper.now) }
{
    out[..3].copy_from_slice(&[i64::from(head.verdict), head.count as i64, head.denominator]);
    out[3..3 + variables].copy_from_slice(&lower[..variables]);
    out[3 + variables..3 + 2 * variables].copy_from_slice(&upper[..variables]);
}
