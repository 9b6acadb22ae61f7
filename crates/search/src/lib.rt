// The search for the next pivot: of the basic variables that are outside, the lowest-numbered; and of the nonbasic ones
// that can move it.
#![tactic(auto)]

ghost use Rattle.std.specs.Prelude.{◌≡◌, false, ℕ, ◌+◌, ◌≤◌, ◌<◌, pos, get_or};
ghost use Rattle.whole.specs.Numbers.{Within};
ghost use Rattle.rules.specs.Sizes.{most_columns, most_rows, largest_number, largest_limit};
ghost use Rattle.layout.specs.Layout.{entry_in};
ghost use Rattle.search.specs.Search.{blocked_in, column_seated, row_sum_in, Searchable, seen, next_at, view_of};

use amounts::{Amount, Value};
use layout::{ColumnPlace, RowPlace};
use sides::LimitPair;
use tableau::{Limits, Seat, Tableau, Variable};

// What a step reads of a tableau beside its entries and its limits. Which variable is in which column it does not ask.
#[derive(Clone, Copy, Debug, PartialEq, Eq)]
pub struct View {
    pub rows: usize,
    pub columns: usize,
    pub common: i32,
    pub values: [i32; Tableau::MOST_COLUMNS],
    pub smalls: [i32; Tableau::MOST_COLUMNS],
    pub basic: [Variable; Tableau::MOST_ROWS],
    pub seats: [Seat; Tableau::MOST_VARIABLES],
}

impl View {
    /// What a step reads of this tableau.
    pub fn of(t: &Tableau) -> View
        ensures { result ≡ view_of t.now }
    {
        View {
            rows: t.rows,
            columns: t.columns,
            common: t.common,
            values: t.values,
            smalls: t.smalls,
            basic: t.basic,
            seats: t.seats,
        }
    }
}

// How many rows and columns there are.
#[derive(Clone, Copy, Debug, PartialEq, Eq)]
pub struct Size {
    pub rows: usize,
    pub columns: usize,
}

// The row and the column of a pivot. The leaving variable is the one of the row: it must rise where it is below its
// lower limit, and fall where it is above its upper one; its shortfall is how far D times its value is from D times
// that limit, part by part. At the first step of case A of docs/RULES.md, whose D is 1, variable 2 must rise by 2: it
// is 0 and its lower limit is 2.
#[derive(Clone, Copy, Debug, PartialEq, Eq)]
pub struct Choice {
    pub row: RowPlace,
    pub column: ColumnPlace,
    pub rises: bool,
    pub shortfall: Amount,
}

// The row of a variable outside its limits that nothing can move; side and shortfall as in a choice.
#[derive(Clone, Copy, Debug, PartialEq, Eq)]
pub struct Blocked {
    pub row: RowPlace,
    pub rises: bool,
    pub shortfall: Amount,
}

// What a search comes to: every variable is within its limits, one is outside and stuck, or a pivot moves it.
#[derive(Clone, Copy, Debug, PartialEq, Eq)]
pub enum Next {
    Within,
    Stuck(Blocked),
    Pivot(Choice),
}

// The entry of a row and a column.
pub fn entry_at(
    entries: &[i32; Tableau::MOST_ENTRIES],
    size: Size,
    row: RowPlace,
    column: ColumnPlace,
) -> i32
    requires { (row.0 < size.rows) × (column.0 < size.columns)
        × (size.rows ≤ most_rows) × (size.columns ≤ most_columns) }
    ensures { result ≡ entry_in size.rows size.columns entries.now row.0 column.0 }
{
    let k = layout::place(size.rows, size.columns, row, column);
    entries[k]
}

// D times the value of the basic variable of a row: its plain part, of the plain values.
pub fn row_value<'a>(
    entries: &'a [i32; Tableau::MOST_ENTRIES],
    values: &'a [i32; Tableau::MOST_COLUMNS],
    size: Size,
    row: RowPlace,
) -> i64
    requires rows_le_most_rows { (size.rows ≤ most_rows) × (size.columns ≤ most_columns) × (row.0 < size.rows) }
    requires by_index { (k : ℕ) → Within (get_or entries.now k (pos 0)) largest_number }
    requires by_index_2 { (j : ℕ) → Within (get_or values.now j (pos 0)) largest_limit }
    ensures { result ≡ row_sum_in size.rows size.columns entries.now values.now row.0 }
{
    let mut sum = 0;
    for j in 0..size.columns {
        let entry = entry_at(entries, size, row, ColumnPlace(j as u8));
        sum += sides::product(entry, values[j]);
    }
    sum
}

// .. and its small part, of the small values. Where no limit is strict these are all 0, and no row is read.
fn row_small<'a>(
    entries: &'a [i32; Tableau::MOST_ENTRIES],
    smalls: &'a [i32; Tableau::MOST_COLUMNS],
    size: Size,
    row: RowPlace,
    strict: bool,
) -> i64
    requires rows_le_most_rows { (size.rows ≤ most_rows) × (size.columns ≤ most_columns) × (row.0 < size.rows) }
    requires by_index { (k : ℕ) → Within (get_or entries.now k (pos 0)) largest_number }
    requires by_index_2 { (j : ℕ) → Within (get_or smalls.now j (pos 0)) 1 }
    requires pos_value { strict ≡ false → (j : ℕ) → get_or smalls.now j (pos 0) ≡ pos 0 }
    ensures { result ≡ row_sum_in size.rows size.columns entries.now smalls.now row.0 }
{
    if !strict {
        return 0;
    }
    row_value(entries, smalls, size, row)
}

// The leaving variable: of the basic ones, the lowest-numbered that is outside its limits.
fn leaving(entries: &[i32; Tableau::MOST_ENTRIES], view: &View, limits: &Limits) -> Option<Blocked>
    requires { Searchable (seen entries.now view.now limits.now) }
    ensures { result ≡ blocked_in (seen entries.now view.now limits.now) }
{
    let size = Size {
        rows: view.rows,
        columns: view.columns,
    };
    // Kept: three arrays have place v in common, so a zip of them is no plainer
    for v in 0..size.rows + size.columns {
        let seat = view.seats[v];
        if seat.basic {
            let plain = row_value(entries, &view.values, size, seat.row);
            let small = row_small(entries, &view.smalls, size, seat.row, limits.strict);
            let own = LimitPair {
                lower: limits.lower[v],
                upper: limits.upper[v],
            };
            let outside = sides::breach_of(view.common, Amount { plain, small }, own);
            if let Some(breach) = outside {
                return Some(Blocked {
                    row: seat.row,
                    rises: breach.rises,
                    shortfall: breach.shortfall,
                });
            }
        }
    }
    None
}

// The column of the entering variable: of the nonbasic ones, the lowest-numbered that can move the one of this row.
fn entering(
    entries: &[i32; Tableau::MOST_ENTRIES],
    view: &View,
    limits: &Limits,
    row: RowPlace,
    rises: bool,
) -> Option<ColumnPlace>
    requires searchable { Searchable (seen entries.now view.now limits.now) }
    requires in_rows { row.0 < view.now.rows }
    ensures { result ≡ column_seated (seen entries.now view.now limits.now) row.0 rises }
{
    let size = Size {
        rows: view.rows,
        columns: view.columns,
    };
    for w in 0..size.rows + size.columns {
        let seat = view.seats[w];
        if !seat.basic {
            let entry = entry_at(entries, size, row, seat.column);
            let j = seat.column.0 as usize;
            let value = Value {
                plain: view.values[j],
                small: view.smalls[j],
            };
            let its = LimitPair {
                lower: limits.lower[w],
                upper: limits.upper[w],
            };
            if sides::suits(rises, entry, value, its) {
                return Some(seat.column);
            }
        }
    }
    None
}

// The search runs over the basic variables, and for the first one outside its limits over the nonbasic ones, both in
// order of their numbers.
pub fn next_step(entries: &[i32; Tableau::MOST_ENTRIES], view: View, limits: Limits) -> Next
    requires { Searchable (seen entries.now view limits) }
    ensures { result ≡ next_at (seen entries.now view limits) }
{
    let Some(outside) = leaving(entries, &view, &limits) else {
        return Next::Within;
    };
    let Blocked {
        row,
        rises,
        shortfall,
    } = outside;
    match entering(entries, &view, &limits, row, rises) {
        Some(column) => Next::Pivot(Choice {
            row,
            column,
            rises,
            shortfall,
        }),
        None => Next::Stuck(outside),
    }
}
