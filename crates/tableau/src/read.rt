// The tableau at the start of a run, from accepted words: entries, places, limits and values.
ghost use Rattle.std.specs.Prelude.{◌≡◌, ◌||◌, ◌+◌, ◌≤◌, ◌<◌};
ghost use Rattle.whole.specs.Values.{pairs};
ghost use Rattle.rules.specs.Sizes.{most_columns, most_rows, most_variables};
ghost use Rattle.rules.specs.Limit.{lower_pair, strict_lower, strict_upper, upper_pair};
ghost use Rattle.rules.specs.Problem.{mapped, problem};
ghost use Rattle.rules.specs.Refusal.{Accepted, problem_refusal};
ghost use Rattle.rules.specs.Step.{start_value};
ghost use Rattle.judge.specs.Words.{Framed};
ghost use Rattle.layout.specs.Layout.{lines, line_at};
ghost use Rattle.amounts.specs.Amounts.{limit_in, value_of};
ghost use Rattle.tableau.specs.Start.{start_up_to, start_entries, start_basic, start_nonbasic, seat_for, start_seats};
ghost use Rattle.tableau.specs.Start.{limits_for, starts_for, start_tableau};

use crate::{Limits, Seat, Tableau, Variable};
use amounts::{Given, Value};
use layout::{ColumnPlace, RowPlace};
use words::count_at;

// The values of the problem variables: plain parts and small parts.
#[derive(Clone, Copy)]
struct Starts {
    pub values: [i32; Tableau::MOST_COLUMNS],
    pub smalls: [i32; Tableau::MOST_COLUMNS],
}

// One coefficient. They are handed in row by row.
fn coefficient_at(
    words: &[i32],
    columns: usize,
    rows: usize,
    row: RowPlace,
    column: ColumnPlace,
) -> i32
    requires framed { Framed words.now columns rows }
    requires row_lt_rows { (row.0 < rows) × (column.0 < columns) }
    ensures { result ≡ (problem words.now).coefficient row.0 column.0 }
{
    let at = 2 + (row.0 as usize * columns + column.0 as usize);
    words[at]
}

// The entries of one line, where those of the lines before it are there.
fn start_line(
    entries: &mut [i32; Tableau::MOST_ENTRIES],
    words: &[i32],
    columns: usize,
    rows: usize,
    line: usize,
)
    requires framed { Framed words.now columns rows }
    requires line_bound { line < lines rows columns }
    requires entries_value { entries.old ≡ start_up_to (problem words.now) rows columns (line_at rows columns line) }
    ensures { entries.new
        ≡ start_up_to (problem words.now) rows columns (line_at rows columns (line + 1)) }
{
    let steps = layout::steps(rows, columns);
    let start = layout::line_at(rows, columns, line);
    for step in 0..steps {
        let spot = layout::spot_at(rows, columns, line, step);
        let at = start + step;
        entries[at] = coefficient_at(words, columns, rows, spot.row, spot.column);
    }
}

// The basic variables: that of row i in row place i.
fn start_basic(columns: usize) -> [Variable; Tableau::MOST_ROWS]
    requires { columns ≤ most_columns }
    ensures { result ≡ start_basic columns }
{
    let mut basic = [Variable(0); Tableau::MOST_ROWS];
    for (i, variable) in basic.iter_mut().enumerate() {
        *variable = Variable((columns + i) as u8);
    }
    basic
}

// The nonbasic variables: problem variable j in column place j.
fn start_nonbasic() -> [Variable; Tableau::MOST_COLUMNS]
    ensures { result ≡ start_nonbasic }
{
    std::array::from_fn(|j| Variable(j as u8))
}

// Where a variable sits.
fn seat_for(columns: usize, variable: Variable) -> Seat
    ensures { result ≡ seat_for columns variable.0 }
{
    let v = variable.0 as usize;
    Seat {
        basic: v >= columns,
        row: RowPlace(v.saturating_sub(columns) as u8),
        column: ColumnPlace(variable.0),
    }
}

// The seats of so many variables.
fn start_seats(columns: usize, variables: usize) -> [Seat; Tableau::MOST_VARIABLES]
    requires { variables ≤ most_variables }
    ensures { result ≡ start_seats columns variables }
{
    let nowhere = Seat {
        basic: false,
        row: RowPlace(0),
        column: ColumnPlace(0),
    };
    let mut seats = [nowhere; Tableau::MOST_VARIABLES];
    // Kept: of the first ones alone; `iter_mut().enumerate().take(..)` is no plainer
    for v in 0..variables {
        seats[v] = seat_for(columns, Variable(v as u8));
    }
    seats
}

// A limit as it is given: on, with its number.
fn limit_by(given: bool, strict: bool, plain: i32) -> Given
    ensures { result ≡ record { given = given; on = given; strict = strict; plain = plain } }
{
    Given {
        given,
        on: given,
        strict,
        plain,
    }
}

// Whether one of a variable's limits is strict.
fn some_strict(kind: i32) -> bool
    ensures { result ≡ (strict_lower kind || strict_upper kind) }
{
    judge::strict_lower(kind) | judge::strict_upper(kind)
}

// 0 if the limits allow 0, else what the lower limit stands for if that is above 0, else what the upper limit does.
fn start_value(lower: Given, upper: Given) -> Value
    ensures { result
        ≡ value_of (start_value pairs (mapped lower_pair (limit_in lower)) (mapped upper_pair (limit_in upper))) }
{
    let zero = Value { plain: 0, small: 0 };
    amounts::put_inside(lower, upper, zero)
}

// The values of so many problem variables.
fn start_values(limits: Limits, columns: usize) -> Starts
    requires { columns ≤ most_columns }
    ensures { result ≡ starts_for limits columns }
{
    let mut values = [0; Tableau::MOST_COLUMNS];
    let mut smalls = [0; Tableau::MOST_COLUMNS];
    // Kept: four arrays have place j in common, so a zip of them is no plainer
    for j in 0..columns {
        let value = start_value(limits.lower[j], limits.upper[j]);
        values[j] = value.plain;
        smalls[j] = value.small;
    }
    Starts { values, smalls }
}

impl Tableau {
    // The entries of accepted words.
    pub fn start_entries(words: &[i32], columns: usize, rows: usize) -> [i32; Tableau::MOST_ENTRIES]
        requires { Framed words.now columns rows }
        ensures { result ≡ start_entries (problem words.now) }
    {
        let lines = layout::lines(rows, columns);
        let mut entries = [0; Tableau::MOST_ENTRIES];
        for line in 0..lines {
            start_line(&mut entries, words, columns, rows, line);
        }
        entries
    }

    // The limits of accepted words. The word of a missing limit is 0.
    pub fn limits_of(words: &[i32], columns: usize, rows: usize) -> Limits
        requires framed { Framed words.now columns rows }
        requires accepted { Accepted most_rows words.now }
        ensures { result ≡ limits_for (problem words.now) }
    {
        let from = 2 + rows * columns;
        let end = columns + rows;
        let mut lower = [Given::default(); Tableau::MOST_VARIABLES];
        let mut upper = [Given::default(); Tableau::MOST_VARIABLES];
        let mut strict = false;
        for v in 0..end {
            let at = from + 3 * v;
            let kind = words[at];
            lower[v] = limit_by(
                judge::has_lower(kind),
                judge::strict_lower(kind),
                words[at + 1],
            );
            upper[v] = limit_by(
                judge::has_upper(kind),
                judge::strict_upper(kind),
                words[at + 2],
            );
            strict |= some_strict(kind);
        }
        Limits {
            lower,
            upper,
            strict,
        }
    }

    // The tableau of accepted words, at the start of a run.
    pub fn new(words: &[i32]) -> Tableau
        requires { problem_refusal words.now ≡ 0 }
        ensures { result ≡ start_tableau (problem words.now) }
    {
        let columns = count_at(words, 0);
        let rows = count_at(words, 1);
        let limits = Tableau::limits_of(words, columns, rows);
        let Starts { values, smalls } = start_values(limits, columns);
        Tableau {
            rows,
            columns,
            common: 1,
            entries: Tableau::start_entries(words, columns, rows),
            basic: start_basic(columns),
            nonbasic: start_nonbasic(),
            values,
            smalls,
            seats: start_seats(columns, columns + rows),
            limits,
        }
    }
}
