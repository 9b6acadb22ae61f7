// Where the entry of a row place and a column place lies in the flat array, and in which order the places follow there:
// line after line, and a line is a column. Callers give both sizes, whichever order needs them. Beside this file only
// the walk along a column in pivot knows it: the cells of a line lie side by side.
#![tactic(auto)]

ghost use Rattle.std.specs.Prelude.{◌≡◌, ◌+◌, ◌≤◌, ◌<◌};
ghost use Rattle.rules.specs.Sizes.{most_rows, most_columns};
ghost use Rattle.layout.specs.Layout.{OnLine, flat, line_at, spot_at, row_strip, column_strip};
ghost use Rattle.layout.specs.Layout as layout;

// How many cells the array of entries has.
pub const MOST_ENTRIES: usize = rules::MOST_CELLS;

// The two kinds of place: neither stands for the other.
#[repr(C)]
#[derive(Clone, Copy, PartialEq, Eq, PartialOrd, Ord, Debug)]
pub struct RowPlace(pub u8);

#[repr(C)]
#[derive(Clone, Copy, PartialEq, Eq, PartialOrd, Ord, Debug)]
pub struct ColumnPlace(pub u8);

// The row place and the column place of one entry.
#[derive(Clone, Copy, PartialEq, Eq, Debug)]
pub struct Spot {
    pub row: RowPlace,
    pub column: ColumnPlace,
}

// The flat place.
pub fn place(rows: usize, columns: usize, row: RowPlace, column: ColumnPlace) -> usize
    requires { (row.0 < rows) × (column.0 < columns) × (rows ≤ most_rows) × (columns ≤ most_columns) }
    ensures { result ≡ flat rows columns row.0 column.0 }
{
    column.0 as usize * rows + row.0 as usize
}

// How many lines there are: the columns.
pub fn lines(rows: usize, columns: usize) -> usize
    ensures { result ≡ layout.lines rows columns }
{
    columns
}

// How many steps each line has: the rows.
pub fn steps(rows: usize, columns: usize) -> usize
    ensures { result ≡ layout.steps rows columns }
{
    rows
}

// Where a line begins.
pub fn line_at(rows: usize, columns: usize, line: usize) -> usize
    requires { (rows ≤ most_rows) × (columns ≤ most_columns) × (line < layout.lines rows columns) }
    ensures { result ≡ line_at rows columns line }
{
    line * rows
}

// The spot of a step of a line.
pub fn spot_at(rows: usize, columns: usize, line: usize, step: usize) -> Spot
    requires { OnLine rows columns line step }
    ensures { result ≡ spot_at rows columns (line_at rows columns line + step) }
{
    Spot {
        row: RowPlace(step as u8),
        column: ColumnPlace(line as u8),
    }
}

// From here on no cell is in use.
pub fn live(rows: usize, columns: usize) -> usize
    requires { (rows ≤ most_rows) × (columns ≤ most_columns) }
    ensures { result ≡ layout.live rows columns }
{
    rows * columns
}

// The cells of a row or of a column: where the first lies, how far the next is from it, how many there are.
#[derive(Clone, Copy, PartialEq, Eq, Debug)]
pub struct Strip {
    pub start: usize,
    pub stride: usize,
    pub count: usize,
}

impl Strip {
    ghost use Rattle.layout.specs.Layout.{along, most_entries};

    // The flat place of one of its cells.
    pub fn place_of(self, i: usize) -> usize
        requires { along self i < most_entries }
        ensures { result ≡ along self i }
    {
        self.start + i * self.stride
    }
}

pub fn row_strip(rows: usize, columns: usize, row: RowPlace) -> Strip
    ensures { result ≡ row_strip rows columns row.0 }
{
    Strip {
        start: row.0 as usize,
        stride: rows,
        count: columns,
    }
}

pub fn column_strip(rows: usize, columns: usize, column: ColumnPlace) -> Strip
    requires { rows ≤ most_rows }
    ensures { result ≡ column_strip rows columns column.0 }
{
    Strip {
        start: column.0 as usize * rows,
        stride: 1,
        count: rows,
    }
}
