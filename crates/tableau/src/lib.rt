// The tableau by place. A row is an equation: `common`, the rules' D, times the row's basic variable is the sum of the
// row's entries, each times its column's nonbasic variable. All of these numbers are whole.
#![tactic(auto)]

use amounts::Given;
use layout::{ColumnPlace, RowPlace};

// A variable's number. No place stands for it.
#[repr(C)]
#[derive(Clone, Copy, Debug, PartialEq, Eq, PartialOrd, Ord)]
pub struct Variable(pub u8);

// Where a variable sits: in a row where it is basic, in a column where it is not.
#[repr(C)]
#[derive(Clone, Copy, Debug, PartialEq, Eq)]
pub struct Seat {
    pub basic: bool,
    pub row: RowPlace,
    pub column: ColumnPlace,
}

// The limits of every variable, and whether some limit is strict.
#[repr(C)]
#[derive(Clone, Copy, Debug, PartialEq, Eq)]
pub struct Limits {
    pub lower: [Given; Tableau::MOST_VARIABLES],
    pub upper: [Given; Tableau::MOST_VARIABLES],
    pub strict: bool,
}

// The entries lie flat, as the crate layout says; a cell that is not in use is 0. The value of a nonbasic
// variable has a plain part in `values` and a multiple of the small amount in `smalls`.
#[repr(C)]
#[derive(Clone, Copy, Debug, PartialEq, Eq)]
pub struct Tableau {
    pub rows: usize,
    pub columns: usize,
    pub common: i32,
    pub entries: [i32; Tableau::MOST_ENTRIES],
    pub basic: [Variable; Tableau::MOST_ROWS],
    pub nonbasic: [Variable; Tableau::MOST_COLUMNS],
    pub values: [i32; Tableau::MOST_COLUMNS],
    pub smalls: [i32; Tableau::MOST_COLUMNS],
    pub seats: [Seat; Tableau::MOST_VARIABLES],
    pub limits: Limits,
}

impl Tableau {
    pub const MOST_COLUMNS: usize = rules::MOST_COLUMNS;

    pub const MOST_ROWS: usize = rules::MOST_ROWS;

    pub const MOST_VARIABLES: usize = rules::MOST_VARIABLES;

    pub const MOST_ENTRIES: usize = layout::MOST_ENTRIES;

    pub const LARGEST_NUMBER: i64 = rules::LARGEST_NUMBER;

    // Of evidence: a numerator, and its small part.
    pub const LARGEST_NUMERATOR: i64 = 515396075280000;

    pub const LARGEST_SMALL: i64 = 17179869176;
}

mod read;
