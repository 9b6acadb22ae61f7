// The sizes and ranges of docs/RULES.md that code asks for; specs/Sizes.antt has the same numbers for promises and
// laws.
#![tactic(auto)]

pub const MOST_COLUMNS: usize = 8;

pub const MOST_ROWS: usize = 24;

pub const MOST_VARIABLES: usize = MOST_COLUMNS + MOST_ROWS;

// The coefficients of a problem, and the entries of a tableau.
pub const MOST_CELLS: usize = MOST_ROWS * MOST_COLUMNS;

// The words of a problem: n and m, the rows, and three for each variable.
pub const MOST_WORDS: usize = 2 + MOST_CELLS + 3 * MOST_VARIABLES;

// The words of an answer: three, and two for each variable.
pub const MOST_ANSWER: usize = 3 + 2 * MOST_VARIABLES;

pub const LARGEST_COEFFICIENT: i32 = 1000;

pub const LARGEST_LIMIT: i32 = 30000;

pub const LARGEST_NUMBER: i64 = 2147483647;

// The words of a day's file.
pub const MOST_FILE_WORDS: usize = 16384;

// Of edition 1: bodies of a file, and rows of a body.
pub const FIRST_BODIES: usize = 64;

pub const FIRST_ROWS: usize = 16;

// Of edition 2: bodies of a file; theirs have the rows of any problem.
pub const SECOND_BODIES: usize = 48;

// Bodies, in any edition.
pub const MOST_BODIES: usize = FIRST_BODIES;
