// Declarations: how many columns and rows there are.
ghost use Rattle.std.specs.Prelude.{◌&&◌, true, ◌∷◌, ◌≡◌, ◌+◌, suc, eqb, ltb, Ok, IfOk, MatchResult};
ghost use Rattle.rules.specs.Sizes.{most_columns, most_rows};
ghost use Rattle.rules.specs.Program.Text.{digits};
ghost use Rattle.rules.specs.Exchange.Script.{column_name, of_real};
ghost use Rattle.rules.specs.Exchange.Tokens.{token_bytes};
ghost use Rattle.reader.specs.Course.{DeclaredAt, Refused, SizedAt};
ghost use Rattle.reader.specs.Flow.{StandsAt, declare_token, followed_on, next_is, skip_if};

use crate::flow::{is_next, is_next_name, pass_name};
use crate::texts::DECLARE;
use exchange::texts::{DECLARE_CONST, OF_REAL, SET_LOGIC};
use tokens::Halted;

// How many columns and rows there are.
#[derive(Clone, Copy, Debug, PartialEq, Eq)]
pub struct Counts {
    pub columns: usize,
    pub rows: usize,
}

// How many columns and rows are declared, and the place behind that.
#[derive(Clone, Copy, Debug, PartialEq, Eq)]
pub struct Shape {
    pub counts: Counts,
    pub at: usize,
}

// Whether another declaration stands there.
#[tactic(auto, unfolding(crate::specs::Flow::declare_token, rules::specs::Program::Text::ascii))]
fn is_declaration(text: &[u8], shape: Shape) -> bool
    ensures { result ≡ (next_is text.now (Ok shape.at) declare_token && ltb shape.counts.rows most_rows) }
{
    is_next(text, shape.at, &DECLARE) && shape.counts.rows < rules::MOST_ROWS
}

// Whether a column is declared, and not a row.
#[tactic(auto, unfolding(rules::specs::Exchange::Script::column_name, rules::specs::Program::Text::ascii))]
fn is_column(text: &[u8], at: usize, counts: Counts) -> bool
    ensures { result ≡ (eqb counts.rows 0 && ltb counts.columns most_columns
        && next_is text.now (Ok at) (column_name counts.columns)) }
{
    counts.rows == 0
        && counts.columns < rules::MOST_COLUMNS
        && is_next_name(text, at, b'x', counts.columns)
}

// A name and its sort, up to the next parenthesis that opens.
fn named_real(text: &[u8], at: usize, letter: u8, number: usize) -> Result<usize, Halted>
    requires { StandsAt text.now (Ok at) }
    ensures { result ≡ followed_on text.now
        (skip_if text.now (Ok at) (next_is text.now (Ok at) (letter ∷ digits number)))
        (token_bytes of_real) }
{
    let named = pass_name(text, at, letter, number)?;
    tokens::follow(text, named, &OF_REAL)
}

// One declaration.
fn declaration(text: &[u8], shape: Shape) -> Result<Shape, Halted>
    requires { DeclaredAt text.now shape.counts.columns shape.counts.rows (Ok shape.at)
        × ((next_is text.now (Ok shape.at) declare_token && ltb shape.counts.rows most_rows) ≡ true) }
    ensures declared { MatchResult result (λ s. DeclaredAt text.now s.counts.columns s.counts.rows (Ok s.at))
        (Refused text.now) }
    ensures more { IfOk result (λ s. s.counts.columns + s.counts.rows
        ≡ suc (shape.counts.columns + shape.counts.rows)) }
{
    let Counts { columns, rows } = shape.counts;
    let opened = tokens::follow(text, shape.at, &DECLARE_CONST)?;
    if is_column(text, opened, shape.counts) {
        let at = named_real(text, opened, b'x', columns)?;
        let counts = Counts {
            columns: columns + 1,
            rows,
        };
        return Ok(Shape { counts, at });
    }
    let at = named_real(text, opened, b'r', rows)?;
    let counts = Counts {
        columns,
        rows: rows + 1,
    };
    Ok(Shape { counts, at })
}

// All declarations, behind that of the first column.
fn declarations(text: &[u8], at: usize) -> Result<Shape, Halted>
    requires { DeclaredAt text.now 1 0 (Ok at) }
    ensures { MatchResult result (λ s. SizedAt text.now s.counts.columns s.counts.rows (Ok s.at)) (Refused text.now) }
{
    let counts = Counts {
        columns: 1,
        rows: 0,
    };
    let mut shape = Shape { counts, at };
    while is_declaration(text, shape) {
        shape = declaration(text, shape)?;
    }
    Ok(shape)
}

// The text up to its first row or limit, or its end.
pub fn sizes(text: &[u8]) -> Result<Shape, Halted>
    ensures { MatchResult result (λ s. SizedAt text.now s.counts.columns s.counts.rows (Ok s.at)) (Refused text.now) }
{
    let logic = tokens::follow(text, tokens::start(text, 0), &SET_LOGIC)?;
    let opened = tokens::follow(text, logic, &DECLARE_CONST)?;
    let at = named_real(text, opened, b'x', 0)?;
    declarations(text, at)
}
