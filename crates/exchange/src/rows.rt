// Declarations and rows, put where a writer stands.
ghost use Rattle.std.specs.Prelude.{◌<◌};
ghost use Rattle.rules.specs.Program.Text.{lines_below};
ghost use Rattle.rules.specs.Exchange.Script.{declaration, row_text, term};
ghost use Rattle.judge.specs.Words.{Framed};
ghost use Rattle.put.specs.Put.{Put, Room};
ghost use Rattle.exchange.specs.Pieces.{row_piece, sum_piece, terms_piece};

use crate::names::{Name, put_name, put_value};
use crate::texts::{ASSERT_ROW, DECLARE_CONST, END_ASSERT, OF_REAL, OPEN_SUM, OPEN_TERM};
use put::Writer;

// A variable is declared.
fn put_declaration(out: &mut Writer, columns: usize, variable: usize)
    requires { Room out.old (declaration columns variable) }
    ensures { Put out.old (declaration columns variable) out.new }
{
    let name = Name::of(columns, variable);
    out.text(&DECLARE_CONST);
    put_name(out, name);
    out.text(&OF_REAL);
}

// Every variable is.
pub fn put_declarations(out: &mut Writer, columns: usize, variables: usize)
    requires { Room out.old (lines_below variables (declaration columns)) }
    ensures { Put out.old (lines_below variables (declaration columns)) out.new }
{
    for variable in 0..variables {
        put_declaration(out, columns, variable);
    }
}

// A coefficient and the name of its column.
fn put_term(out: &mut Writer, coefficient: i32, column: usize)
    requires { Room out.old (term coefficient column) }
    ensures { Put out.old (term coefficient column) out.new }
{
    out.text(&OPEN_TERM);
    put_value(out, coefficient);
    out.byte(b' ');
    put_name(out, Name::Column(column));
    out.byte(b')');
}

// The terms of a row, from its coefficients.
fn put_terms(out: &mut Writer, coefficients: &[i32])
    requires { Room out.old (terms_piece coefficients.now) }
    ensures { Put out.old (terms_piece coefficients.now) out.new }
{
    for (column, coefficient) in coefficients.iter().enumerate() {
        put_term(out, *coefficient, column);
    }
}

// Their sum: one term stands alone.
fn put_sum(out: &mut Writer, coefficients: &[i32])
    requires { Room out.old (sum_piece coefficients.now) }
    ensures { Put out.old (sum_piece coefficients.now) out.new }
{
    if coefficients.len() == 1 {
        return put_terms(out, coefficients);
    }
    out.text(&OPEN_SUM);
    put_terms(out, coefficients);
    out.byte(b')');
}

// A row is its sum.
fn put_row(out: &mut Writer, row: usize, coefficients: &[i32])
    requires { Room out.old (row_piece row coefficients.now) }
    ensures { Put out.old (row_piece row coefficients.now) out.new }
{
    out.text(&ASSERT_ROW);
    put_name(out, Name::Row(row));
    put_sum(out, coefficients);
    out.text(&END_ASSERT);
}

// Every row is.
pub fn put_rows(out: &mut Writer, words: &[i32], columns: usize, rows: usize)
    requires framed { Framed words.now columns rows }
    requires some_columns { 0 < columns }
    requires room { Room out.old (lines_below rows (row_text words.now)) }
    ensures { Put out.old (lines_below rows (row_text words.now)) out.new }
{
    let all = &words[2..2 + rows * columns];
    for (row, coefficients) in all.chunks_exact(columns).enumerate() {
        put_row(out, row, coefficients);
    }
}
