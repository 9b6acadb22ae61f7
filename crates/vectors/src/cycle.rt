// An answer of time rows that names a cycle. It may start at any of its rows, so they are printed by number.
ghost use Rattle.std.specs.Prelude.{◌≡◌, ◌+◌, ◌≤◌, T, length};
ghost use Rattle.vectors.specs.Listed.{is_told, rows_told, is_listed};

use crate::print;
use std::io;

const MOST_ROWS: i64 = 256;

// Whether the words are those of a cycle, where the time solver returned this number.
pub fn is_told(number: u32, out: &[i64]) -> bool
    ensures answer { result ≡ is_told number out.now }
    ensures long { T result → 2 ≤ length out.now }
{
    if number != 0 {
        return false;
    }
    if out.len() < 2 {
        return false;
    }
    out[0] == 2
}

// How many rows are listed.
fn rows_of(out: &[i64]) -> usize
    requires { 2 ≤ length out.now }
    ensures count { result ≡ rows_told out.now }
    ensures fit { 2 + result ≤ length out.now }
{
    let told = out[1];
    if told < 0 {
        return 0;
    }
    (told as usize).min(out.len() - 2)
}

// Whether a row is among those that are listed.
fn is_listed(out: &[i64], rows: usize, row: i64) -> bool
    requires { 2 + rows ≤ length out.now }
    ensures { result ≡ is_listed out.now rows row }
{
    for i in 0..rows {
        let listed = out[2 + i];
        if listed == row {
            return true;
        }
    }
    false
}

fn row(rt: &impl Print, out: &[i64], rows: usize, row: i64) -> io::Result<()>
    requires { 2 + rows ≤ length out.now }
{
    if is_listed(out, rows, row) {
        print::number(rt, row)?;
    }
    Ok(())
}

// The verdict, the count of rows, the rows by number, and what is behind them.
pub fn words(rt: &impl Print, out: &[i64]) -> io::Result<()>
    requires { 2 ≤ length out.now }
{
    let rows = rows_of(out);
    print::number(rt, out[0])?;
    print::number(rt, out[1])?;
    for i in 0..MOST_ROWS {
        row(rt, out, rows, i)?;
    }
    print::words(rt, &out[2 + rows..])
}
