// One column: its cells before reduction, their quotients by a divisor that is tried, and their common divisor.
ghost use Rattle.std.specs.Prelude.{◌≡◌, true, ℕ, ◌+◌, ◌<◌, nat_abs, pos, get_or};
ghost use Rattle.pivot.specs.Trials.{Quotient, difference_in, Columned, Spared, column_divisor, some_above};

use crate::guess::Divider;
use crate::{guess, numbers};
use layout::MOST_ENTRIES;

// A column of the entries: where it starts and how many cells it has, the pivot, and what stands in the leaving row.
#[derive(Clone, Copy)]
pub struct Column {
    pub start: usize,
    pub rows: usize,
    pub pivot: i32,
    pub above: i32,
}

// The cells of a column before reduction, which are made of the entries and of what stands beside them.
#[derive(Clone, Copy)]
pub struct Cells<'a> {
    pub entries: &'a [i32; MOST_ENTRIES],
    pub besides: &'a [i32; rules::MOST_ROWS],
    pub column: Column,
    ghost columned: { Columned entries.now besides.now column },
}

// Whether a quotient, multiplied back, is the number.
fn is_quotient(q: i32, by: i32, raw: i64) -> bool
    ensures { result ≡ true → Quotient by raw q }
{
    q as i64 * by as i64 == raw
}

impl Cells<'_> {
    // The cell of a row place.
    fn at(self, i: usize) -> i64
        requires { i < self.column.rows }
        ensures { result ≡ difference_in self.entry.entries.now self.entry.besides.now self.entry.column i }
    {
        let own = self.entries[self.column.start + i];
        let beside = self.besides[i];
        numbers::difference(self.column.pivot, own, beside, self.column.above)
    }

    // .. and its size.
    fn size_at(self, i: usize) -> u64
        requires { i < self.column.rows }
        ensures { result
            ≡ nat_abs (difference_in self.entry.entries.now self.entry.besides.now self.entry.column i) }
    {
        self.at(i).unsigned_abs()
    }

    // Their quotients are written to the column's place, and whether all are right is told.
    // Kept: no `all`, which would stop at the first; every cell is taken, so that several are at a time.
    pub fn over(self, divider: Divider, out: &mut [i32; MOST_ENTRIES]) -> bool
        ensures apart { Spared self.entry.column.start self.entry.column.rows out.old out.new }
        ensures right { result ≡ true → (i : ℕ) → i < self.entry.column.rows
            → Quotient divider.by (difference_in self.entry.entries.now self.entry.besides.now self.entry.column i)
            (get_or out.new (self.entry.column.start + i) (pos 0)) }
    {
        let rows = self.column.rows;
        let mut right = true;
        for i in 0..rows {
            let raw = self.at(i);
            let q = guess::guess(raw, divider);
            out[self.column.start + i] = q;
            right &= is_quotient(q, divider.by, raw);
        }
        right
    }

    // The greatest common divisor of a number and the cells. Once it is 1 it stays 1.
    pub fn divisor(self, by: u64) -> u64
        ensures { result ≡ column_divisor self.entry.entries.now self.entry.besides.now self.entry.column
            self.entry.column.rows by }
    {
        let rows = self.column.rows;
        let mut g = by;
        for i in 0..rows {
            if g == 1 {
                return 1;
            }
            g = divisor::common_of(self.size_at(i), g);
        }
        g
    }

    // Whether the size of some cell is above a limit.
    pub fn is_above(self, limit: u64) -> bool
        ensures { result ≡ some_above self.entry.entries.now self.entry.besides.now self.entry.column
            self.entry.column.rows limit }
    {
        let rows = self.column.rows;
        for i in 0..rows {
            if self.size_at(i) > limit {
                return true;
            }
        }
        false
    }
}
