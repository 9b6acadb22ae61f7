// Divisors that are tried, from above: a multiple of the divisor that divides all is the divisor. A column is a line of
// the array.
ghost use Rattle.std.specs.Prelude.{◌≡◌, ◌≢◌, ◌*◌, ◌<◌, pos, nat_abs};
ghost use Rattle.whole.specs.Numbers.{Within, AllWithin};
ghost use Rattle.divisor.specs.Signs.{signed_by};
ghost use Rattle.rules.specs.Sizes.{largest_number};
ghost use Rattle.pivot.specs.Border.{Bordered, in_border};

use crate::border::Border;
use crate::column::{Cells, Column};
use crate::guess;
use layout::MOST_ENTRIES;

// What trials come to: the divisor, a cell beyond the range, or nothing is settled.
#[derive(Drop)]
pub enum Settled {
    By(i32),
    Beyond,
    Open,
}

// The entries and the border of a pivot, whose divisor is looked for.
#[derive(Clone, Copy)]
pub struct Trials<'a> {
    pub entries: &'a [i32; MOST_ENTRIES],
    pub border: &'a Border,
    ghost within: { AllWithin entries.now largest_number },
    ghost bordered: { Bordered border.now },
}

impl<'a> Trials<'a> {
    ghost use Rattle.pivot.specs.Trials.{Spared, border_column, column_divisor, some_above, TriedAs, SettledAs};

    // The cells of a column place.
    fn column(self, j: usize) -> Cells<'a>
        requires { j < self.border.now.columns }
        ensures entries { result.entries.now ≡ self.entry.entries.now }
        ensures besides { result.besides.now ≡ self.entry.border.now.besides }
        ensures column { result.column ≡ border_column self.entry.border.now j }
    {
        let border = self.border;
        Cells {
            entries: self.entries,
            besides: &border.besides,
            column: Column {
                start: layout::line_at(border.rows, border.columns, j),
                rows: border.rows,
                pivot: border.pivot,
                above: border.aboves[j],
            },
        }
    }

    // The quotients of all columns by a divisor that is tried, or the first column place where one is wrong.
    fn over(self, by: i32, out: &mut [i32; MOST_ENTRIES]) -> Result<(), usize>
        ensures apart { Spared 0 (in_border self.entry.border.now) out.old out.new }
        ensures tells { TriedAs self.entry.entries.now self.entry.border.now by result out.new }
    {
        let divider = guess::divider_of(by);
        let columns = self.border.columns;
        for j in 0..columns {
            if !self.column(j).over(divider, out) {
                return Err(j);
            }
        }
        Ok(())
    }

    // What a column leaves of a divisor that was tried.
    fn lessened(self, j: usize, by: i32) -> i32
        requires { (j < self.border.now.columns) × (by ≢ pos 0) × Within by largest_number }
        ensures { result ≡ signed_by by
            (column_divisor self.entry.entries.now self.entry.border.now.besides
            (border_column self.entry.border.now j) self.entry.border.now.rows (nat_abs by)) }
    {
        let less = self.column(j).divisor(u64::from(by.unsigned_abs()));
        divisor::signed(by as i64, less) as i32
    }

    // Whether some quotient of a column by a divisor that was tried is beyond the range.
    fn is_beyond(self, j: usize, by: i32) -> bool
        requires { (j < self.border.now.columns) × Within by largest_number }
        ensures { result ≡ some_above self.entry.entries.now self.entry.border.now.besides
            (border_column self.entry.border.now j) self.entry.border.now.rows (nat_abs by * largest_number) }
    {
        let limit = u64::from(by.unsigned_abs()) * rules::LARGEST_NUMBER as u64;
        self.column(j).is_above(limit)
    }

    // The quotients by the greatest common divisor of a number and all cells, which is looked for from above. A column
    // with a wrong quotient that leaves the divisor as it is has a cell beyond the range, or nothing is settled.
    pub fn settle(self, from: i32, out: &mut [i32; MOST_ENTRIES]) -> Settled
        requires { (from ≢ pos 0) × Within from largest_number }
        ensures { SettledAs self.entry.entries.now self.entry.border.now from out.old result out.new }
    {
        let mut by = from;
        loop {
            let Err(j) = self.over(by, out) else {
                return Settled::By(by);
            };
            let less = self.lessened(j, by);
            if less == by {
                if self.is_beyond(j, by) {
                    return Settled::Beyond;
                }
                return Settled::Open;
            }
            by = less;
        }
    }
}
