// What a pivot reads beside the entries: the entering column with D added where it crosses the leaving row, and that
// row with D taken off there. Then every cell is p a - b c, whatever its kind:
//   another row and column   p a - b c
//   the leaving row          p c - (p + D) c = -D c
//   the entering column      p b - b (p - D) = b D
//   the pivot                p p - (p + D) (p - D) = D D
ghost use Rattle.std.specs.Prelude.{◌≡◌, true, ◌+◌, ◌≤◌, pos, nat_abs, ◌+ℤ◌, length};
ghost use Rattle.whole.specs.Numbers.{Within};
ghost use Rattle.divisor.specs.Cells.{divisor_below};
ghost use Rattle.rules.specs.Sizes.{most_rows, most_columns, largest_number};
ghost use Rattle.pivot.specs.Asked.{pivot_for};
ghost use Rattle.pivot.specs.Border.{raised_by, raised_strip, Bears, border_for, border_divisor};

use crate::turn::Turn;
use layout::{MOST_ENTRIES, Strip};

#[derive(Clone, Copy)]
pub struct Border {
    pub rows: usize,
    pub columns: usize,
    pub pivot: i32,
    pub besides: [i32; rules::MOST_ROWS],
    pub aboves: [i32; rules::MOST_ROWS],
}

fn raised(here: bool, a: i32, extra: i32) -> i32
    requires { here ≡ true → Within (a +ℤ extra) largest_number }
    ensures { result ≡ raised_by here a extra }
{
    if here { a + extra } else { a }
}

// A row or a column of the entries, with a number added at one place of it.
fn raised_strip(
    entries: &[i32; MOST_ENTRIES],
    strip: Strip,
    at: usize,
    extra: i32,
) -> [i32; rules::MOST_ROWS]
    requires { Bears entries.now strip at extra }
    ensures { result ≡ raised_strip entries.now strip at extra }
{
    let mut numbers = [0i32; rules::MOST_ROWS];
    for i in 0..strip.count {
        numbers[i] = raised(i == at, entries[strip.place_of(i)], extra);
    }
    numbers
}

// The border of a pivot whose size and the common number's are together within the largest number.
pub fn border_of(turn: Turn) -> Border
    requires { nat_abs (pivot_for turn.entries.now turn.asked) + nat_abs turn.asked.common ≤ largest_number }
    ensures { result ≡ border_for turn.entry.entries.now turn.entry.asked }
{
    let asked = turn.asked;
    let row = asked.spot.row;
    let column = asked.spot.column;
    let down = layout::column_strip(asked.rows, asked.columns, column);
    let across = layout::row_strip(asked.rows, asked.columns, row);
    Border {
        rows: asked.rows,
        columns: asked.columns,
        pivot: turn.pivot(),
        besides: raised_strip(turn.entries, down, row.0 as usize, asked.common),
        aboves: raised_strip(turn.entries, across, column.0 as usize, -asked.common),
    }
}

// The greatest common divisor of a number and others. Once it is 1 it stays 1.
fn part_of(numbers: &[i32], start: u64) -> u64
    ensures { result ≡ divisor_below (length numbers.now) numbers.now (pos start) }
{
    let mut g = start;
    for &number in numbers {
        if g == 1 {
            return 1;
        }
        g = divisor::common_of(u64::from(number.unsigned_abs()), g);
    }
    g
}

// The greatest common divisor of the pivot, the common number and the border.
pub fn border_divisor(border: &Border, common: i32) -> u64
    requires { (border.now.rows ≤ most_rows) × (border.now.columns ≤ most_columns) }
    ensures { result ≡ border_divisor border.now common }
{
    let both = divisor::common_of(
        u64::from(border.pivot.unsigned_abs()),
        u64::from(common.unsigned_abs()),
    );
    let above = part_of(&border.aboves[..border.columns], both);
    part_of(&border.besides[..border.rows], above)
}
