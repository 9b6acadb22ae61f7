// A pivot in the full width: all cells before reduction, their divisor, division, and the range test. It is right for
// any numbers, and slow.
ghost use Rattle.std.specs.Prelude.{◌≡◌, ◌+◌, ◌<◌};
ghost use Rattle.whole.specs.Numbers.{AllWithin};
ghost use Rattle.rules.specs.Sizes.{largest_number};
ghost use Rattle.layout.specs.Layout.{lines, line_at, live};
ghost use Rattle.pivot.specs.Pivot.{PutBy, pivoted_by};
ghost use Rattle.pivot.specs.Asked.{cell_for, cells_for, fits_for, common_for, entries_for};

use crate::turn::Turn;
use crate::{numbers, range};
use layout::{MOST_ENTRIES, Spot};

// The cell of a spot before reduction: its own entry, and what stands beside it in its row and the entering column and
// above it in its column and the leaving row.
fn mixed_at(turn: Turn, at: Spot) -> i64
    requires { (at.row.0 < turn.asked.rows) × (at.column.0 < turn.asked.columns) }
    ensures { result ≡ cell_for turn.entry.entries.now turn.entry.asked at.row.0 at.column.0 }
{
    let spot = turn.asked.spot;
    let common = turn.asked.common;
    let pivot = turn.pivot();
    let own = turn.entry_at(at.row, at.column);
    let beside = turn.entry_at(at.row, spot.column);
    let above = turn.entry_at(spot.row, at.column);
    match (at.row == spot.row, at.column == spot.column) {
        (true, true) => numbers::difference(common, common, 0, 0),
        (true, false) => numbers::difference(0, 0, common, above),
        (false, true) => numbers::difference(common, beside, 0, 0),
        (false, false) => numbers::difference(pivot, own, beside, above),
    }
}

// The cells of one line before reduction, where those of the lines before it are there.
fn mixed_line(out: &mut [i64; MOST_ENTRIES], turn: Turn, line: usize)
    requires line_bound { line < lines turn.asked.rows turn.asked.columns }
    requires out_value { out.old
        ≡ cells_for turn.entries.now turn.asked (line_at turn.asked.rows turn.asked.columns line) }
    ensures { out.new ≡ cells_for turn.entry.entries.now turn.entry.asked
        (line_at turn.entry.asked.rows turn.entry.asked.columns (line + 1)) }
{
    let asked = turn.asked;
    let steps = layout::steps(asked.rows, asked.columns);
    let start = layout::line_at(asked.rows, asked.columns, line);
    for step in 0..steps {
        let spot = layout::spot_at(asked.rows, asked.columns, line, step);
        let at = start + step;
        out[at] = mixed_at(turn, spot);
    }
}

// All live cells before reduction.
fn mixed_entries(turn: Turn) -> [i64; MOST_ENTRIES]
    ensures { result ≡ cells_for turn.entry.entries.now turn.entry.asked
        (live turn.entry.asked.rows turn.entry.asked.columns) }
{
    let lines = layout::lines(turn.asked.rows, turn.asked.columns);
    let mut out = [0i64; MOST_ENTRIES];
    for line in 0..lines {
        mixed_line(&mut out, turn, line);
    }
    out
}

// Cells that fit half the width.
fn halves_of(cells: &[i64; MOST_ENTRIES]) -> [i32; MOST_ENTRIES]
    requires { AllWithin cells.now largest_number }
    ensures { result ≡ cells.now }
{
    let mut halves = [0; MOST_ENTRIES];
    for (i, half) in halves.iter_mut().enumerate() {
        *half = cells[i] as i32;
    }
    halves
}

// The entries after a pivot, in lowest common form with the common number above 0, are put into `next`. The range is
// tested after the reduction; beyond it `next` stays.
pub fn pivot(turn: Turn, next: &mut [i32; MOST_ENTRIES]) -> Option<i32>
    ensures answer { result ≡ pivoted_by (fits_for turn.entry.entries.now turn.entry.asked)
        (common_for turn.entry.entries.now turn.entry.asked) }
    ensures numbers { PutBy (fits_for turn.entry.entries.now turn.entry.asked)
        (live turn.entry.asked.rows turn.entry.asked.columns)
        (entries_for turn.entry.entries.now turn.entry.asked) next.new }
{
    let end = layout::live(turn.asked.rows, turn.asked.columns);
    let product = turn.product();
    let mut cells = mixed_entries(turn);
    let live = &mut cells[..end];
    let by = divisor::signed(product, divisor::divisor_of(live, product));
    divisor::divide(live, by);
    let after = product / by;
    if !range::all_in_range(live, after) {
        return None;
    }
    *next = halves_of(&cells);
    Some(after as i32)
}
