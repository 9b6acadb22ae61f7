// One pivot over lent entries: a row is solved for the variable of a column, which is put into every other row, and all
// is reduced. x leaves and w enters; p is the pivot, D the common number; another row has the entry b at w and a at u,
// the leaving row c at u:
//   D x = .. + p w + c u ..     the leaving row, solved for w: p w = D x - c u ..
//   D y = .. + b w + a u ..     another row, times p: D p y = b D x + (p a - b c) u ..
// The quotients are guessed and multiplied back, and their range is tested once they are right; where that settles
// nothing, the numbers are divided in the full width.
// The entries lie flat, as the crate layout says; a cell that is not in use is 0.
#![tactic(auto)]

ghost use Rattle.std.specs.Prelude.{◌≡◌, ◌≤◌, length};
ghost use Rattle.layout.specs.Layout.{live, most_entries};
ghost use Rattle.pivot.specs.Pivot.{PutBy, kept_cells, pivoted_by};
ghost use Rattle.pivot.specs.Asked.{Able, common_for, entries_for, fits_for};

use asked::Asked;
use layout::MOST_ENTRIES;
use settle::Settled;
use turn::Turn;

pub mod asked;
mod border;
mod column;
mod guess;
mod numbers;
mod quick;
mod range;
mod settle;
mod turn;
mod wide;

// The entries after a pivot, in lowest common form with the common number above 0, are put into `next`, and the new
// common number is handed back. The range is tested after the reduction: there is none where a number is beyond it, and
// nothing is said of `next` then. Nor is anything said of cells that are not in use.
pub fn pivot(
    entries: &[i32; MOST_ENTRIES],
    asked: Asked,
    next: &mut [i32; MOST_ENTRIES],
) -> Option<i32>
    requires able { Able entries.now asked }
    requires next_len { length next.old ≡ most_entries }
    ensures answer { result
        ≡ pivoted_by (fits_for entries.now asked) (common_for entries.now asked) }
    ensures numbers { PutBy (fits_for entries.now asked) (live asked.rows asked.columns)
        (entries_for entries.now asked) next.new }
{
    let turn = Turn { entries, asked };
    match quick::quick(turn, next) {
        Settled::By(by) => {
            let live = layout::live(asked.rows, asked.columns);
            let after = turn.product() / by as i64;
            if range::halves_in_range(&next[..live]) && after <= rules::LARGEST_NUMBER {
                return Some(after as i32);
            }
            None
        }
        Settled::Beyond => None,
        Settled::Open => wide::pivot(turn, next),
    }
}

// The live cells of `next` are kept as entries; the others stay.
pub fn keep(next: &[i32; MOST_ENTRIES], live: usize, entries: &mut [i32; MOST_ENTRIES])
    requires { (live ≤ most_entries) × (length entries.old ≡ most_entries) }
    ensures { entries.new ≡ kept_cells live next.now entries.old }
{
    entries[..live].copy_from_slice(&next[..live]);
}
