// The quick way: a first divisor from the border, and trials from there.
ghost use Rattle.std.specs.Prelude.{◌≡◌, ◌+◌, leb, nat_abs};
ghost use Rattle.whole.specs.Numbers.{Within};
ghost use Rattle.rules.specs.Sizes.{largest_number};
ghost use Rattle.pivot.specs.Trials.{EndsAs};

use crate::border;
use crate::settle::{Settled, Trials};
use crate::turn::Turn;
use layout::MOST_ENTRIES;

// Whether two sizes together are within the largest number.
fn are_near(a: i32, b: i32) -> bool
    requires { (Within a largest_number) × (Within b largest_number) }
    ensures { result ≡ leb (nat_abs a + nat_abs b) largest_number }
{
    u64::from(a.unsigned_abs()) + u64::from(b.unsigned_abs()) <= rules::LARGEST_NUMBER as u64
}

// The divisor and the quotients by it, or a cell is beyond the range, or nothing is settled. Every common divisor
// divides the common number times the border's divisor.
pub fn quick(turn: Turn, out: &mut [i32; MOST_ENTRIES]) -> Settled
    ensures { EndsAs turn.entry.entries.now turn.entry.asked result out.new }
{
    let common = turn.asked.common;
    if !are_near(turn.pivot(), common) {
        return Settled::Open;
    }
    let border = border::border_of(turn);
    let first = u64::from(common.unsigned_abs()) * border::border_divisor(&border, common);
    if first > rules::LARGEST_NUMBER as u64 {
        return Settled::Open;
    }
    let from = divisor::signed(turn.product(), first) as i32;
    Trials {
        entries: turn.entries,
        border: &border,
    }
    .settle(from, out)
}
