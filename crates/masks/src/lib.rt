// Sets of variables as masks: docs/RULES.md, "Replaying a trace". Variable v stands at bit v, so 32 variables fit.
#![tactic(auto)]

ghost use Rattle.std.specs.Prelude.{◌≡◌, ◌+◌, ◌≤◌, ◌<◌, ◌^◌};
ghost use Rattle.rules.specs.Runs.Replay.{bit_at, bit_in};
ghost use Rattle.rules.specs.Sizes.{most_variables};
ghost use Rattle.masks.specs.Masks.{gone_from, seats_mask, went_from};

use tableau::{Seat, Tableau};

// The mask with variable v added, if it is in. No variable from v on is in yet.
fn with_bit(mask: u32, v: u32, is_in: bool) -> u32
    requires { (v < 32) × (mask < 2 ^ v) }
    ensures { result ≡ mask + bit_at v is_in }
{
    if is_in { mask | 1 << v } else { mask }
}

// The basic ones of the first variables.
pub fn mask_of(seats: [Seat; Tableau::MOST_VARIABLES], variables: usize) -> u32
    requires { variables ≤ most_variables }
    ensures { result ≡ seats_mask seats variables }
{
    let mut mask = 0;
    for v in 0..variables {
        mask = with_bit(mask, v as u32, seats[v].basic);
    }
    mask
}

// Whether variable v is in. A number that has no bit is not.
fn has(mask: u32, v: u32) -> bool
    ensures { result ≡ bit_in mask v }
{
    v < u32::BITS && (mask >> v) % 2 == 1
}

// Whether variable v is in the first set and not in the second.
pub fn went(from: u32, to: u32, v: u32) -> bool
    ensures { result ≡ went_from from to v }
{
    has(from, v) & !has(to, v)
}

// The lowest of the first variables that is in the first set and not in the second, or 0.
pub fn gone(from: u32, to: u32, variables: usize) -> u32
    requires { variables ≤ most_variables }
    ensures { result ≡ gone_from from to variables }
{
    for v in 0..variables as u32 {
        if went(from, to, v) {
            return v;
        }
    }
    0
}
