// Values against limits that may be missing: which side a variable is outside on, and which way one can move. A limit
// stands for a pair, and so does a value.
#![tactic(auto)]

ghost use Rattle.std.specs.Prelude.{◌≡◌, ◌*ℤ◌};
ghost use Rattle.whole.specs.Numbers.{Within};
ghost use Rattle.whole.specs.Values.{pairs};
ghost use Rattle.rules.specs.Sizes.{largest_number, largest_limit};
ghost use Rattle.rules.specs.Step as step;
ghost use Rattle.rules.specs.Step.{may_rise, may_fall};
ghost use Rattle.amounts.specs.Amounts.{amount_of, pair_in, pair_of};
ghost use Rattle.sides.specs.Sides.{Modest, least_in, most_in, breach_of, suits_of};

use amounts::{Amount, Given, Value};

// By which limit a variable is outside: whether it must rise to come inside, that is, whether it is below its lower
// limit and not above its upper one; and how far D times its value is from D times that limit, which is above 0.
#[derive(Clone, Copy, Debug, PartialEq, Eq)]
pub struct Breach {
    pub rises: bool,
    pub shortfall: Amount,
}

// The two limits of one variable.
#[derive(Clone, Copy, Debug, Default, PartialEq, Eq)]
pub struct LimitPair {
    pub lower: Given,
    pub upper: Given,
}

// The product of two numbers of 32 bits, which 64 bits hold.
pub fn product(a: i32, b: i32) -> i64
    ensures { result ≡ a *ℤ b }
{
    i64::from(a) * i64::from(b)
}

// One amount less another, part by part.
fn gap(a: Amount, b: Amount) -> Amount
    requires { (Modest (pair_of a)) × (Modest (pair_of b)) }
    ensures { result ≡ amount_of (step.gap pairs (pair_of a) (pair_of b)) }
{
    Amount {
        plain: a.plain - b.plain,
        small: a.small - b.small,
    }
}

// By which limit a value is outside, and by how much, if it is.
pub fn breach_of(common: i32, value: Amount, limits: LimitPair) -> Option<Breach>
    requires within { (Within common largest_number)
        × (Within limits.lower.plain largest_limit) × (Within limits.upper.plain largest_limit) }
    requires modest { Modest (pair_of value) }
    ensures { result ≡ breach_of common (pair_of value) limits }
{
    let least = amounts::times(common, amounts::lower_value(limits.lower));
    let most = amounts::times(common, amounts::upper_value(limits.upper));
    // Kept: both limits are tested before the one branch, which is seldom taken; a branch for each is slower
    let low = limits.lower.on & (value < least);
    let high = limits.upper.on & (most < value);
    if !(low | high) {
        return None;
    }
    if low {
        Some(Breach {
            rises: true,
            shortfall: gap(least, value),
        })
    } else {
        Some(Breach {
            rises: false,
            shortfall: gap(value, most),
        })
    }
}

// A nonbasic variable may increase, and may decrease.
fn may_rise(value: Value, limit: Given) -> bool
    ensures { result ≡ may_rise pairs (pair_in value) (most_in limit) }
{
    !limit.on | (value < amounts::upper_value(limit))
}

fn may_fall(value: Value, limit: Given) -> bool
    ensures { result ≡ may_fall pairs (pair_in value) (least_in limit) }
{
    !limit.on | (amounts::lower_value(limit) < value)
}

// Whether a nonbasic variable can move the right way, by its entry in the row of the variable that must rise or fall.
pub fn suits(rises: bool, entry: i32, value: Value, limits: LimitPair) -> bool
    ensures { result ≡ suits_of rises entry (pair_in value) limits }
{
    // Kept: the search of a pivot asks this of each nonbasic variable, and `&` and `|` take no branch
    let falls = (entry < 0) == rises;
    let down = falls & may_fall(value, limits.lower);
    let up = !falls & may_rise(value, limits.upper);
    (entry != 0) & (down | up)
}
