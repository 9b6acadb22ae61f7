// Limits as they were given, and the pairs of a plain part and a multiple of the small amount that they stand for:
// docs/RULES.md, "The run". Pairs are compared by their plain parts, and where these are equal by the small ones.
#![tactic(auto)]

ghost use Rattle.std.specs.Prelude.{◌≡◌};
ghost use Rattle.whole.specs.Values.{pairs};
ghost use Rattle.rules.specs.Limit.{inset};
ghost use Rattle.amounts.specs.Amounts.{amount_of, given_lower, given_upper, pair_in, put_inside, value_of};

// A limit as it was given: whether it was, whether it is on, whether it excludes its own number, and that number. Every
// answer is by the limits that are on. Of a missing limit no flag is set and the number is 0.
#[repr(C)]
#[derive(Clone, Copy, Debug, Default, PartialEq, Eq)]
pub struct Given {
    pub given: bool,
    pub on: bool,
    pub strict: bool,
    pub plain: i32,
}

// A value that a nonbasic variable may have: 0, or what a limit stands for. The order is that of the run: by the plain
// parts, and where these are equal by the small ones.
#[derive(Clone, Copy, Debug, Default, PartialEq, Eq, PartialOrd, Ord)]
pub struct Value {
    pub plain: i32,
    pub small: i32,
}

// A value, or D times it; in the same order.
#[derive(Clone, Copy, Debug, Default, PartialEq, Eq, PartialOrd, Ord)]
pub struct Amount {
    pub plain: i64,
    pub small: i64,
}

// How many small amounts inside its number a limit stands.
fn inset_of(strict: bool) -> i32
    ensures { result ≡ inset strict }
{
    i32::from(strict)
}

// What a lower limit stands for: where it is strict, one small amount above its number.
pub fn lower_value(limit: Given) -> Value
    ensures { result ≡ value_of (given_lower limit) }
{
    Value {
        plain: limit.plain,
        small: inset_of(limit.strict),
    }
}

// What an upper limit stands for: where it is strict, one small amount below its number.
pub fn upper_value(limit: Given) -> Value
    ensures { result ≡ value_of (given_upper limit) }
{
    Value {
        plain: limit.plain,
        small: -inset_of(limit.strict),
    }
}

// D times a value.
pub fn times(common: i32, value: Value) -> Amount
    ensures { result ≡ amount_of (pairs.scale common (pair_in value)) }
{
    Amount {
        plain: i64::from(common) * i64::from(value.plain),
        small: i64::from(common) * i64::from(value.small),
    }
}

// A value below its lower limit goes to what that stands for, else one above its upper limit to what that does.
pub fn put_inside(lower: Given, upper: Given, value: Value) -> Value
    ensures { result ≡ value_of (put_inside lower upper (pair_in value)) }
{
    let least = lower_value(lower);
    let most = upper_value(upper);
    if lower.on && value < least {
        return least;
    }
    if upper.on && most < value {
        return most;
    }
    value
}
