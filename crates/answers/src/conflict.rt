// Crossed limits: some variable's lower limit exceeds its upper, by the pairs that they stand for.
ghost use Rattle.std.specs.Prelude.{◌≡◌, ◌≤◌};
ghost use Rattle.whole.specs.Values.{pairs};
ghost use Rattle.rules.specs.Sizes.{most_variables};
ghost use Rattle.rules.specs.Run.{crossed};
ghost use Rattle.sides.specs.Sides.{least_in, most_in};
ghost use Rattle.answers.specs.Conflict.{conflict_at};

use amounts::Given;
use tableau::{Limits, Variable};

// Whether both limits are present and the lower exceeds the upper.
pub fn is_crossed(lower: Given, upper: Given) -> bool
    ensures { result ≡ crossed pairs (least_in lower) (most_in upper) }
{
    let least = amounts::lower_value(lower);
    let most = amounts::upper_value(upper);
    lower.on & upper.on & (most < least)
}

// The lowest of the first variables whose limits cross, if there is one.
pub fn conflict_of(limits: Limits, variables: usize) -> Option<Variable>
    requires { variables ≤ most_variables }
    ensures { result ≡ conflict_at limits variables }
{
    for v in 0..variables {
        if is_crossed(limits.lower[v], limits.upper[v]) {
            return Some(Variable(v as u8));
        }
    }
    None
}
