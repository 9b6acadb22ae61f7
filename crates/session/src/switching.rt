// What opening and a switch make of a tableau: limits that are on or off, and values by the limits that are on.
ghost use Rattle.std.specs.Prelude.{◌≡◌, ◌<◌};
ghost use Rattle.whole.specs.Values.{pairs};
ghost use Rattle.rules.specs.Limit.{lower_pair, upper_pair};
ghost use Rattle.rules.specs.Problem.{mapped};
ghost use Rattle.rules.specs.Runs.Session.{inside};
ghost use Rattle.rules.specs.Sizes.{most_variables};
ghost use Rattle.refusals.specs.Numbers.{number_told};
ghost use Rattle.amounts.specs.Amounts.{limit_in, pair_in, value_of};
ghost use Rattle.session.specs.Switching.{Settleable, all_off, flagged_at, given_at, limit_refusal, quiet_at};
ghost use Rattle.session.specs.Switching.{settled_at, turned_at};

use amounts::{Given, Value};
use answers::conflict;
use refusals::Refusal;
use tableau::{Limits, Tableau, Variable};

// All limits of one side, off.
fn all_off(limits: [Given; Tableau::MOST_VARIABLES]) -> [Given; Tableau::MOST_VARIABLES]
    ensures { result ≡ all_off limits }
{
    let missing = Given {
        given: false,
        on: false,
        strict: false,
        plain: 0,
    };
    let mut off = [missing; Tableau::MOST_VARIABLES];
    for (v, limit) in off.iter_mut().enumerate() {
        *limit = limits[v];
        limit.on = false;
    }
    off
}

// The tableau with every limit off and every value 0.
pub fn quiet(mut tableau: Tableau) -> Tableau
    ensures { result ≡ quiet_at tableau }
{
    let limits = tableau.limits;
    let lower = all_off(limits.lower);
    let upper = all_off(limits.upper);
    tableau.values = [0; Tableau::MOST_COLUMNS];
    tableau.smalls = [0; Tableau::MOST_COLUMNS];
    tableau.limits = Limits {
        lower,
        upper,
        strict: limits.strict,
    };
    tableau
}

// The limit of a variable on one side.
pub fn limit_at(limits: Limits, upper: bool, variable: Variable) -> Given
    requires { variable.0 < most_variables }
    ensures { result ≡ given_at upper limits variable.0 }
{
    let v = variable.0 as usize;
    if upper {
        limits.upper[v]
    } else {
        limits.lower[v]
    }
}

// Whether a limit may be switched, or why not.
pub fn judge(limit: Given, on: bool) -> Result<(), Refusal>
    ensures { number_told result ≡ limit_refusal limit on }
{
    if !limit.given {
        return Err(Refusal::NoLimit);
    }
    if on & limit.on {
        return Err(Refusal::OnAlready);
    }
    if !on & !limit.on {
        return Err(Refusal::OffAlready);
    }
    Ok(())
}

// The limits with that one on or off.
fn flagged(mut limits: Limits, upper: bool, variable: Variable, on: bool) -> Limits
    requires { variable.0 < most_variables }
    ensures { result ≡ flagged_at upper limits variable.0 on }
{
    let limit = Given {
        on,
        ..limit_at(limits, upper, variable)
    };
    let v = variable.0 as usize;
    if upper {
        limits.upper[v] = limit;
        return limits;
    }
    limits.lower[v] = limit;
    limits
}

// A value outside one of two limits that do not conflict goes to that one.
fn moved(lower: Given, upper: Given, value: Value) -> Value
    ensures { result
        ≡ value_of (inside pairs (mapped lower_pair (limit_in lower)) (mapped upper_pair (limit_in upper))
        (pair_in value)) }
{
    if conflict::is_crossed(lower, upper) {
        value
    } else {
        amounts::put_inside(lower, upper, value)
    }
}

// The tableau with the value of one variable by the limits that are on. A basic one has no value of its own.
fn settled(mut tableau: Tableau, variable: Variable) -> Tableau
    requires { Settleable tableau variable.0 }
    ensures { result ≡ settled_at tableau variable.0 }
{
    let v = variable.0 as usize;
    let seat = tableau.seats[v];
    if seat.basic {
        return tableau;
    }
    let j = seat.column.0 as usize;
    let limits = tableau.limits;
    let value = Value {
        plain: tableau.values[j],
        small: tableau.smalls[j],
    };
    let value = moved(limits.lower[v], limits.upper[v], value);
    tableau.values[j] = value.plain;
    tableau.smalls[j] = value.small;
    tableau
}

// The tableau after a switch that is not refused.
pub fn turned(mut tableau: Tableau, variable: Variable, upper: bool, on: bool) -> Tableau
    requires { Settleable tableau variable.0 }
    ensures { result ≡ turned_at tableau variable.0 upper on }
{
    tableau.limits = flagged(tableau.limits, upper, variable, on);
    settled(tableau, variable)
}
