// A run with so many pivots to spend, and the answer where that reaches its end.
ghost use Rattle.std.specs.Prelude.{◌≡◌, ◌+◌, ◌*◌, ◌≤◌, length};
ghost use Rattle.rules.specs.Sizes.{most_variables};
ghost use Rattle.solver.specs.Spend.{Standing, crossed_since, out_as, spent_as};

use crate::run::{advance, tell};
use answers::conflict::conflict_of;
use answers::multipliers::unit;
use answers::{Head, Verdict, write};
use tableau::{Limits, Tableau, Variable};

/// No answer is longer.
pub const MOST_ANSWER: usize = 3 + 2 * Tableau::MOST_VARIABLES;

// How far a run came: whether it is over, so that there is an answer, all its pivots up to there, and the last
// completed tableau.
#[derive(Drop)]
pub struct Spent {
    pub answered: bool,
    pub count: usize,
    pub tableau: Tableau,
}

// The lowest variable whose limits cross. A run that is some pivots on has none.
fn crossed_since(limits: Limits, variables: usize, before: usize) -> Option<Variable>
    requires { variables ≤ most_variables }
    ensures { result ≡ crossed_since before limits variables }
{
    if before == 0 {
        conflict_of(limits, variables)
    } else {
        None
    }
}

// Completes `most` pivots of a run that is `before` pivots on, or all that are left, and then looks whether it goes on,
// if it is to: the last completed tableau and its count, and in `out` the answer where that is the run's whole count
// and the run is looked at there. Limits that cross are answered at once.
pub fn spend(mut t: Tableau, before: usize, most: usize, look: bool, out: &mut [i64]) -> Spent
    requires standing { Standing t before }
    requires columns_in_bounds { 3 + 2 * (t.rows + t.columns) ≤ length out.old }
    ensures state { result ≡ spent_as look t before most }
    ensures output { out.new ≡ out_as look t before most out.old }
{
    let variables = t.rows + t.columns;
    let crossed = crossed_since(t.limits, variables, before);
    if let Some(variable) = crossed {
        let ones = unit(variable);
        let head = Head {
            verdict: Verdict::Cannot,
            count: before,
            denominator: 0,
        };
        write(out, head, variables, &ones, &ones);
        return Spent {
            answered: true,
            count: before,
            tableau: t,
        };
    }
    let (end, made) = advance(&mut t, most, look);
    let count = before + made;
    let answered = match end {
        Some(end) => {
            tell(&t, end, count, out);
            true
        }
        None => false,
    };
    Spent {
        answered,
        count,
        tableau: t,
    }
}
