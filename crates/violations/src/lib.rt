// The first violation, as a desk is shown it: docs/RULES.md, "The first violation". It is what the search for the next
// pivot finds; no pivot is made.
#![tactic(auto)]

ghost use Rattle.std.specs.Prelude.{◌≡◌, ◌<◌};
ghost use Rattle.rules.specs.Runs.Violation.{first_violation};
ghost use Rattle.rules.specs.Sizes.{most_rows};
ghost use Rattle.steps.specs.Step.{Held};
ghost use Rattle.session.specs.Sessions.{SessionStanding};
ghost use Rattle.violations.specs.Violations.{ShowsAs, nothing_at, shown_at, shown_as, violation_at};

use search::{Blocked, Next, View};
use session::Session;
use tableau::{Tableau, Variable};

// A refusal, or 0; whether a basic variable is outside its limits; and if so the lowest-numbered one, whether it has to
// rise, and its shortfall over the denominator: plain part and small part. Where none is, and refused, all else is 0.
#[repr(C)]
#[derive(Clone, Copy, Debug, Default, PartialEq, Eq)]
pub struct Violation {
    pub refused: u32,
    pub variable: u32,
    pub violated: bool,
    pub rises: bool,
    pub denominator: i64,
    pub shortfall: i64,
    pub small: i64,
}

fn nothing(refused: u32) -> Violation
    ensures { result ≡ nothing_at refused }
{
    Violation {
        refused,
        ..Violation::default()
    }
}

// The variable of a row that is outside, by the variables of all rows and the common number.
fn shown(basic: [Variable; Tableau::MOST_ROWS], common: i32, found: Blocked) -> Violation
    requires { found.row.0 < most_rows }
    ensures { result ≡ shown_at basic common found }
{
    let leaving = basic[found.row.0 as usize];
    Violation {
        refused: 0,
        variable: u32::from(leaving.0),
        violated: true,
        rises: found.rises,
        denominator: i64::from(common),
        shortfall: found.shortfall.plain,
        small: found.shortfall.small,
    }
}

// What the search finds in a tableau.
fn outside(t: &Tableau) -> Violation
    requires { Held t.now }
    ensures { result ≡ violation_at t.now }
{
    match search::next_step(&t.entries, View::of(t), t.limits) {
        Next::Within => nothing(0),
        Next::Stuck(blocked) => shown(t.basic, t.common, blocked),
        Next::Pivot(choice) => {
            let found = Blocked {
                row: choice.row,
                rises: choice.rises,
                shortfall: choice.shortfall,
            };
            shown(t.basic, t.common, found)
        }
    }
}

// Judges the words, and shows the first violation at the start of the problem that they are.
pub fn first(words: &[i32]) -> Violation
    ensures { result ≡ shown_as (first_violation words.now) }
{
    match judge::judge(words) {
        Ok(()) => outside(&Tableau::new(words)),
        Err(refusal) => nothing(refusal.number()),
    }
}

// Shows the first violation of a session as it stands.
pub fn standing(session: Session) -> Violation
    requires { SessionStanding session }
    ensures exact { result ≡ violation_at session.tableau }
    ensures meaning { ShowsAs session result }
{
    outside(&session.tableau)
}
