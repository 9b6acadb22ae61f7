// The totals of a sheet, by value: of no body, and what one body more makes of them, by its answer or its refusal.
#![tactic(auto)]

ghost use Rattle.std.specs.Prelude.{◌≡◌, ◌+◌, ◌<◌, ◌≤◌, length};
ghost use Rattle.rules.specs.Sizes.{most_variables};
ghost use Rattle.tally.specs.Counting.{Countable, Few, Auditable, counted_at, leader_of, naming_of, no_totals};
ghost use Rattle.tally.specs.Counting.{refused_at, tallied_at};

// So many refusals have a number of their own, 0 to 10.
pub const REFUSALS: usize = 11;

// What the sheet tells: counts of bodies, of each refusal by its number, the pivots, the body that reached the largest
// number of them if any has a verdict, and how often the limits of each variable were named.
#[derive(Clone, Copy, Debug, PartialEq, Eq)]
pub struct Totals {
    pub bodies: u64,
    pub can: u64,
    pub cannot: u64,
    pub range: u64,
    pub refused: [u64; REFUSALS],
    pub pivots: u64,
    pub largest: u64,
    pub reached: Option<usize>,
    pub lower: [u64; rules::MOST_VARIABLES],
    pub upper: [u64; rules::MOST_VARIABLES],
}

// Of no body.
#[tactic(auto, unfolding(crate::specs::Counting::no_totals))]
pub fn nothing() -> Totals
    ensures { result ≡ no_totals }
{
    Totals {
        bodies: 0,
        can: 0,
        cannot: 0,
        range: 0,
        refused: [0; REFUSALS],
        pivots: 0,
        largest: 0,
        reached: None,
        lower: [0; rules::MOST_VARIABLES],
        upper: [0; rules::MOST_VARIABLES],
    }
}

// Who has the most pivots after one verdict more: a tie leaves it with the body before.
#[tactic(auto, unfolding(crate::specs::Counting::leader_of))]
fn leader(reached: Option<usize>, largest: u64, pivots: u64, body: usize) -> Option<usize>
    ensures { result ≡ leader_of reached largest pivots body }
{
    match reached {
        Some(before) if pivots <= largest => Some(before),
        _ => Some(body),
    }
}

// How many variables may be named: all in a "cannot", none else.
#[tactic(auto, unfolding(crate::specs::Counting::naming_of))]
fn naming(verdict: i64, variables: usize) -> usize
    ensures { result ≡ naming_of verdict variables }
{
    if verdict == 2 { variables } else { 0 }
}

// One more for each variable whose multiplier, from a place of the answer on, is not 0.
fn tallied(
    mut counts: [u64; rules::MOST_VARIABLES],
    answer: &[i64],
    at: usize,
    variables: usize,
) -> [u64; rules::MOST_VARIABLES]
    requires { (variables ≤ most_variables) × (at + variables ≤ length answer.now) × Few most_variables counts }
    ensures { result ≡ tallied_at counts answer.now at variables }
{
    for v in 0..variables {
        counts[v] += u64::from(answer[at + v] != 0);
    }
    counts
}

// A body that is refused.
#[tactic(auto, unfolding(crate::specs::Counting::refused_at))]
pub fn refused(mut totals: Totals, number: u32) -> Totals
    requires { Countable totals × (number < 11) }
    ensures { result ≡ refused_at totals number }
{
    totals.refused[number as usize] += 1;
    totals.bodies += 1;
    totals
}

// A body that has an answer of so many variables.
pub fn counted(totals: Totals, answer: &[i64], variables: usize, body: usize) -> Totals
    requires { Countable totals × Auditable answer.now variables }
    ensures { result ≡ counted_at totals answer.now variables body }
{
    let verdict = answer[0];
    let pivots = answer[1] as u64;
    let named = naming(verdict, variables);
    let refused = totals.refused;
    let lower = totals.lower;
    let upper = totals.upper;
    let lower = tallied(lower, answer, 3, named);
    let upper = tallied(upper, answer, 3 + variables, named);
    Totals {
        bodies: totals.bodies + 1,
        can: totals.can + u64::from(verdict == 1),
        cannot: totals.cannot + u64::from(verdict == 2),
        range: totals.range + u64::from(verdict == 3),
        refused,
        pivots: totals.pivots + pivots,
        largest: totals.largest.max(pivots),
        reached: leader(totals.reached, totals.largest, pivots, body),
        lower,
        upper,
    }
}
