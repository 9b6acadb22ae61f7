// A run, step by step, and the answer at its end.
ghost use Rattle.std.specs.Prelude.{◌≡◌, ◌+◌, ◌*◌, ◌≤◌, length};
ghost use Rattle.steps.specs.Step.{Held, over};
ghost use Rattle.solver.specs.Run.{Tellable};
ghost use Rattle.solver.specs.Spend.{is_done, out_by, ran_as, ran_by};

use answers::multipliers::multipliers_of;
use answers::{Head, Verdict, numerators_of, write};
use search::{Size, View};
use steps::{End, Outcome, step};
use tableau::{Seat, Tableau};

// Whether there is nothing left to do: all pivots are spent, and the run is not to be looked at there.
fn is_done(look: bool, count: usize, most: usize) -> bool
    ensures { result ≡ is_done look count most }
{
    !look & (count == most)
}

// Completes `most` pivots, or all that are left, and then looks whether the run goes on, if it is to: the end that it
// reached, if it did, and how many pivots were made. A step puts the entries after it into room of its own; what a look
// puts there is not kept.
pub fn advance(t: &mut Tableau, most: usize, look: bool) -> (Option<End>, usize)
    requires { Held t.old }
    ensures { ran_as result.0 result.1 t.new ≡ ran_by look t.old most }
{
    let mut count = 0usize;
    let mut next = [0i32; Tableau::MOST_ENTRIES];
    loop {
        if is_done(look, count, most) {
            return (None, count);
        }
        let outcome = step(View::of(t), t.limits, &t.entries, &mut next);
        match outcome {
            Outcome::Ended(end) => return (Some(end), count),
            Outcome::Goes(row, column, value, common) => {
                if count == most {
                    return (None, count);
                }
                let live = layout::live(t.rows, t.columns);
                pivot::keep(&next, live, &mut t.entries);
                let i = row.0 as usize;
                let j = column.0 as usize;
                let leaving = t.basic[i];
                let entering = t.nonbasic[j];
                let v = leaving.0 as usize;
                let w = entering.0 as usize;
                t.common = common;
                t.basic[i] = entering;
                t.nonbasic[j] = leaving;
                t.values[j] = value.plain;
                t.smalls[j] = value.small;
                t.seats[w] = Seat {
                    basic: true,
                    row,
                    column,
                };
                t.seats[v] = Seat {
                    basic: false,
                    row,
                    column,
                };
                count += 1;
            }
        }
    }
}

// Writes the answer of a run that is over: how, after how many pivots, and with which tableau.
pub fn tell(t: &Tableau, end: End, count: usize, out: &mut [i64])
    requires tellable { Tellable end count t.now }
    requires columns_in_bounds { 3 + 2 * (t.now.rows + t.now.columns) ≤ length out.old }
    ensures { out.new ≡ out_by (over end) count t.now out.old }
{
    let size = Size {
        rows: t.rows,
        columns: t.columns,
    };
    let variables = size.rows + size.columns;
    let zeros = [0i64; Tableau::MOST_VARIABLES];
    match end {
        End::Can => {
            let head = Head {
                verdict: Verdict::Can,
                count,
                denominator: i64::from(t.common),
            };
            let found = numerators_of(&t.entries, &t.values, t.seats, t.common, size);
            if t.limits.strict {
                let others = numerators_of(&t.entries, &t.smalls, t.seats, t.common, size);
                write(out, head, variables, &found, &others);
                return;
            }
            write(out, head, variables, &found, &zeros);
        }
        End::Cannot(blocked) => {
            let head = Head {
                verdict: Verdict::Cannot,
                count,
                denominator: 0,
            };
            let found = multipliers_of(&t.entries, t.seats, t.common, size, blocked);
            write(out, head, variables, &found.lower, &found.upper);
        }
        End::Range => {
            let head = Head {
                verdict: Verdict::Range,
                count,
                denominator: 0,
            };
            write(out, head, variables, &zeros, &zeros);
        }
    }
}
