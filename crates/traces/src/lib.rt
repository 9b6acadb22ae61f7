// A problem's own trace: docs/RULES.md, "Replaying a trace".
#![tactic(auto)]

ghost use Rattle.std.specs.Prelude.{◌≡◌, ◌+◌, ◌*◌, ◌≤◌, length};
ghost use Rattle.refusals.specs.Numbers.{told_by};
ghost use Rattle.rules.specs.Runs.Trace.{trace_output, trace_refusal};
ghost use Rattle.solver.specs.Spend.{Standing};
ghost use Rattle.traces.specs.Traces.{CountsAs, Pivots, RecordsAs, traced_as, traced_of};

use masks::{gone, mask_of};
use refusals::Refusal;
use solver::spend;
use solver::spend::MOST_ANSWER;
use tableau::Tableau;

// The refusal, or 0 and how many words were written. C reads it as it is.
#[repr(C)]
#[derive(Clone, Copy, Debug, Default, PartialEq, Eq)]
pub struct Traced {
    pub refused: u32,
    pub count: usize,
}

// How many pivots the run has.
fn count_of(first: Tableau) -> usize
    requires { Standing first 0 }
    ensures { CountsAs first result }
{
    let mut out = [0i64; MOST_ANSWER];
    let whole = spend::spend(first, 0, usize::MAX, true, &mut out);
    whole.count
}

// The run from its start, one pivot at a time, three words for each.
fn record(first: Tableau, count: usize, trace: &mut [u32])
    requires pivots { Pivots first count }
    requires count_in_bounds { 3 * count ≤ length trace.old }
    ensures { RecordsAs first count trace.old trace.new }
{
    let variables = first.rows + first.columns;
    let mut out = [0i64; MOST_ANSWER];
    let mut before = mask_of(first.seats, variables);
    let mut t = first;
    for made in 0..count {
        t = spend::spend(t, made, 1, false, &mut out).tableau;
        let after = mask_of(t.seats, variables);
        let at = 3 * made;
        trace[at] = gone(before, after, variables);
        trace[at + 1] = gone(after, before, variables);
        trace[at + 2] = after;
        before = after;
    }
}

// Judges the words, and writes the trace of their run where there is room for all of it: how many words were written.
fn put_trace(words: &[i32], trace: &mut [u32]) -> Result<usize, Refusal>
    ensures told { traced_of result ≡ traced_as (trace_refusal words.now (length trace.old)) words.now }
    ensures output { trace.new ≡ trace_output (told_by result) words.now trace.old }
{
    judge::judge(words)?;
    let first = Tableau::new(words);
    let count = count_of(first);
    if trace.len() / 3 < count {
        return Err(Refusal::ShortRoom);
    }
    record(first, count, trace);
    Ok(3 * count)
}

/// The same in numbers.
pub fn trace(words: &[i32], trace: &mut [u32]) -> Traced
    ensures told { result ≡ traced_as (trace_refusal words.now (length trace.old))
        words.now }
    ensures output { trace.new ≡ trace_output result.refused words.now trace.old }
{
    match put_trace(words, trace) {
        Ok(count) => Traced { refused: 0, count },
        Err(refusal) => Traced {
            refused: refusal.number(),
            count: 0,
        },
    }
}
