// Another solver's trace against the run of its problem: docs/RULES.md, "Replaying a trace". Nothing is written.
#![tactic(auto)]

ghost use Rattle.std.specs.Prelude.{◌≡◌, ◌+◌, Result, IfOk};
ghost use Rattle.refusals.specs.Numbers.{told_by};
ghost use Rattle.rules.specs.Runs.Replay.{replay_refusal, replayed_words};
ghost use Rattle.solver.specs.Spend.{Standing};
ghost use Rattle.replay.specs.Replay.{FollowsAs, compared_by, last_is, place_of, replayed_by, told_of};

use masks::{mask_of, went};
use refusals::Refusal;
use solver::spend;
use solver::spend::{MOST_ANSWER, Spent};
use tableau::Tableau;

/// A word of a step, in the order in which they stand there.
#[derive(Clone, Copy, Debug, PartialEq, Eq)]
pub enum Word {
    Leaving,
    Entering,
    Mask,
}

/// The place of a word in its step.
impl From<Word> for u32 {
    ghost from_gives = { λ word place. place ≡ place_of word };

    fn from(word: Word) -> u32 {
        word as u32
    }
}

/// What a trace comes to that is not refused: accepted, the first wrong step with its first wrong word, or it stops
/// before the run does, or goes on past its end.
#[derive(Clone, Copy, Debug, PartialEq, Eq)]
pub enum Replayed {
    Accepted,
    Wrong(usize, Word),
    Early,
    Past,
}

// The same in numbers: 0 accepted, a refusal, 52 wrong, 53 early, 54 past; and where wrong, the step and which of its
// words, 0 to 2. Else these are 0.
#[repr(C)]
#[derive(Clone, Copy, Debug, Default, PartialEq, Eq)]
pub struct Told {
    pub number: u32,
    pub word: u32,
    pub step: usize,
}

const WRONG: u32 = 52;

const EARLY: u32 = 53;

const PAST: u32 = 54;

// The words of a step against the basic variables before and after it, or the first that is wrong: who is basic no more
// has left, who is now has entered.
fn compared(before: u32, after: u32, leaving: u32, entering: u32, mask: u32) -> Result<(), Word>
    ensures { result ≡ compared_by before after leaving entering mask }
{
    if !went(before, after, leaving) {
        return Err(Word::Leaving);
    }
    if !went(after, before, entering) {
        return Err(Word::Entering);
    }
    if mask != after {
        return Err(Word::Mask);
    }
    Ok(())
}

// Where the run is over: as many steps as the trace has, or fewer.
fn at_end(made: usize, steps: usize) -> Replayed
    ensures { result ≡ last_is made steps }
{
    if made == steps {
        Replayed::Accepted
    } else {
        Replayed::Past
    }
}

// The run from its start, one pivot at a time, against the steps of the trace.
fn follow(first: Tableau, trace: &[u32]) -> Replayed
    requires { Standing first 0 }
    ensures { FollowsAs first trace.now result }
{
    let steps = trace.len() / 3;
    let variables = first.rows + first.columns;
    let mut out = [0i64; MOST_ANSWER];
    let mut before = mask_of(first.seats, variables);
    let mut spent = Spent {
        answered: false,
        count: 0,
        tableau: first,
    };
    loop {
        let made = spent.count;
        spent = spend::spend(spent.tableau, made, 1, false, &mut out);
        if spent.answered {
            return at_end(made, steps);
        }
        if made == steps {
            return Replayed::Early;
        }
        let after = mask_of(spent.tableau.seats, variables);
        let at = 3 * made;
        match compared(before, after, trace[at], trace[at + 1], trace[at + 2]) {
            Ok(()) => before = after,
            Err(word) => return Replayed::Wrong(made, word),
        }
    }
}

/// Judges the words and the trace's length, and holds the trace against the run.
pub fn replay(words: &[i32], trace: &[u32]) -> Result<Replayed, Refusal>
    ensures refused { told_by result ≡ replay_refusal words.now trace.now }
    ensures replayed { IfOk result (λ r. r ≡ replayed_by (replayed_words words.now trace.now)) }
{
    judge::judge(words)?;
    if trace.len() % 3 != 0 {
        return Err(Refusal::TraceLength);
    }
    let first = Tableau::new(words);
    Ok(follow(first, trace))
}

/// An answer in numbers; a refusal comes as one.
pub fn in_numbers(answer: Result<Replayed, u32>) -> Told
    ensures { result ≡ told_of answer }
{
    let (number, word, step) = match answer {
        Ok(Replayed::Accepted) => (0, 0, 0),
        Ok(Replayed::Wrong(step, word)) => (WRONG, u32::from(word), step),
        Ok(Replayed::Early) => (EARLY, 0, 0),
        Ok(Replayed::Past) => (PAST, 0, 0),
        Err(number) => (number, 0, 0),
    };
    Told { number, word, step }
}
