// Limits, by rising number: that of v's lower one is 2v, that of its upper one 2v + 1.
ghost use Rattle.std.specs.Prelude.{◌&&◌, true, ◌≡◌, ◌+◌, ◌*◌, ◌≤◌, ◌<◌, ltb, pos, get_or, length, ◌≤ℤ◌};
ghost use Rattle.std.specs.Prelude.{Ok, IfOk, MatchOption, MatchResult};
ghost use Rattle.rules.specs.Exchange.Script.{name_of};
ghost use Rattle.reader.specs.Course.{EndedAt, LimitsAt, Refused, RowsAt};
ghost use Rattle.reader.specs.Flow.{StandsAt, assert_token, next_is};
ghost use Rattle.reader.specs.Limits.{RelationGoes, limit_set, mark_of, related_by};
ghost use Rattle.reader.specs.Limits.{variable_from};

use crate::flow::{is_next, is_next_name, skip_if};
use crate::numbers::{Asked, number};
use crate::sizes::Counts;
use crate::texts::ASSERT;
use exchange::texts::{ASSERT_LIMIT, CHECK_SAT, END_ASSERT, LESS, MORE, NO_LESS, NO_MORE};
use tokens::Halted;

// A relation, of the upper limit or the lower one, strict or not; and the place behind it.
#[derive(Clone, Copy, Debug, PartialEq, Eq)]
struct Related {
    pub upper: bool,
    pub strict: bool,
    pub at: usize,
}

// The number of the first limit that is not passed, and the place behind the one before.
#[derive(Clone, Copy, Debug, PartialEq, Eq)]
struct Limited {
    pub count: usize,
    pub at: usize,
}

// A relation that was found, where its side has a limit left.
#[tactic(auto, unfolding(crate::specs::Limits::related_by, crate::specs::Limits::related))]
fn relate(text: &[u8], at: usize, left: bool, upper: bool, strict: bool) -> Result<Related, Halted>
    ensures { result ≡ related_by text.now (Ok at) left upper strict }
{
    let behind = skip_if(text, at, left)?;
    Ok(Related {
        upper,
        strict,
        at: behind,
    })
}

// The relation of a limit; `most` is how many limits there can be.
fn relation(text: &[u8], at: usize, count: usize, most: usize) -> Result<Related, Halted>
    requires { StandsAt text.now (Ok at) × (count < most) × (most ≤ 64) }
    ensures { RelationGoes text.now (Ok at) count most result }
{
    let left = count + 1 < most;
    if is_next(text, at, &NO_LESS) {
        return relate(text, at, left, false, false);
    }
    if is_next(text, at, &MORE) {
        return relate(text, at, left, false, true);
    }
    if is_next(text, at, &NO_MORE) {
        return relate(text, at, true, true, false);
    }
    let less = is_next(text, at, &LESS);
    relate(text, at, less, true, true)
}

// Whether the token at `at` is the name of a variable.
#[tactic(auto, unfolding(rules::specs::Exchange::Script::name_of, rules::specs::Exchange::Script::column_name, rules::specs::Exchange::Script::row_name, rules::specs::Program::Text::ascii))]
fn is_variable(text: &[u8], at: usize, columns: usize, variable: usize) -> bool
    ensures { result ≡ next_is text.now (Ok at) (name_of columns variable) }
{
    if variable < columns {
        return is_next_name(text, at, b'x', variable);
    }
    is_next_name(text, at, b'r', variable - columns)
}

// The variable below `most` whose name is the token at `at`, from `from` on.
fn variable(text: &[u8], at: usize, columns: usize, from: usize, most: usize) -> Option<usize>
    ensures { MatchOption result (most ≡ variable_from text.now (Ok at) columns from most)
        (λ v. (v < most) × (v ≡ variable_from text.now (Ok at) columns from most)) }
{
    for v in from..most {
        if is_variable(text, at, columns, v) {
            return Some(v);
        }
    }
    None
}

// 1, and 4 more where it is strict.
#[tactic(auto, unfolding(crate::specs::Limits::mark_of))]
fn mark(strict: bool) -> i32
    ensures { result ≡ pos (mark_of strict) }
{
    if strict { 5 } else { 1 }
}

// Puts a limit into the three words of its variable.
fn set_limit(words: &mut [i32], at: usize, upper: bool, strict: bool, value: i32)
    requires { (at + 2 < length words.old) × (pos 0 ≤ℤ get_or words.old at (pos 0))
        × (get_or words.old at (pos 0) ≤ℤ pos 5) }
    ensures { words.new ≡ limit_set words.old at upper strict value }
{
    if upper {
        let kind = words[at];
        words[at] = kind + 2 * mark(strict);
        words[at + 2] = value;
        return;
    }
    words[at] = mark(strict);
    words[at + 1] = value;
}

// Whether another limit stands there.
#[tactic(auto, unfolding(crate::specs::Flow::assert_token, rules::specs::Program::Text::ascii))]
fn is_limit(text: &[u8], held: Limited, most: usize) -> bool
    ensures { result ≡ (next_is text.now (Ok held.at) assert_token && ltb held.count most) }
{
    is_next(text, held.at, &ASSERT) && held.count < most
}

// One limit.
fn limit(text: &[u8], held: Limited, counts: Counts, words: &mut [i32]) -> Result<Limited, Halted>
    requires { LimitsAt text.now counts.columns counts.rows held.count words.old (Ok held.at)
        × ((next_is text.now (Ok held.at) assert_token && ltb held.count (2 * (counts.columns + counts.rows)))
        ≡ true) }
    ensures limited { MatchResult result (λ l. LimitsAt text.now counts.columns counts.rows l.count words.new (Ok l.at))
        (Refused text.now) }
    ensures more { IfOk result (λ l. held.count < l.count) }
{
    let count = held.count;
    let variables = counts.columns + counts.rows;
    let opened = tokens::follow(text, held.at, &ASSERT_LIMIT)?;
    let told = relation(text, opened, count, 2 * variables)?;
    let side = usize::from(told.upper);
    let from = (count + 1 - side) / 2;
    let Some(v) = variable(text, told.at, counts.columns, from, variables) else {
        return Err(Halted { place: told.at });
    };
    let named = skip_if(text, told.at, true)?;
    let asked = Asked {
        largest: rules::LARGEST_LIMIT as u64,
        blank: false,
    };
    let bound = number(text, named, asked)?;
    let place = 2 + counts.rows * counts.columns + 3 * v;
    set_limit(words, place, told.upper, told.strict, bound.value);
    let at = tokens::follow(text, bound.at, &END_ASSERT)?;
    Ok(Limited {
        count: 2 * v + side + 1,
        at,
    })
}

// All limits, and the end.
pub fn all_limits(
    text: &[u8],
    at: usize,
    counts: Counts,
    words: &mut [i32],
) -> Result<usize, Halted>
    requires { RowsAt text.now counts.columns counts.rows counts.rows words.old (Ok at) }
    ensures { MatchResult result (λ end. EndedAt text.now counts.columns counts.rows words.new (Ok end))
        (Refused text.now) }
{
    let most = 2 * (counts.columns + counts.rows);
    let mut held = Limited { count: 0, at };
    while is_limit(text, held, most) {
        held = limit(text, held, counts, words)?;
    }
    tokens::follow(text, held.at, &CHECK_SAT)
}
