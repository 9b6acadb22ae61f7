// Numbers: of 0 or more a numeral, below 0 its size behind a minus, in parentheses.
ghost use Rattle.std.specs.Prelude.{◌≡◌, ◌≤◌, Ok};
ghost use Rattle.rules.specs.Sizes.{largest_limit};
ghost use Rattle.reader.specs.Flow.{StandsAt};
ghost use Rattle.reader.specs.Numbers.{NumberGoes, admissible, numeral_on, value_by};

use crate::flow::is_next;
use crate::texts::{CLOSE, OPEN};
use exchange::texts::OPEN_MINUS;
use tokens::Halted;

// A number, and the place behind it.
#[derive(Clone, Copy, Debug, PartialEq, Eq)]
pub struct Told {
    pub value: i32,
    pub at: usize,
}

// Which numbers may stand there: up to a size, and 0 too or not.
#[derive(Clone, Copy, Debug, PartialEq, Eq)]
pub struct Asked {
    pub largest: u64,
    pub blank: bool,
}

// Whether a numeral may stand there; `below` says that it is a size, which is not 0.
#[tactic(auto, unfolding(crate::specs::Numbers::admissible))]
fn is_admissible(value: u64, below: bool, asked: Asked) -> bool
    ensures { result ≡ admissible value below asked }
{
    value <= asked.largest && !(value == 0 && (below || asked.blank))
}

// A number by its size.
fn signed(value: u64, below: bool) -> i32
    requires { value ≤ largest_limit }
    ensures { result ≡ value_by below value }
{
    if below { -(value as i32) } else { value as i32 }
}

// The numeral at `at`.
#[tactic(auto, using(tokens::proofs::Laws::Places::token_ends))]
fn numeral(text: &[u8], at: usize, below: bool, asked: Asked) -> Result<Told, Halted>
    requires { asked.largest ≤ largest_limit }
    ensures { result ≡ numeral_on text.now (Ok at) below asked }
{
    if text.len() <= at {
        return Err(Halted { place: at });
    }
    let end = tokens::stop(text, at);
    let value = tokens::numeral(&text[at..end]).ok_or(Halted { place: at })?;
    if !is_admissible(value, below, asked) {
        return Err(Halted { place: at });
    }
    Ok(Told {
        value: signed(value, below),
        at: tokens::start(text, end),
    })
}

// The number at `at`.
pub fn number(text: &[u8], at: usize, asked: Asked) -> Result<Told, Halted>
    requires { StandsAt text.now (Ok at) × (asked.largest ≤ largest_limit) }
    ensures { NumberGoes text.now (Ok at) asked result }
{
    if !is_next(text, at, &OPEN) {
        return numeral(text, at, false, asked);
    }
    let opened = tokens::follow(text, at, &OPEN_MINUS)?;
    let told = numeral(text, opened, true, asked)?;
    let closed = tokens::follow(text, told.at, &CLOSE)?;
    Ok(Told {
        value: told.value,
        at: closed,
    })
}
