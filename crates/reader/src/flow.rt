// The next token of a reading, and what comes behind it.
ghost use Rattle.std.specs.Prelude.{◌∷◌, ◌≡◌, Ok};
ghost use Rattle.rules.specs.Program.Text.{digits};
ghost use Rattle.reader.specs.Flow.{next_is, skip_if};

use tokens::Halted;

// Whether the token at `at` is `word`.
#[tactic(auto, using(tokens::proofs::Laws::Places::token_ends))]
pub fn is_next(text: &[u8], at: usize, word: &[u8]) -> bool
    ensures { result ≡ next_is text.now (Ok at) word.now }
{
    if text.len() <= at {
        return false;
    }
    let end = tokens::stop(text, at);
    tokens::is(text, at, end, word)
}

// Whether the token at `at` is this letter and this number.
#[tactic(auto, using(tokens::proofs::Laws::Places::token_ends))]
pub fn is_next_name(text: &[u8], at: usize, letter: u8, number: usize) -> bool
    ensures { result ≡ next_is text.now (Ok at) (letter ∷ digits number) }
{
    if text.len() <= at {
        return false;
    }
    let end = tokens::stop(text, at);
    if text[at] != letter {
        return false;
    }
    tokens::is_decimal(&text[at + 1..end], number as u64)
}

// Passes the token at `at` where it may stand there, or halts at it.
#[tactic(auto, using(tokens::proofs::Laws::Places::token_ends), unfolding(crate::specs::Flow::skip_if, crate::specs::Flow::skip_at, crate::specs::Flow::skip_by, crate::specs::Flow::token_of))]
pub fn skip_if(text: &[u8], at: usize, may: bool) -> Result<usize, Halted>
    ensures { result ≡ skip_if text.now (Ok at) may }
{
    if !may || text.len() <= at {
        return Err(Halted { place: at });
    }
    let end = tokens::stop(text, at);
    Ok(tokens::start(text, end))
}

// Follows a name.
pub fn pass_name(text: &[u8], at: usize, letter: u8, number: usize) -> Result<usize, Halted>
    ensures { result ≡ skip_if text.now (Ok at) (next_is text.now (Ok at) (letter ∷ digits number)) }
{
    skip_if(text, at, is_next_name(text, at, letter, number))
}
