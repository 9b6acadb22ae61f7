// The tokens of a text by places: where the next one starts and where it stops, and whether it is a given one.
#![tactic(auto)]

ghost use Rattle.std.specs.Prelude.{◌≡◌, ◌∷◌, [], ◌-◌, ◌≤◌, ◌<◌, length};
ghost use Rattle.rules.specs.Program.Text.{digits, reading};
ghost use Rattle.rules.specs.Exchange.Reader.{same_bytes};
ghost use Rattle.rules.specs.Exchange.Tokens.{is_parenthesis, is_plain, token_bytes};
ghost use Rattle.tokens.specs.Followed.{followed};
ghost use Rattle.tokens.specs.Numeral.{short_numeral};
ghost use Rattle.tokens.specs.Gaps.{noting, part, stands_between, start_at, stop_at};

// Kept: here and below no `matches!` and no `match`, which branch by each byte; `|` and `&` take none, and each byte of
// a text is tested
#[tactic(auto, unfolding(rules::specs::Exchange::Tokens::is_parenthesis))]
fn is_parenthesis(byte: u8) -> bool
    ensures { result ≡ is_parenthesis byte }
{
    (byte == b'(') | (byte == b')')
}

// A byte of a run.
#[tactic(auto, unfolding(rules::specs::Exchange::Tokens::is_plain, rules::specs::Exchange::Tokens::is_blank, rules::specs::Exchange::Tokens::is_parenthesis, rules::specs::Exchange::Tokens::is_comment))]
fn is_plain(byte: u8) -> bool
    ensures { result ≡ is_plain byte }
{
    let blank = (byte == b'\t') | (byte == b'\n') | (byte == b'\r') | (byte == b' ');
    let parenthesis = (byte == b'(') | (byte == b')');
    !(blank | parenthesis | (byte == b';'))
}

// Whether a byte stands between tokens; `noted` says that it is in a comment.
#[tactic(auto, unfolding(crate::specs::Gaps::stands_between, rules::specs::Exchange::Tokens::is_blank, rules::specs::Exchange::Tokens::is_comment))]
fn is_between(noted: bool, byte: u8) -> bool
    ensures { result ≡ stands_between noted byte }
{
    let blank = (byte == b'\t') | (byte == b'\n') | (byte == b'\r') | (byte == b' ');
    noted | blank | (byte == b';')
}

// Whether the next byte is in a comment.
#[tactic(auto, unfolding(crate::specs::Gaps::noting, rules::specs::Exchange::Tokens::ends_line, rules::specs::Exchange::Tokens::is_comment))]
fn is_noted(noted: bool, byte: u8) -> bool
    ensures { result ≡ noting noted byte }
{
    let ends = (byte == b'\n') | (byte == b'\r');
    (byte == b';') | (noted & !ends)
}

/// The place of the next token, or the text's length.
pub fn start(text: &[u8], at: usize) -> usize
    requires { at ≤ length text.now }
    ensures { result ≡ start_at text.now at }
{
    let mut noted = false;
    for (i, &byte) in text[at..].iter().enumerate() {
        if !is_between(noted, byte) {
            return at + i;
        }
        noted = is_noted(noted, byte);
    }
    text.len()
}

/// Where the token that starts at `at` stops.
pub fn stop(text: &[u8], at: usize) -> usize
    requires { at < length text.now }
    ensures { result ≡ stop_at text.now at }
{
    let behind = at + 1;
    if is_parenthesis(text[at]) {
        return behind;
    }
    for (i, &byte) in text[behind..].iter().enumerate() {
        if !is_plain(byte) {
            return behind + i;
        }
    }
    text.len()
}

/// Whether the bytes from one place up to another are those of `word`.
pub fn is(text: &[u8], from: usize, to: usize, word: &[u8]) -> bool
    requires { (from ≤ to) × (to ≤ length text.now) }
    ensures { result ≡ same_bytes word.now (part text.now from to) }
{
    // Kept: no `==` of slices, which is a call, and most words have a byte or two
    word.len() == to - from
        && word
            .iter()
            .zip(&text[from..to])
            .all(|(due, own)| due == own)
}

/// A text has another token at this place than the one that is due there, or none.
#[derive(Clone, Copy, Debug, PartialEq, Eq)]
pub struct Halted {
    pub place: usize,
}

// Behind the token at `at` where it is `word`, or halted at it.
#[tactic(auto, using(crate::proofs::Laws::Places::token_ends))]
fn pass(text: &[u8], at: usize, word: &[u8]) -> Result<usize, Halted>
    ensures { result ≡ followed text.now at (word.now ∷ []) }
{
    if text.len() <= at {
        return Err(Halted { place: at });
    }
    let end = stop(text, at);
    if !is(text, at, end, word) {
        return Err(Halted { place: at });
    }
    Ok(start(text, end))
}

/// Follows the tokens of `script` from the token at `at` on, or from the end: behind all of them, or halted at the
/// first that is not there.
// Kept: `inline`, as most scripts are constants, and where they are known their tokens are not looked for
#[inline(always)]
#[tactic(auto, using(crate::proofs::Laws::Places::token_ends))]
pub fn follow(text: &[u8], at: usize, script: &[u8]) -> Result<usize, Halted>
    requires { (at ≤ length text.now) × (start_at text.now at ≡ at) }
    ensures { result ≡ followed text.now at (token_bytes script.now) }
{
    let mut next = at;
    let mut due = start(script, 0);
    while due < script.len() {
        let last = stop(script, due);
        next = pass(text, next, &script[due..last])?;
        due = start(script, last);
    }
    Ok(next)
}

/// Whether a token's bytes are the digits of `value`.
pub fn is_decimal(token: &[u8], value: u64) -> bool
    ensures { result ≡ same_bytes (digits value) token.now }
{
    let mut rest = value;
    let mut left = token;
    while let [front @ .., last] = left {
        if rest < 10 {
            return front.is_empty() && 48 + rest == u64::from(*last);
        }
        if 48 + rest % 10 != u64::from(*last) {
            return false;
        }
        rest /= 10;
        left = front;
    }
    false
}

// The value of a byte as a digit.
fn digit_of(byte: u8) -> u64
    ensures { (result ≡ byte - 48) × (result ≤ 207) }
{
    u64::from(byte.saturating_sub(b'0'))
}

// The value of a token of at most five bytes, as digits.
fn value_of(token: &[u8]) -> u64
    requires { length token.now ≤ 5 }
    ensures { result ≡ reading 0 token.now }
{
    let mut value = 0;
    for &byte in token {
        value = 10 * value + digit_of(byte);
    }
    value
}

/// A token's number, where it is one of at most five digits.
pub fn numeral(token: &[u8]) -> Option<u64>
    ensures { result ≡ short_numeral token.now }
{
    if 5 < token.len() {
        return None;
    }
    let value = value_of(token);
    is_decimal(token, value).then_some(value)
}
