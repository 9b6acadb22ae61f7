// Refusals 1 to 6 and 10: whether lent words are a problem. Each test runs over the whole input before the next.
#![tactic(auto)]

ghost use Rattle.std.specs.Prelude.{◌≡◌, [], ◌∷◌, ◌/◌, ◌%◌, ◌<◌, ◌≤◌, eqb, pos, nat_abs, ◌<ℤ◌};
ghost use Rattle.rules.specs.Limit.{bad_kind_word, has_lower, has_upper, strict_lower, strict_upper, bad_limit_word};
ghost use Rattle.rules.specs.Refusal.{bad_coefficient, blank_row, first, problem_refusal, problem_refusal_within};
ghost use Rattle.rules.specs.Refusal.{some_blank};
ghost use Rattle.rules.specs.Sizes.{most_rows};
ghost use Rattle.refusals.specs.Numbers.{number_told};
ghost use Rattle.judge.specs.Words.{Framed, bad_by, bad_variable};

use refusals::Refusal;
use words::{count_at, is_bad_size, is_outside, is_within};

// Whether a kind has the bit that stands for `power`.
fn has_bit(kind: i32, power: i32) -> bool
    requires { pos 0 <ℤ power }
    ensures { result ≡ eqb (nat_abs kind / nat_abs power % 2) 1 }
{
    kind / power % 2 != 0
}

/// Whether a kind says that there is a lower limit.
pub fn has_lower(kind: i32) -> bool
    ensures { result ≡ has_lower kind }
{
    kind % 2 != 0
}

/// Whether a kind says that there is an upper limit.
#[tactic(auto, unfolding(rules::specs::Limit::bit))]
pub fn has_upper(kind: i32) -> bool
    ensures { result ≡ has_upper kind }
{
    has_bit(kind, 2)
}

/// Whether a kind marks the lower limit as strict.
#[tactic(auto, unfolding(rules::specs::Limit::bit))]
pub fn strict_lower(kind: i32) -> bool
    ensures { result ≡ strict_lower kind }
{
    has_bit(kind, 4)
}

/// Whether a kind marks the upper limit as strict.
#[tactic(auto, unfolding(rules::specs::Limit::bit))]
pub fn strict_upper(kind: i32) -> bool
    ensures { result ≡ strict_upper kind }
{
    has_bit(kind, 8)
}

// Whether a kind is outside 0 to 15, or marks a missing limit.
#[tactic(auto, unfolding(rules::specs::Limit::bad_kind_word, whole::specs::Numbers::outside))]
fn is_bad_kind(kind: i32) -> bool
    ensures { result ≡ bad_kind_word kind }
{
    let lower = strict_lower(kind) & !has_lower(kind);
    let upper = strict_upper(kind) & !has_upper(kind);
    is_outside(i64::from(kind), 0, 15) | (lower | upper)
}

// Whether a limit's word is out of range, or not 0 where the limit is missing.
#[tactic(auto, unfolding(rules::specs::Limit::bad_limit_word))]
fn is_bad_limit(present: bool, word: i32) -> bool
    ensures { result ≡ bad_limit_word present word }
{
    if present {
        return !is_within(word, rules::LARGEST_LIMIT);
    }
    word != 0
}

// What is asked of a variable.
#[derive(Clone, Copy, Debug, PartialEq, Eq)]
enum Asked {
    Kind,
    Limits,
}

// Whether a variable's kind is bad, or one of its two limits.
fn is_bad_variable(asked: Asked, kind: i32, lower: i32, upper: i32) -> bool
    ensures { result ≡ bad_by asked kind lower upper }
{
    match asked {
        Asked::Kind => is_bad_kind(kind),
        Asked::Limits => is_bad_limit(has_lower(kind), lower)
            | is_bad_limit(has_upper(kind), upper),
    }
}

// The words of a problem whose sizes and whose length are fine.
#[derive(Clone, Copy, Debug)]
struct Frame<'a> {
    words: &'a [i32],
    columns: usize,
    rows: usize,
    ghost framed: { Framed words.now columns rows },
}

impl Frame<'_> {
    // Whether some coefficient is outside its range.
    fn some_bad_coefficient(&self) -> bool
        ensures { result ≡ bad_coefficient self.now.words.now }
    {
        let mut bad = false;
        for word in &self.words[2..2 + self.rows * self.columns] {
            bad |= !is_within(*word, rules::LARGEST_COEFFICIENT);
        }
        bad
    }

    // Whether some variable fails what is asked of it.
    fn some_bad_variable(&self, asked: Asked) -> bool
        ensures { result ≡ bad_variable asked self.now.words.now }
    {
        let (variables, _) = self.words[2 + self.rows * self.columns..].as_chunks::<3>();
        let mut bad = false;
        for variable in variables {
            let [kind, lower, upper] = *variable;
            bad |= is_bad_variable(asked, kind, lower, upper);
        }
        bad
    }

    // Whether all coefficients of a row are 0.
    fn is_blank(&self, row: usize) -> bool
        requires { row < self.now.rows }
        ensures { result ≡ blank_row self.now.words.now row }
    {
        let first = 2 + row * self.columns;
        self.words[first..first + self.columns]
            .iter()
            .all(|word| *word == 0)
    }

    // Whether some row is blank.
    fn some_blank_row(&self) -> bool
        ensures { result ≡ some_blank self.now.words.now }
    {
        (0..self.rows).any(|row| self.is_blank(row))
    }
}

// The first of refusals 4 to 6 and 10 that applies.
#[tactic(auto, unfolding(rules::specs::Refusal::first))]
fn word_refusal(coefficient: bool, kind: bool, limit: bool, blank: bool) -> Result<(), Refusal>
    ensures { number_told result ≡ first ((coefficient, 4) ∷ (kind, 5) ∷ (limit, 6) ∷ (blank, 10) ∷ []) }
{
    if coefficient {
        return Err(Refusal::Coefficient);
    }
    if kind {
        return Err(Refusal::Kind);
    }
    if limit {
        return Err(Refusal::Limit);
    }
    if blank {
        return Err(Refusal::BlankRow);
    }
    Ok(())
}

/// The first of refusals 1 to 6 and 10 that applies within so many rows.
pub fn judge_within(most: u32, words: &[i32]) -> Result<(), Refusal>
    requires { most ≤ most_rows }
    ensures { number_told result ≡ problem_refusal_within most words.now }
{
    if words.len() < 2 {
        return Err(Refusal::FewWords);
    }
    if is_bad_size(words, rules::MOST_COLUMNS as u32, most) {
        return Err(Refusal::Size);
    }
    let columns = count_at(words, 0);
    let rows = count_at(words, 1);
    if words.len() != 2 + rows * columns + 3 * (columns + rows) {
        return Err(Refusal::Length);
    }
    let frame = Frame {
        words,
        columns,
        rows,
    };
    word_refusal(
        frame.some_bad_coefficient(),
        frame.some_bad_variable(Asked::Kind),
        frame.some_bad_variable(Asked::Limits),
        frame.some_blank_row(),
    )
}

/// .. within the most rows.
#[tactic(auto, unfolding(rules::specs::Refusal::problem_refusal))]
pub fn judge(words: &[i32]) -> Result<(), Refusal>
    ensures { number_told result ≡ problem_refusal words.now }
{
    judge_within(rules::MOST_ROWS as u32, words)
}
