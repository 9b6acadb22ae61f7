// Rows: the name of each, and its coefficients into the words.
ghost use Rattle.std.specs.Prelude.{true, ◌≡◌, suc, ◌<◌, Ok, MatchResult};
ghost use Rattle.rules.specs.Exchange.Tokens.{token_bytes};
ghost use Rattle.reader.specs.Course.{Refused, RowsAt, TermGoes, TermsAt, TermsDone};
ghost use Rattle.reader.specs.Flow.{StandsAt, sum_on};

use crate::flow::pass_name;
use crate::numbers::{Asked, Told, number};
use crate::sizes::Counts;
use crate::texts::CLOSE;
use exchange::texts::{ASSERT_ROW, END_ASSERT, OPEN_SUM, OPEN_TERM};
use tokens::Halted;

// The term of a column; `blank` says that its coefficient may not be 0.
fn term(text: &[u8], at: usize, column: usize, blank: bool) -> Result<Told, Halted>
    requires { StandsAt text.now (Ok at) }
    ensures { TermGoes text.now (Ok at) column blank result }
{
    let opened = tokens::follow(text, at, &OPEN_TERM)?;
    let asked = Asked {
        largest: rules::LARGEST_COEFFICIENT as u64,
        blank,
    };
    let told = number(text, opened, asked)?;
    let named = pass_name(text, told.at, b'x', column)?;
    let closed = tokens::follow(text, named, &CLOSE)?;
    Ok(Told {
        value: told.value,
        at: closed,
    })
}

// The terms of row `i`.
fn terms(
    text: &[u8],
    at: usize,
    counts: Counts,
    i: usize,
    words: &mut [i32],
) -> Result<usize, Halted>
    requires { TermsAt text.now counts.columns counts.rows i 0 words.old true (Ok at) × (i < counts.rows) }
    ensures { MatchResult result (λ next. TermsDone text.now counts.columns counts.rows i words.new (Ok next))
        (Refused text.now) }
{
    let columns = counts.columns;
    let from = 2 + i * columns;
    let mut next = at;
    let mut blank = true;
    for j in 0..columns {
        let last = j + 1 == columns;
        let told = term(text, next, j, last & blank)?;
        words[from + j] = told.value;
        blank &= told.value == 0;
        next = told.at;
    }
    Ok(next)
}

// More than one term stand in a sum.
#[tactic(auto, unfolding(crate::specs::Flow::sum_on))]
fn pass_sum(text: &[u8], at: usize, columns: usize, script: &[u8]) -> Result<usize, Halted>
    requires { StandsAt text.now (Ok at) }
    ensures { result ≡ sum_on text.now (Ok at) columns (token_bytes script.now) }
{
    if columns == 1 {
        return Ok(at);
    }
    tokens::follow(text, at, script)
}

// Row `i`.
fn row(text: &[u8], at: usize, counts: Counts, i: usize, words: &mut [i32]) -> Result<usize, Halted>
    requires { RowsAt text.now counts.columns counts.rows i words.old (Ok at) × (i < counts.rows) }
    ensures { MatchResult result (λ next. RowsAt text.now counts.columns counts.rows (suc i) words.new (Ok next))
        (Refused text.now) }
{
    let opened = tokens::follow(text, at, &ASSERT_ROW)?;
    let named = pass_name(text, opened, b'r', i)?;
    let summed = pass_sum(text, named, counts.columns, &OPEN_SUM)?;
    let told = terms(text, summed, counts, i, words)?;
    let closed = pass_sum(text, told, counts.columns, &CLOSE)?;
    tokens::follow(text, closed, &END_ASSERT)
}

// All rows.
pub fn all_rows(text: &[u8], at: usize, counts: Counts, words: &mut [i32]) -> Result<usize, Halted>
    requires { RowsAt text.now counts.columns counts.rows 0 words.old (Ok at) }
    ensures { MatchResult result (λ next. RowsAt text.now counts.columns counts.rows counts.rows
        words.new (Ok next)) (Refused text.now) }
{
    let mut next = at;
    for i in 0..counts.rows {
        next = row(text, next, counts, i, words)?;
    }
    Ok(next)
}
