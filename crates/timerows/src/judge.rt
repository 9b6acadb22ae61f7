// Refusals 11 to 17: whether lent words are time rows, and the output has room. The rows are gone through once, and
// what is wrong with any of them is told by the first test that it fails.
ghost use Rattle.std.specs.Prelude.{◌≡◌, []};
ghost use Rattle.rules.specs.Problem.{m_of};
ghost use Rattle.rules.specs.Refusal.{first};
ghost use Rattle.rules.specs.Times.Words.{row_tests, time_refusal};
ghost use Rattle.refusals.specs.Numbers.{number_told};
ghost use Rattle.timerows.specs.Judged.{Faulty, TimeFramed};

use crate::word_of;
use lengths::{Length, MOST_VERTICES};
use refusals::Refusal;
use words::{count_at, is_bad_size, is_outside, is_within};

const MOST_ROWS: u32 = 256;

// Whether some row has an end that is no vertex, a strict word that is neither 0 nor 1, or a c out of range.
#[derive(Clone, Copy, Default)]
struct Faults {
    vertex: bool,
    strict: bool,
    length: bool,
}

// All words of a row are looked at, so that the loop has no branch.
fn row_faults(words: &[i32], m: usize) -> Faults
    requires { (TimeFramed words.now) × (m ≡ m_of words.now) }
    ensures { Faulty words.now m result.vertex result.strict result.length }
{
    let last = i64::from(words[0]) - 1;
    let mut vertex = false;
    let mut strict = false;
    let mut length = false;
    for i in 0..m {
        vertex |= is_outside(i64::from(word_of(words, i, 0)), 0, last);
        vertex |= is_outside(i64::from(word_of(words, i, 1)), 0, last);
        strict |= is_outside(i64::from(word_of(words, i, 2)), 0, 1);
        length |= !is_within(word_of(words, i, 3), Length::LARGEST);
    }
    Faults {
        vertex,
        strict,
        length,
    }
}

// Refusals 14 to 16.
fn judge_rows(words: &[i32], m: usize) -> Result<(), Refusal>
    requires { (TimeFramed words.now) × (m ≡ m_of words.now) }
    ensures { number_told result ≡ first (row_tests words.now m []) }
{
    let found = row_faults(words, m);
    if found.vertex {
        return Err(Refusal::Vertex);
    }
    if found.strict {
        return Err(Refusal::StrictWord);
    }
    if found.length {
        return Err(Refusal::RowLength);
    }
    Ok(())
}

// The first refusal that applies.
pub fn judge(words: &[i32], room: usize) -> Result<(), Refusal>
    ensures { number_told result ≡ time_refusal words.now room }
{
    if words.len() < 2 {
        return Err(Refusal::FewTimeWords);
    }
    if is_bad_size(words, MOST_VERTICES as u32, MOST_ROWS) {
        return Err(Refusal::TimeSize);
    }
    let m = count_at(words, 1);
    if words.len() != 2 + 4 * m {
        return Err(Refusal::TimeLength);
    }
    judge_rows(words, m)?;
    if room < 2 + 2 * count_at(words, 0) {
        return Err(Refusal::ShortTimeRoom);
    }
    Ok(())
}
