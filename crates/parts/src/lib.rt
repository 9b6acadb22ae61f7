// What both kinds of evidence share: a problem as it stands at its start with an answer beside it, in `specs` what
// verdict 1 and verdict 2 compute over entries and limits, and in `proofs` the laws of that.
#![tactic(auto)]

ghost use Rattle.std.specs.Prelude.{◌≡◌, ◌≤◌, IfOk, length};
ghost use Rattle.rules.specs.Evidence as evidence;
ghost use Rattle.refusals.specs.Numbers.{told_by};
ghost use Rattle.parts.specs.Reads.{InRanges, SizesOf, case_refusal};

use refusals::Refusal;
use tableau::{Limits, Tableau};
use words::count_at;

/// How many rows and columns a problem has.
#[derive(Clone, Copy, Debug, PartialEq, Eq)]
pub struct Size {
    pub rows: usize,
    pub columns: usize,
}

/// A problem at its start, within its ranges, and an answer to it.
#[derive(Clone, Copy)]
pub struct Case<'a> {
    pub entries: &'a [i32; Tableau::MOST_ENTRIES],
    pub limits: &'a Limits,
    pub rows: usize,
    pub columns: usize,
    pub answer: &'a [i64],
    pub ghost in_ranges: { InRanges entries.now limits.now rows columns },
}

/// A number and its small part are at most others, or strictly below them. Both tests are asked, so nothing branches.
pub fn clears(strict: bool, less: (i64, i64), more: (i64, i64)) -> bool
    ensures { result ≡ evidence.clears strict less more }
{
    (strict & (less < more)) | (!strict & (less <= more))
}

/// How large the problem is that words are, where its answer has `head` words and `each` more for each variable.
pub fn judge(words: &[i32], answer: &[i64], head: usize, each: usize) -> Result<Size, Refusal>
    requires { (head ≤ 6) × (each ≤ 8) }
    ensures number { told_by result ≡ case_refusal words.now (length answer.now) head each }
    ensures sized { IfOk result (λ size. SizesOf words.now answer.now head each size.rows size.columns) }
{
    judge::judge(words)?;
    let columns = count_at(words, 0);
    let rows = count_at(words, 1);
    if answer.len() < head + each * (columns + rows) {
        return Err(Refusal::ShortRoom);
    }
    Ok(Size { rows, columns })
}
