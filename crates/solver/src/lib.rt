// The limit solver: from lent words to the answer of docs/RULES.md, "The run".
#![tactic(auto)]

ghost use Rattle.std.specs.Prelude.{◌≡◌, length};
ghost use Rattle.refusals.specs.Numbers.{number_told};
ghost use Rattle.rules.specs.Answer.{written};
ghost use Rattle.rules.specs.Refusal.{refusal, refusal_within, rows_within};

use refusals::Refusal;
use tableau::Tableau;
use words::count_at;

mod run;
pub mod spend;

/// Judges the words, and answers the problem that they are: why they are refused, or the answer in `out`. A problem has
/// at most `most` rows; a number above the most rows stands for these.
pub fn solve_within(most: u32, words: &[i32], out: &mut [i64]) -> Result<(), Refusal>
    ensures number { number_told result ≡ refusal_within (rows_within most) words.now (length out.old) }
    ensures output { out.new ≡ written (number_told result) words.now out.old }
{
    let rows = most.min(rules::MOST_ROWS as u32);
    judge::judge_within(rows, words)?;
    let variables = count_at(words, 0) + count_at(words, 1);
    if answers::is_short(out.len(), variables) {
        return Err(Refusal::ShortRoom);
    }
    let t = Tableau::new(words);
    spend::spend(t, 0, usize::MAX, true, out);
    Ok(())
}

/// .. with up to the most rows.
pub fn solve(words: &[i32], out: &mut [i64]) -> Result<(), Refusal>
    ensures number { number_told result ≡ refusal words.now (length out.old) }
    ensures output { out.new ≡ written (number_told result) words.now out.old }
{
    solve_within(rules::MOST_ROWS as u32, words, out)
}
