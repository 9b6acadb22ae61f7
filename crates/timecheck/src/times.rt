// Times: word 1 is n, and the pairs that follow meet every row. A difference of two words may have more than 64 bits:
// it is taken in limbs.
ghost use Rattle.std.specs.Prelude.{◌≡◌, false, ◌≤◌, ◌<◌, pos, ◌-ℤ◌, length};
ghost use Rattle.whole.specs.Numbers.{Within};
ghost use Rattle.rules.specs.Evidence.{clears};
ghost use Rattle.rules.specs.Problem.{m_of};
ghost use Rattle.rules.specs.Sizes.{largest_length};
ghost use Rattle.rules.specs.Times.Words.{times_length};
ghost use Rattle.limbs.specs.Limbs.{sign_of};
ghost use Rattle.rules.specs.Times.Check.{row_met, times_shown};

use limbs::Wide;
use timerows::rows::TimeRows;

// The sign of c - (a - b).
fn gap(a: i64, b: i64, c: i64) -> i64
    requires { Within c largest_length }
    ensures { result ≡ sign_of (c -ℤ (a -ℤ b)) }
{
    let apart = Wide::of(a).less(Wide::of(b));
    let left = Wide::of(c).less(apart);
    left.sign()
}

// By two signs, whether a pair is at most another.
fn at_most(plain: i64, small: i64) -> bool
    ensures { result ≡ clears false (pos 0, pos 0) (plain, small) }
{
    (0 < plain) | (!(plain < 0) & !(small < 0))
}

// The times of a row's two vertices are apart by at most the length of the row.
fn row_met(rows: &TimeRows, answer: &[i64], i: usize) -> bool
    requires row { i < m_of rows.now.words.now }
    requires rows_in_bounds { times_length rows.now.words.now ≤ length answer.now }
    ensures { result ≡ row_met rows.now.words.now answer.now i }
{
    let n = rows.n();
    let x = rows.tail(i);
    let y = rows.head(i);
    let span = i64::from(rows.span(i));
    let strict = i64::from(rows.strict(i));
    let plain = gap(answer[2 + x], answer[2 + y], span);
    let small = gap(answer[2 + n + x], answer[2 + n + y], -strict);
    at_most(plain, small)
}

pub fn shows_times(rows: &TimeRows, answer: &[i64]) -> bool
    requires { times_length rows.now.words.now ≤ length answer.now }
    ensures { result ≡ times_shown rows.now.words.now answer.now }
{
    if answer[1] != rows.n() as i64 {
        return false;
    }
    (0..rows.m()).all(|i| row_met(rows, answer, i))
}
