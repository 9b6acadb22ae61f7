// A bad cycle: word 1 is how many rows, from 1 to n; then come the rows, and zeros.
ghost use Rattle.std.specs.Prelude.{◌≡◌, not, ◌&&◌, ◌||◌, suc, ◌+◌, ◌*◌, ◌-◌, ◌≤◌, ◌<◌, ltb, pos, length};
ghost use Rattle.whole.specs.Below.{all_below};
ghost use Rattle.std.specs.Int.Signed.{lt_z};
ghost use Rattle.whole.specs.Numbers.{eq_z, is_neg};
ghost use Rattle.rules.specs.Problem.{word};
ghost use Rattle.rules.specs.Sizes.{most_vertices};
ghost use Rattle.rules.specs.Times.Words.{times_length};
ghost use Rattle.rules.specs.Times.Check.{cycle_shown, row_named};
ghost use Rattle.timecheck.specs.Walk.{Named, Summable, bad_round, head_named, is_between, linked_at, new_up_to};
ghost use Rattle.timecheck.specs.Walk.{tail_named, word_sum};

use timerows::rows::TimeRows;
use words::is_outside;

// Whether a word is the number of one of so many rows.
fn is_row(word: i64, most: i64) -> bool
    ensures { result ≡ (not (is_neg word) && lt_z word most) }
{
    (0..most).contains(&word)
}

// Whether the first so many words past word 1 are numbers of rows.
fn rows_named(answer: &[i64], count: usize, most: i64) -> bool
    requires { (count ≤ most_vertices) × (2 + count ≤ length answer.now) }
    ensures { result ≡ all_below count (is_between answer.now most) }
{
    (0..count).all(|k| is_row(answer[2 + k], most))
}

// Whether past the rows there are zeros.
fn zeros_after(answer: &[i64], count: usize, room: usize) -> bool
    requires { (room ≤ 2 * most_vertices) × (2 + room ≤ length answer.now) }
    ensures { result ≡ all_below room (λ k. ltb k count || eq_z (word answer.now (2 + k)) (pos 0)) }
{
    (0..room).all(|k| k < count || answer[2 + k] == 0)
}

// Whether lengths sum below 0, or to 0 with a strict row.
fn is_bad(plain: i64, strict: i64) -> bool
    ensures { result ≡ bad_round plain strict }
{
    (plain < 0) | (!(0 < plain) & (0 < strict))
}

// The rows that an answer names, one after the other.
#[derive(Clone, Copy)]
struct Cycle<'a> {
    rows: &'a TimeRows<'a>,
    answer: &'a [i64],
    count: usize,
    ghost named: { Named rows.now.words.now answer.now count },
}

impl Cycle<'_> {
    // A row of the cycle, where it starts and where it leads.
    fn row(&self, k: usize) -> usize
        requires { k < self.now.count }
        ensures { result ≡ row_named self.now.answer.now k }
    {
        self.answer[2 + k].cast_unsigned() as usize
    }

    fn tail(&self, k: usize) -> usize
        requires { k < self.now.count }
        ensures { result ≡ tail_named self.now.rows.now.words.now self.now.answer.now k }
    {
        self.rows.tail(self.row(k))
    }

    fn head(&self, k: usize) -> usize
        requires { k < self.now.count }
        ensures { result ≡ head_named self.now.rows.now.words.now self.now.answer.now k }
    {
        self.rows.head(self.row(k))
    }

    // Whether one row leads to where another starts.
    fn is_linked(&self, j: usize, k: usize) -> bool
        requires { (j < self.now.count) × (k < self.now.count) }
        ensures { result ≡ linked_at self.now.rows.now.words.now self.now.answer.now j k }
    {
        self.head(j) == self.tail(k)
    }

    // Whether each of the first rows leads to the next.
    fn all_linked(&self, last: usize) -> bool
        requires { last + 1 ≤ self.now.count }
        ensures { result ≡ all_below last (λ k. linked_at self.now.rows.now.words.now self.now.answer.now k (suc k)) }
    {
        (0..last).all(|k| self.is_linked(k, k + 1))
    }

    // Whether no row before one starts where it does.
    fn is_new(&self, k: usize) -> bool
        requires { k < self.now.count }
        ensures { result ≡ new_up_to self.now.rows.now.words.now self.now.answer.now k k }
    {
        let here = self.tail(k);
        (0..k).all(|j| self.tail(j) != here)
    }

    // Whether no two rows start at one vertex.
    fn all_new(&self) -> bool
        ensures { result
            ≡ all_below self.now.count (λ k. new_up_to self.now.rows.now.words.now self.now.answer.now k k) }
    {
        (0..self.count).all(|k| self.is_new(k))
    }

    // A word of each row, summed.
    fn word_sum(&self, at: usize) -> i64
        requires { Summable self.now.rows.now.words.now at }
        ensures { result ≡ word_sum self.now.rows.now.words.now self.now.answer.now at self.now.count }
    {
        let mut sum = 0i64;
        for k in 0..self.count {
            sum += i64::from(self.rows.words[at + 4 * self.row(k)]);
        }
        sum
    }
}

pub fn shows_cycle(rows: &TimeRows, answer: &[i64]) -> bool
    requires { times_length rows.now.words.now ≤ length answer.now }
    ensures { result ≡ cycle_shown rows.now.words.now answer.now }
{
    let n = rows.n();
    let told = answer[1];
    if is_outside(told, 1, n as i64) {
        return false;
    }
    let count = told.unsigned_abs() as usize;
    if !rows_named(answer, count, rows.m() as i64) {
        return false;
    }
    let cycle = Cycle {
        rows,
        answer,
        count,
    };
    let last = count - 1;
    if !cycle.all_linked(last) {
        return false;
    }
    if !cycle.is_linked(last, 0) {
        return false;
    }
    if !cycle.all_new() {
        return false;
    }
    if !is_bad(cycle.word_sum(5), cycle.word_sum(4)) {
        return false;
    }
    zeros_after(answer, count, 2 * n)
}
