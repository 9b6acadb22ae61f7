// Passes over the rows, in place: after each, what is known of each vertex. They end when no row betters its head, or
// when the way back closes a cycle.
ghost use Rattle.std.specs.Prelude.{◌≡◌, cond, ◌<◌, ◌+ℤ◌};
ghost use Rattle.rules.specs.Problem.{m_of};
ghost use Rattle.rules.specs.Times.Words.{time_edges};
ghost use Rattle.lengths.specs.Lengths.{length_of, key_of, ModestLength};
ghost use Rattle.times.specs.Steps.{AllModest, Quiet, Settling, is_less};

use crate::NO_ROW;
use crate::cycle::way_back;
use lengths::answer::Way;
use lengths::{Length, MOST_VERTICES};
use timerows::rows::TimeRows;

// What row i offers its head: the distance of its tail, and its length.
fn offer(rows: &TimeRows, i: usize, best: Length) -> Length
    requires { (i < m_of rows.now.words.now) × (ModestLength best) }
    ensures { length_of result ≡ length_of best +ℤ key_of ((time_edges rows.now.words.now).size i) }
{
    best + rows.size(i)
}

// Whether row i betters its head.
fn betters(rows: &TimeRows, best: &[Length; MOST_VERTICES], i: usize) -> bool
    requires { (i < m_of rows.now.words.now) × (AllModest best.now) }
    ensures { result ≡ is_less rows.now.words.now best.now i }
{
    offer(rows, i, best[rows.tail(i)]) < best[rows.head(i)]
}

// Whether no row betters its head.
fn is_quiet(rows: &TimeRows, best: &[Length; MOST_VERTICES]) -> bool
    requires { AllModest best.now }
    ensures { Quiet rows.now.words.now best.now result }
{
    !(0..rows.m()).any(|i| betters(rows, best, i))
}

// One of two, without a branch.
fn select<T: Copy>(is: bool, next: T, other: T) -> T
    ensures { result ≡ cond is next other }
{
    if is { next } else { other }
}

// Passes until no row betters its head, or the way back closes a cycle: the distances, or that way. In a pass each row
// is looked at once; one that leads to a shorter walk betters its head: its distance is kept, and the row. Rows in the
// order of their walks need one pass, and a look alone tells it. The way back is tried after passes 2, 4, 8, ..; sooner
// where it had fewer places left than passes were made. After n passes it has none.
pub fn settle(rows: &TimeRows) -> Result<[Length; MOST_VERTICES], Way>
    ensures { Settling rows.now.words.now result }
{
    let mut best = [Length::NONE; MOST_VERTICES];
    let mut last = [NO_ROW; MOST_VERTICES];
    let mut k = 0;
    let mut due = 2;
    loop {
        let mut row = NO_ROW;
        for i in 0..rows.m() {
            let x = rows.tail(i);
            let y = rows.head(i);
            let offered = offer(rows, i, best[x]);
            let was = best[y];
            let this = i as u32;
            let is = offered < was;
            best[y] = select(is, offered, was);
            last[y] = select(is, this, last[y]);
            row = select(is, this, row);
        }
        if row == NO_ROW {
            return Ok(best);
        }
        k += 1;
        if k == 1 {
            if is_quiet(rows, &best) {
                return Ok(best);
            }
            continue;
        }
        if k != due {
            continue;
        }
        match way_back(rows, last, rows.head(row as usize)) {
            Ok(way) => return Err(way),
            Err(left) => due = k + left.min(k),
        }
    }
}
