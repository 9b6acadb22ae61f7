// The way back along the rows that bettered each vertex last, from a vertex that the last pass bettered. It ends at a
// vertex that no row has bettered, or meets one again, and so closes a cycle of rows whose lengths sum below 0.
ghost use Rattle.times.specs.Steps.{Tried, Back};

use crate::NO_ROW;
use lengths::MOST_VERTICES;
use lengths::answer::Way;
use timerows::rows::TimeRows;

// The way that closed a cycle, or how many places were left where it ended.
pub fn way_back(rows: &TimeRows, last: [u32; MOST_VERTICES], v: usize) -> Result<Way, usize>
    requires { Tried rows.now.words.now last v }
    ensures { Back rows.now.words.now last v result }
{
    let mut seen = [0u8; MOST_VERTICES];
    let mut path = [0u16; MOST_VERTICES];
    let mut here = v;
    let mut left = rows.n();
    loop {
        let mark = usize::from(seen[here]);
        if mark != 0 {
            return Ok(Way {
                from: left,
                to: mark,
                path,
            });
        }
        let i = last[here];
        if i == NO_ROW {
            return Err(left);
        }
        let place = left - 1;
        seen[here] = left as u8;
        path[place] = i as u16;
        here = rows.tail(i as usize);
        left = place;
    }
}
