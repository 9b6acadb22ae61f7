// The whole text of a problem, put where a writer stands.
ghost use Rattle.std.specs.Prelude.{◌≡◌};
ghost use Rattle.rules.specs.Refusal.{problem_refusal};
ghost use Rattle.rules.specs.Exchange.Script.{exchange_text};
ghost use Rattle.put.specs.Put.{Put, Room};

use crate::limits::put_all_limits;
use crate::rows::{put_declarations, put_rows};
use crate::texts::{CHECK_SAT, SET_LOGIC};
use put::Writer;
use words::count_at;

pub fn put_script(out: &mut Writer, words: &[i32])
    requires accepted { problem_refusal words.now ≡ 0 }
    requires room { Room out.old (exchange_text words.now) }
    ensures { Put out.old (exchange_text words.now) out.new }
{
    let columns = count_at(words, 0);
    let rows = count_at(words, 1);
    out.text(&SET_LOGIC);
    put_declarations(out, columns, columns + rows);
    put_rows(out, words, columns, rows);
    put_all_limits(out, words, columns, rows);
    out.text(&CHECK_SAT);
}
