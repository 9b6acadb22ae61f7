// Limits, put where a writer stands.
ghost use Rattle.std.specs.Prelude.{◌≡◌, ◌+◌, length};
ghost use Rattle.rules.specs.Program.Text.{lines_below};
ghost use Rattle.rules.specs.Exchange.Script.{limits_text};
ghost use Rattle.judge.specs.Words.{Framed};
ghost use Rattle.put.specs.Put.{Put, Room};
ghost use Rattle.exchange.specs.Pieces.{limit_piece, limits_piece, lower_limit, relation_text, upper_limit};

use crate::names::{Name, put_name, put_value};
use crate::texts::{ASSERT_LIMIT, END_ASSERT, LESS, MORE, NO_LESS, NO_MORE};
use put::Writer;

// How a value stands to a limit that it meets.
#[derive(Clone, Copy, Debug, PartialEq, Eq)]
enum Relation {
    NoLess,
    More,
    NoMore,
    Less,
}

// A limit as it is written.
#[derive(Clone, Copy, Debug, PartialEq, Eq)]
struct Limit {
    relation: Relation,
    number: i32,
}

fn put_relation(out: &mut Writer, relation: Relation)
    requires { Room out.old (relation_text relation) }
    ensures { Put out.old (relation_text relation) out.new }
{
    match relation {
        Relation::NoLess => out.text(&NO_LESS),
        Relation::More => out.text(&MORE),
        Relation::NoMore => out.text(&NO_MORE),
        Relation::Less => out.text(&LESS),
    }
}

// A limit that is missing has no text.
fn put_limit(out: &mut Writer, name: Name, limit: Option<Limit>)
    requires { Room out.old (limit_piece name limit) }
    ensures { Put out.old (limit_piece name limit) out.new }
{
    let Some(limit) = limit else {
        return;
    };
    out.text(&ASSERT_LIMIT);
    put_relation(out, limit.relation);
    out.byte(b' ');
    put_name(out, name);
    out.byte(b' ');
    put_value(out, limit.number);
    out.text(&END_ASSERT);
}

// The lower limit, from its variable's kind.
fn lower_limit(kind: i32, number: i32) -> Option<Limit>
    ensures { result ≡ lower_limit kind number }
{
    if !judge::has_lower(kind) {
        return None;
    }
    if judge::strict_lower(kind) {
        return Some(Limit {
            relation: Relation::More,
            number,
        });
    }
    Some(Limit {
        relation: Relation::NoLess,
        number,
    })
}

// The upper one.
fn upper_limit(kind: i32, number: i32) -> Option<Limit>
    ensures { result ≡ upper_limit kind number }
{
    if !judge::has_upper(kind) {
        return None;
    }
    if judge::strict_upper(kind) {
        return Some(Limit {
            relation: Relation::Less,
            number,
        });
    }
    Some(Limit {
        relation: Relation::NoMore,
        number,
    })
}

// The two limits of a variable, from their three words, the lower one first.
fn put_limits(out: &mut Writer, name: Name, limits: &[i32])
    requires limits_len { length limits.now ≡ 3 }
    requires room { Room out.old (limits_piece name limits.now) }
    ensures { Put out.old (limits_piece name limits.now) out.new }
{
    put_limit(out, name, lower_limit(limits[0], limits[1]));
    put_limit(out, name, upper_limit(limits[0], limits[2]));
}

// Those of every variable.
pub fn put_all_limits(out: &mut Writer, words: &[i32], columns: usize, rows: usize)
    requires framed { Framed words.now columns rows }
    requires room { Room out.old (lines_below (columns + rows) (limits_text words.now)) }
    ensures { Put out.old (lines_below (columns + rows) (limits_text words.now)) out.new }
{
    let all = &words[2 + rows * columns..];
    for (variable, limits) in all.chunks_exact(3).enumerate() {
        put_limits(out, Name::of(columns, variable), limits);
    }
}
