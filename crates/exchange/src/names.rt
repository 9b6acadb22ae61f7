// Names and numbers, put where a writer stands.
ghost use Rattle.std.specs.Prelude.{◌≡◌};
ghost use Rattle.rules.specs.Exchange.Script.{number_text};
ghost use Rattle.put.specs.Put.{Put, Room};
ghost use Rattle.exchange.specs.Pieces.{name_at, name_text};

use crate::texts::OPEN_MINUS;
use put::Writer;

// Who is named: a column of the problem or a row, by its number.
#[derive(Clone, Copy, Debug, PartialEq, Eq)]
pub enum Name {
    Column(usize),
    Row(usize),
}

impl Name {
    // Of a variable, where the first `columns` are the problem's.
    pub fn of(columns: usize, variable: usize) -> Name
        ensures { result ≡ name_at columns variable }
    {
        if variable < columns {
            Name::Column(variable)
        } else {
            Name::Row(variable - columns)
        }
    }
}

// A letter and a number.
pub fn put_name(out: &mut Writer, name: Name)
    requires { Room out.old (name_text name) }
    ensures { Put out.old (name_text name) out.new }
{
    match name {
        Name::Column(number) => {
            out.byte(b'x');
            out.digits(number as u64);
        }
        Name::Row(number) => {
            out.byte(b'r');
            out.digits(number as u64);
        }
    }
}

// A number: below 0 its size behind a minus, in parentheses.
pub fn put_value(out: &mut Writer, n: i32)
    requires { Room out.old (number_text n) }
    ensures { Put out.old (number_text n) out.new }
{
    let size = u64::from(n.unsigned_abs());
    if n < 0 {
        out.text(&OPEN_MINUS);
        out.digits(size);
        out.byte(b')');
    } else {
        out.digits(size);
    }
}
