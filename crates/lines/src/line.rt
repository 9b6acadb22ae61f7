// One line, put by a writer.
ghost use Rattle.std.specs.Prelude.{◌+◌, ◌^◌, ◌<◌, length, ◌++◌};
ghost use Rattle.rules.specs.Sizes.{most_variables, most_value_line, most_multiplier_lines};
ghost use Rattle.rules.specs.Program.Text.{ascii, decimal, digits, line, variable_line, multiplier_line, small_end};
ghost use Rattle.rules.specs.Program.Text.{value_line, multiplier_lines};
ghost use Rattle.put.specs.Put.{Put, PutShort, Room};

use put::Writer;

// A name and a number.
pub fn put_line(out: &mut Writer, name: &[u8], n: i64)
    requires { Room out.old (line name.now n) }
    ensures { Put out.old (line name.now n) out.new }
{
    out.text(name);
    out.number(n);
    out.byte(b'\n');
}

// A variable, what stands between, and a number.
fn put_variable(out: &mut Writer, variable: usize, between: &[u8], n: i64)
    requires { Room out.old (variable_line variable between.now n) }
    ensures { Put out.old (variable_line variable between.now n) out.new }
{
    out.digits(variable as u64);
    put_line(out, between, n);
}

// A multiplier of 0 has no line.
fn put_multiplier(out: &mut Writer, variable: usize, between: &[u8], n: i64)
    requires { Room out.old (multiplier_line variable between.now n) }
    ensures { Put out.old (multiplier_line variable between.now n) out.new }
{
    if n != 0 {
        put_variable(out, variable, between, n);
    }
}

// A variable and its numerator.
fn put_numerator(out: &mut Writer, variable: usize, n: i64)
    requires { Room out.old (digits variable ++ ascii " " ++ decimal n) }
    ensures { Put out.old (digits variable ++ ascii " " ++ decimal n) out.new }
{
    out.digits(variable as u64);
    out.byte(b' ');
    out.number(n);
}

// The end of a value's line: its small part, where that is not 0.
fn put_small(out: &mut Writer, n: i64)
    requires { Room out.old (small_end n) }
    ensures { Put out.old (small_end n) out.new }
{
    if n == 0 {
        out.byte(b'\n');
    } else {
        put_line(out, b" ", n);
    }
}

// The numerator of a variable, and its small part's.
pub fn put_value(out: &mut Writer, answer: &[i64], variables: usize, variable: usize)
    requires { (3 + variables + variable < length answer.now) × (variable < most_variables)
        × (out.old.at + most_value_line < 2 ^ 64) }
    ensures { PutShort most_value_line out.old
        (value_line answer.now variables variable) out.new }
{
    let plain = answer[3 + variable];
    let small = answer[3 + variables + variable];
    put_numerator(out, variable, plain);
    put_small(out, small);
}

// The two multipliers of a variable, the lower limit's first.
pub fn put_multipliers(out: &mut Writer, answer: &[i64], variables: usize, variable: usize)
    requires { (3 + variables + variable < length answer.now) × (variable < most_variables)
        × (out.old.at + most_multiplier_lines < 2 ^ 64) }
    ensures { PutShort most_multiplier_lines out.old
        (multiplier_lines answer.now variables variable) out.new }
{
    let lower = answer[3 + variable];
    let upper = answer[3 + variables + variable];
    put_multiplier(out, variable, b" lower ", lower);
    put_multiplier(out, variable, b" upper ", upper);
}
