// The lines of a sheet, put by a writer.
ghost use Rattle.std.specs.Prelude.{◌+◌, pos};
ghost use Rattle.rules.specs.Program.Text.{line};
ghost use Rattle.rules.specs.Sheet.Text.{body_name, largest_line, named_line, refused_line, refused_lines};
ghost use Rattle.put.specs.Put.{Put, Room};
ghost use Rattle.sheet.specs.Lines.{count_at, count_lines, reached_name, named_lines, sheet_of};

use put::Writer;
use tally::Totals;

// A name and a count.
fn put_count(out: &mut Writer, name: &[u8], count: u64)
    requires { Room out.old (line name.now (pos count)) }
    ensures { Put out.old (line name.now (pos count)) out.new }
{
    out.text(name);
    out.digits(count);
    out.byte(b'\n');
}

// The bodies, and those of each verdict.
fn put_counts(out: &mut Writer, totals: Totals)
    requires { Room out.old (count_lines totals) }
    ensures { Put out.old (count_lines totals) out.new }
{
    put_count(out, b"bodies ", totals.bodies);
    put_count(out, b"can ", totals.can);
    put_count(out, b"cannot ", totals.cannot);
    put_count(out, b"range ", totals.range);
}

// A refusal, and how often it came.
fn put_refused(out: &mut Writer, number: u64, count: u64)
    requires { Room out.old (refused_line number count) }
    ensures { Put out.old (refused_line number count) out.new }
{
    out.text(b"refused ");
    out.digits(number);
    put_count(out, b" ", count);
}

// Refusals 1 to 6, then 10.
fn put_refusals(out: &mut Writer, refused: [u64; tally::REFUSALS])
    requires { Room out.old (refused_lines (count_at refused)) }
    ensures { Put out.old (refused_lines (count_at refused)) out.new }
{
    for j in 0..6usize {
        let k = j + 1;
        put_refused(out, k as u64, refused[k]);
    }
    put_refused(out, 10, refused[10]);
}

// The body that reached the largest, or `none`.
fn put_reached(out: &mut Writer, reached: Option<usize>)
    requires { Room out.old (body_name (reached_name reached)) }
    ensures { Put out.old (body_name (reached_name reached)) out.new }
{
    match reached {
        None => out.text(b"none"),
        Some(body) => out.digits(body as u64),
    }
}

// The most pivots, and who reached them.
fn put_largest(out: &mut Writer, largest: u64, reached: Option<usize>)
    requires { Room out.old (largest_line largest (reached_name reached)) }
    ensures { Put out.old (largest_line largest (reached_name reached)) out.new }
{
    out.text(b"largest ");
    out.digits(largest);
    out.text(b" body ");
    put_reached(out, reached);
    out.byte(b'\n');
}

// A variable, and how often its limits were named.
fn put_named(out: &mut Writer, variable: u64, lower: u64, upper: u64)
    requires { Room out.old (named_line variable lower upper) }
    ensures { Put out.old (named_line variable lower upper) out.new }
{
    out.digits(variable);
    out.text(b" lower ");
    out.digits(lower);
    put_count(out, b" upper ", upper);
}

// All variables.
fn put_names(
    out: &mut Writer,
    lower: [u64; rules::MOST_VARIABLES],
    upper: [u64; rules::MOST_VARIABLES],
)
    requires { Room out.old (named_lines lower upper) }
    ensures { Put out.old (named_lines lower upper) out.new }
{
    for v in 0..rules::MOST_VARIABLES {
        put_named(out, v as u64, lower[v], upper[v]);
    }
}

// The whole sheet.
pub fn put_sheet(out: &mut Writer, totals: Totals)
    requires { Room out.old (sheet_of totals) }
    ensures { Put out.old (sheet_of totals) out.new }
{
    let refused = totals.refused;
    let lower = totals.lower;
    let upper = totals.upper;
    put_counts(out, totals);
    put_refusals(out, refused);
    put_count(out, b"pivots ", totals.pivots);
    put_largest(out, totals.largest, totals.reached);
    put_names(out, lower, upper);
}
