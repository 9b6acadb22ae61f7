// The whole text of an answer, put by a writer.
ghost use Rattle.std.specs.Prelude.{◌+◌, ◌*◌, ◌^◌, ◌≤◌, ◌<◌, length};
ghost use Rattle.rules.specs.Sizes.{most_variables, most_pivots_line, most_value_line, most_multiplier_lines};
ghost use Rattle.rules.specs.Sizes.{most_text};
ghost use Rattle.rules.specs.Program.Text.{lines_below, head_lines, value_line, multiplier_lines};
ghost use Rattle.rules.specs.Program.Text.{can_text, cannot_text, answer_text};
ghost use Rattle.put.specs.Put.{PutShort};

use crate::line::{put_line, put_multipliers, put_value};
use put::Writer;

// The numerators, by variable.
fn put_values(out: &mut Writer, answer: &[i64], variables: usize)
    requires { (variables ≤ most_variables) × (3 + 2 * variables ≤ length answer.now)
        × (out.old.at + most_value_line * most_variables < 2 ^ 64) }
    ensures { PutShort (most_value_line * variables) out.old
        (lines_below variables (value_line answer.now variables)) out.new }
{
    for v in 0..variables {
        put_value(out, answer, variables, v);
    }
}

// The multipliers, by variable.
fn put_evidence(out: &mut Writer, answer: &[i64], variables: usize)
    requires { (variables ≤ most_variables) × (3 + 2 * variables ≤ length answer.now)
        × (out.old.at + most_multiplier_lines * most_variables < 2 ^ 64) }
    ensures { PutShort (most_multiplier_lines * variables) out.old
        (lines_below variables (multiplier_lines answer.now variables)) out.new }
{
    for v in 0..variables {
        put_multipliers(out, answer, variables, v);
    }
}

// The verdict's line and the pivots.
fn put_head(out: &mut Writer, verdict: &[u8], answer: &[i64])
    requires { (3 ≤ length answer.now) × (out.old.at + (length verdict.now + most_pivots_line) < 2 ^ 64) }
    ensures { PutShort (length verdict.now + most_pivots_line) out.old
        (head_lines verdict.now answer.now) out.new }
{
    let pivots = answer[1];
    out.text(verdict);
    put_line(out, b"pivots ", pivots);
}

// Verdict 1.
fn put_can(out: &mut Writer, answer: &[i64], variables: usize)
    requires { (variables ≤ most_variables) × (3 + 2 * variables ≤ length answer.now)
        × (out.old.at + most_text < 2 ^ 64) }
    ensures { PutShort most_text out.old (can_text answer.now variables) out.new }
{
    put_head(out, b"can\n", answer);
    put_line(out, b"over ", answer[2]);
    put_values(out, answer, variables);
}

// Verdict 2.
fn put_cannot(out: &mut Writer, answer: &[i64], variables: usize)
    requires { (variables ≤ most_variables) × (3 + 2 * variables ≤ length answer.now)
        × (out.old.at + most_text < 2 ^ 64) }
    ensures { PutShort most_text out.old (cannot_text answer.now variables) out.new }
{
    put_head(out, b"cannot\n", answer);
    put_evidence(out, answer, variables);
}

// The text that the verdict asks for.
pub fn put_answer(out: &mut Writer, answer: &[i64], variables: usize)
    requires { (variables ≤ most_variables) × (3 + 2 * variables ≤ length answer.now)
        × (out.old.at + most_text < 2 ^ 64) }
    ensures { PutShort most_text out.old (answer_text answer.now variables) out.new }
{
    let verdict = answer[0];
    if verdict == 1 {
        put_can(out, answer, variables);
    } else if verdict == 2 {
        put_cannot(out, answer, variables);
    } else {
        put_head(out, b"range\n", answer);
    }
}
