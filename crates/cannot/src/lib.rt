// Verdict 2: multipliers of the limits whose sum is a contradiction. The loops are made as those of verdict 1.
#![tactic(auto)]

ghost use Rattle.std.specs.Prelude.{◌≡◌, ◌+◌, ◌*◌, ◌≤◌, ◌<◌, ◌*ℤ◌, length};
ghost use Rattle.whole.specs.Numbers.{Within};
ghost use Rattle.rules.specs.Sizes.{largest_limit};
ghost use Rattle.rules.specs.Sizes.{largest_number, most_variables};
ghost use Rattle.rules.specs.Evidence.{fair, plain_of, strict_named, shows_cannot};
ghost use Rattle.amounts.specs.Amounts.{limit_in};
ghost use Rattle.parts.specs.Reads.{problem_of, Multiplied, balance_at, column_at_entries};
ghost use Rattle.parts.specs.Reads.{multipliers_fair, columns_cancel, surplus_of, some_named};

use amounts::Given;
use layout::{ColumnPlace, RowPlace};
use parts::Case;
use tableau::{Limits, Tableau, Variable};
use words::is_outside;

// A multiplier is in its range, and 0 where its limit is missing.
fn fair(limit: Given, k: i64) -> bool
    ensures { result ≡ fair (limit_in limit) k }
{
    (limit.on & !is_outside(k, 0, Tableau::LARGEST_NUMBER)) | (k == 0)
}

fn multipliers_fair(case: &Case<'_>) -> bool
    requires { 3 + 2 * (case.now.columns + case.now.rows) ≤ length case.now.answer.now }
    ensures { result ≡ multipliers_fair case.now.limits.now case.now.answer.now (case.now.columns + case.now.rows) }
{
    let variables = case.columns + case.rows;
    let mut fine = true;
    // Kept: two limits and two words are read at each number, here and below, and a zip of four lists is no plainer.
    for v in 0..variables {
        let first = fair(case.limits.lower[v], case.answer[3 + v]);
        let second = fair(case.limits.upper[v], case.answer[3 + variables + v]);
        fine = fine & (first & second);
    }
    fine
}

// The lower less the upper multiplier of a variable.
fn balance(case: &Case<'_>, variable: Variable) -> i64
    requires variable_lt_variables { variable.0 < case.now.columns + case.now.rows }
    requires long { 3 + 2 * (case.now.columns + case.now.rows) ≤ length case.now.answer.now }
    requires multiplied { Multiplied case.now.answer.now (case.now.columns + case.now.rows) }
    ensures { result ≡ balance_at case.now.answer.now (case.now.columns + case.now.rows) variable.0 }
{
    let variables = case.columns + case.rows;
    let v = variable.0 as usize;
    case.answer[3 + v] - case.answer[3 + variables + v]
}

// .. of a column's own variable. Variable j of a problem starts in column j: this is where the one becomes the other.
fn own_balance(case: &Case<'_>, column: ColumnPlace) -> i64
    requires column_lt_variables { column.0 < case.now.columns + case.now.rows }
    requires long { 3 + 2 * (case.now.columns + case.now.rows) ≤ length case.now.answer.now }
    requires multiplied { Multiplied case.now.answer.now (case.now.columns + case.now.rows) }
    ensures { result ≡ balance_at case.now.answer.now (case.now.columns + case.now.rows) column.0 }
{
    balance(case, Variable(column.0))
}

// A column of the multipliers put through the rows.
fn column_sum(case: &Case<'_>, column: ColumnPlace) -> i64
    requires column_lt_columns { column.0 < case.now.columns }
    requires long { 3 + 2 * (case.now.columns + case.now.rows) ≤ length case.now.answer.now }
    requires multiplied { Multiplied case.now.answer.now (case.now.columns + case.now.rows) }
    ensures { result
        ≡ column_at_entries case.now.entries.now case.now.answer.now case.now.rows case.now.columns column.0 }
{
    let mut sum = own_balance(case, column);
    for i in 0..case.rows {
        let k = layout::place(case.rows, case.columns, RowPlace(i as u8), column);
        let e = case.entries[k];
        sum += e as i64 * balance(case, Variable((case.columns + i) as u8));
    }
    sum
}

// Every column cancels.
fn columns_cancel(case: &Case<'_>) -> bool
    requires long { 3 + 2 * (case.now.columns + case.now.rows) ≤ length case.now.answer.now }
    requires multiplied { Multiplied case.now.answer.now (case.now.columns + case.now.rows) }
    ensures { result ≡ columns_cancel case.now.entries.now case.now.answer.now case.now.rows case.now.columns }
{
    let mut fine = true;
    for j in 0..case.columns {
        fine = fine & (column_sum(case, ColumnPlace(j as u8)) == 0);
    }
    fine
}

// A multiplier times its limit's number, or 0 where that is missing.
fn weighed(limit: Given, k: i64) -> i64
    requires { (Within limit.plain largest_limit) × (Within k largest_number) }
    ensures { result ≡ plain_of (limit_in limit) *ℤ k }
{
    if limit.on {
        return limit.plain as i64 * k;
    }
    0
}

// What the multipliers make of the numbers of the limits: those of lower ones added, those of upper ones taken away.
fn surplus(case: &Case<'_>) -> i64
    requires long { 3 + 2 * (case.now.columns + case.now.rows) ≤ length case.now.answer.now }
    requires multiplied { Multiplied case.now.answer.now (case.now.columns + case.now.rows) }
    ensures { result ≡ surplus_of case.now.limits.now case.now.answer.now (case.now.columns + case.now.rows) }
{
    let variables = case.columns + case.rows;
    let mut sum = 0;
    for v in 0..variables {
        let gain = weighed(case.limits.lower[v], case.answer[3 + v]);
        let loss = weighed(case.limits.upper[v], case.answer[3 + variables + v]);
        sum += gain - loss;
    }
    sum
}

// A strict limit has a multiplier other than 0.
fn strict_named(limit: Given, k: i64) -> bool
    ensures { result ≡ strict_named (limit_in limit) k }
{
    limit.on & (limit.strict & (k != 0))
}

// Some strict limit has. It takes what it reads, and no case: it stays a call, and entries whose place goes into a call
// are copied once more.
fn some_named(limits: &Limits, answer: &[i64], variables: usize) -> bool
    requires { (variables ≤ most_variables) × (3 + 2 * variables ≤ length answer.now) }
    ensures { result ≡ some_named limits.now answer.now variables }
{
    let mut found = false;
    for v in 0..variables {
        let first = strict_named(limits.lower[v], answer[3 + v]);
        let second = strict_named(limits.upper[v], answer[3 + variables + v]);
        found = found | (first | second);
    }
    found
}

/// The words are right and within the ranges for verdict 2.
pub fn shows_cannot(case: &Case<'_>) -> bool
    requires { 3 + 2 * (case.now.columns + case.now.rows) ≤ length case.now.answer.now }
    ensures { result ≡ shows_cannot (problem_of case.now.entries.now case.now.limits.now case.now.rows case.now.columns)
        case.now.answer.now }
{
    if case.answer[2] != 0 {
        return false;
    }
    if !multipliers_fair(case) {
        return false;
    }
    if !columns_cancel(case) {
        return false;
    }
    let total = surplus(case);
    if total != 0 {
        return 0 < total;
    }
    case.limits.strict && some_named(case.limits, case.answer, case.columns + case.rows)
}
