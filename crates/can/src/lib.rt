// Verdict 1: numerators and small parts over one denominator that meet every row and every limit. A half of the answer
// is a slice that has one of the two from word 3 on: the answer itself, and what is left of it past one word for each
// variable. A loop asks its tests of every variable and joins the answers, so that nothing in it branches.
#![tactic(auto)]

ghost use Rattle.std.specs.Prelude.{◌≡◌, ℕ, ◌+◌, ◌*◌, ◌≤◌, ◌<◌, pos, nat_abs, ◌*ℤ◌, length, ◌≤ℤ◌};
ghost use Rattle.whole.specs.Numbers.{Within};
ghost use Rattle.rules.specs.Sizes.{largest_limit};
ghost use Rattle.rules.specs.Sizes.{largest_number, largest_numerator, largest_small};
ghost use Rattle.rules.specs.Evidence.{lower_part, at_least, at_most, shows_can};
ghost use Rattle.amounts.specs.Amounts.{limit_in};
ghost use Rattle.parts.specs.Reads.{problem_of, row_sum_at};
ghost use Rattle.parts.specs.Reads.{numerators_fit, rows_hold, half_holds, is_zero, limits_hold};

use amounts::Given;
use layout::{ColumnPlace, RowPlace};
use parts::{Case, clears};
use tableau::Tableau;
use words::is_outside;

// Each number of a half is within its range.
fn numerators_fit(half: &[i64], variables: usize, largest: i64) -> bool
    requires long { 3 + variables ≤ length half.now }
    requires pos_bound { (pos 0 ≤ℤ largest) × (Within largest largest_numerator) }
    ensures { result ≡ numerators_fit (nat_abs largest) half.now variables }
{
    let mut fine = true;
    for x in &half[3..3 + variables] {
        fine = fine & !is_outside(*x, -largest, largest);
    }
    fine
}

// The sum of a row over the numbers of the problem's variables.
fn row_sum(case: &Case<'_>, half: &[i64], row: RowPlace) -> i64
    requires row_lt_rows { (row.0 < case.now.rows) × (3 + case.now.columns ≤ length half.now) }
    requires by_index { (v : ℕ) → v < case.now.columns → Within (lower_part half.now v) largest_numerator }
    ensures { result ≡ row_sum_at case.now.entries.now half.now case.now.rows case.now.columns row.0 }
{
    let mut sum = 0;
    for (j, x) in half[3..3 + case.columns].iter().enumerate() {
        let k = layout::place(case.rows, case.columns, row, ColumnPlace(j as u8));
        sum += case.entries[k] as i64 * *x;
    }
    sum
}

// The number of each row's variable equals its row's sum.
fn rows_hold(case: &Case<'_>, half: &[i64]) -> bool
    requires long { 3 + (case.now.columns + case.now.rows) ≤ length half.now }
    requires by_index { (v : ℕ) → v < case.now.columns → Within (lower_part half.now v) largest_numerator }
    ensures { result ≡ rows_hold case.now.entries.now half.now case.now.rows case.now.columns }
{
    let mut fine = true;
    let first = 3 + case.columns;
    for (i, x) in half[first..first + case.rows].iter().enumerate() {
        fine = fine & (*x == row_sum(case, half, RowPlace(i as u8)));
    }
    fine
}

// The numbers of a half are within their range, and the rows hold of them.
fn half_holds(case: &Case<'_>, half: &[i64], largest: i64) -> bool
    requires long { 3 + (case.now.columns + case.now.rows) ≤ length half.now }
    requires pos_bound { (pos 0 ≤ℤ largest) × (Within largest largest_numerator) }
    ensures { result ≡ half_holds (nat_abs largest) case.now.entries.now half.now case.now.rows case.now.columns }
{
    numerators_fit(half, case.columns + case.rows, largest) && rows_hold(case, half)
}

// Each number of a half is 0.
fn is_zero(half: &[i64], variables: usize) -> bool
    requires { 3 + variables ≤ length half.now }
    ensures { result ≡ is_zero half.now variables }
{
    let mut fine = true;
    for x in &half[3..3 + variables] {
        fine = fine & (*x == 0);
    }
    fine
}

// The half of the small parts holds. Zeros do, as they mostly are.
fn smalls_hold(case: &Case<'_>, half: &[i64]) -> bool
    requires { 3 + (case.now.columns + case.now.rows) ≤ length half.now }
    ensures { result ≡ half_holds largest_small case.now.entries.now half.now case.now.rows case.now.columns }
{
    is_zero(half, case.columns + case.rows) || half_holds(case, half, Tableau::LARGEST_SMALL)
}

// A limit's number over a denominator.
fn scaled(denominator: i64, limit: Given) -> i64
    requires { (Within denominator largest_number) × (Within limit.plain largest_limit) }
    ensures { result ≡ denominator *ℤ limit.plain }
{
    denominator * limit.plain as i64
}

// A numerator and its small part, over a denominator, against a limit that may be missing. A strict limit wants more
// than its own number.
fn at_least(denominator: i64, x: i64, small: i64, limit: Given) -> bool
    requires { (Within denominator largest_number) × (Within limit.plain largest_limit) }
    ensures { result ≡ at_least (limit_in limit) denominator (x, small) }
{
    let least = scaled(denominator, limit);
    !limit.on | clears(limit.strict, (least, 0), (x, small))
}

fn at_most(denominator: i64, x: i64, small: i64, limit: Given) -> bool
    requires { (Within denominator largest_number) × (Within limit.plain largest_limit) }
    ensures { result ≡ at_most (limit_in limit) denominator (x, small) }
{
    let most = scaled(denominator, limit);
    !limit.on | clears(limit.strict, (x, small), (most, 0))
}

// Every present limit holds.
fn limits_hold(case: &Case<'_>, denominator: i64) -> bool
    requires long { 3 + 2 * (case.now.columns + case.now.rows) ≤ length case.now.answer.now }
    requires within { Within denominator largest_number }
    ensures { result
        ≡ limits_hold case.now.limits.now case.now.answer.now (case.now.columns + case.now.rows) denominator }
{
    let variables = case.columns + case.rows;
    let mut fine = true;
    // Kept: two words and two limits are read at each number, and a zip of four lists is no plainer.
    for v in 0..variables {
        let x = case.answer[3 + v];
        let small = case.answer[3 + variables + v];
        let over = at_least(denominator, x, small, case.limits.lower[v]);
        let under = at_most(denominator, x, small, case.limits.upper[v]);
        fine = fine & (over & under);
    }
    fine
}

/// The words are right and within the ranges for verdict 1.
pub fn shows_can(case: &Case<'_>) -> bool
    requires { 3 + 2 * (case.now.columns + case.now.rows) ≤ length case.now.answer.now }
    ensures { result ≡ shows_can (problem_of case.now.entries.now case.now.limits.now case.now.rows case.now.columns)
        case.now.answer.now }
{
    let denominator = case.answer[2];
    if is_outside(denominator, 1, Tableau::LARGEST_NUMBER) {
        return false;
    }
    if !half_holds(case, case.answer, Tableau::LARGEST_NUMERATOR) {
        return false;
    }
    if !smalls_hold(case, &case.answer[case.columns + case.rows..]) {
        return false;
    }
    limits_hold(case, denominator)
}
