// Verdict 2: multipliers of the limits whose sum is a contradiction.
ghost use Rattle.std.specs.Prelude.{◌≡◌, ◌+◌, ◌*◌, ◌≤◌, ◌<◌, ◌*ℤ◌, length};
ghost use Rattle.whole.specs.Numbers.{Within};
ghost use Rattle.rules.specs.Sizes.{largest_limit};
ghost use Rattle.rules.specs.Sizes.{limb_turn};
ghost use Rattle.rules.specs.Evidence as evidence;
ghost use Rattle.rules.specs.Evidence.{plain_of, right_cannot, strict_named};
ghost use Rattle.rules.specs.Wide.{numbers_of, wide_denominator, wide_lower, wide_upper};
ghost use Rattle.amounts.specs.Amounts.{limit_in};
ghost use Rattle.limbs.specs.Limbs.{LimbsWithin, value};
ghost use Rattle.parts.specs.Reads.{problem_of};
ghost use Rattle.wide.specs.Reads.{AllFormed, balance_in, column_most, column_in, columns_vanish, some_marked};
ghost use Rattle.limbs.specs.Limbs.{StandsFor};
ghost use Rattle.wide.specs.Reads.{all_owed, surplus_in, surplus_most, weight_most};

use crate::numbers::number_at;
use amounts::Given;
use layout::{ColumnPlace, RowPlace};
use limbs::Wide;
use parts::Case;

// A multiplier is at least 0, and 0 where its limit is missing.
fn owed(limit: Given, k: Wide) -> bool
    requires { LimbsWithin k limb_turn }
    ensures { result ≡ evidence.owed (limit_in limit) (value k) }
{
    let sign = k.sign();
    (limit.on & !(sign < 0)) | (sign == 0)
}

fn multipliers_owed(case: &Case<'_>) -> bool
    requires rows_in_bounds { 6 + 8 * (case.now.columns + case.now.rows) ≤ length case.now.answer.now }
    requires all_formed { AllFormed case.now.answer.now (numbers_of (case.now.columns + case.now.rows)) }
    ensures { result ≡ all_owed case.now.limits.now case.now.answer.now (case.now.columns + case.now.rows)
        (case.now.columns + case.now.rows) }
{
    let variables = case.columns + case.rows;
    let mut fine = true;
    // Kept: two numbers and two limits are read at each place, here and below, and a zip of four lists is no plainer.
    for v in 0..variables {
        let low = number_at(case.answer, 1 + v);
        let high = number_at(case.answer, 1 + variables + v);
        let first = owed(case.limits.lower[v], low);
        let second = owed(case.limits.upper[v], high);
        fine = fine & (first & second);
    }
    fine
}

// The lower less the upper multiplier of a variable.
fn balance(case: &Case<'_>, v: usize) -> Wide
    requires v_lt_variables { v < case.now.columns + case.now.rows }
    requires rows_in_bounds { 6 + 8 * (case.now.columns + case.now.rows) ≤ length case.now.answer.now }
    requires all_formed { AllFormed case.now.answer.now (numbers_of (case.now.columns + case.now.rows)) }
    ensures { StandsFor result (balance_in case.now.answer.now (case.now.columns + case.now.rows) v)
        (limb_turn + limb_turn) }
{
    let low = number_at(case.answer, 1 + v);
    let high = number_at(case.answer, 1 + (case.columns + case.rows) + v);
    low.less(high)
}

// A column of the multipliers put through the rows.
fn column_sum(case: &Case<'_>, column: ColumnPlace) -> Wide
    requires column_lt_columns { column.0 < case.now.columns }
    requires rows_in_bounds { 6 + 8 * (case.now.columns + case.now.rows) ≤ length case.now.answer.now }
    requires all_formed { AllFormed case.now.answer.now (numbers_of (case.now.columns + case.now.rows)) }
    ensures { StandsFor result (column_in case.now.entries.now case.now.answer.now case.now.rows case.now.columns
        case.now.rows column.0) column_most }
{
    let mut sum = balance(case, column.0 as usize);
    for i in 0..case.rows {
        let k = layout::place(case.rows, case.columns, RowPlace(i as u8), column);
        let e = case.entries[k];
        let more = balance(case, case.columns + i);
        sum = sum.plus(more.times(e));
    }
    sum
}

// Every column cancels.
fn columns_cancel(case: &Case<'_>) -> bool
    requires rows_in_bounds { 6 + 8 * (case.now.columns + case.now.rows) ≤ length case.now.answer.now }
    requires all_formed { AllFormed case.now.answer.now (numbers_of (case.now.columns + case.now.rows)) }
    ensures { result
        ≡ columns_vanish case.now.entries.now case.now.answer.now case.now.rows case.now.columns case.now.columns }
{
    let mut fine = true;
    for j in 0..case.columns {
        let sum = column_sum(case, ColumnPlace(j as u8));
        fine = fine & sum.is_zero();
    }
    fine
}

// A multiplier times its limit's number, or 0 where that is missing.
fn weighed(limit: Given, k: Wide) -> Wide
    requires { (LimbsWithin k limb_turn) × (Within limit.plain largest_limit) }
    ensures { StandsFor result (plain_of (limit_in limit) *ℤ value k) weight_most }
{
    if limit.on {
        return k.times(limit.plain);
    }
    Wide::zero()
}

// Lower limits times multipliers less upper limits times multipliers.
fn surplus(case: &Case<'_>) -> Wide
    requires rows_in_bounds { 6 + 8 * (case.now.columns + case.now.rows) ≤ length case.now.answer.now }
    requires all_formed { AllFormed case.now.answer.now (numbers_of (case.now.columns + case.now.rows)) }
    ensures { StandsFor result (surplus_in case.now.limits.now case.now.answer.now (case.now.columns + case.now.rows)
        (case.now.columns + case.now.rows)) surplus_most }
{
    let variables = case.columns + case.rows;
    let mut sum = Wide::zero();
    for v in 0..variables {
        let low = number_at(case.answer, 1 + v);
        let high = number_at(case.answer, 1 + variables + v);
        let gain = weighed(case.limits.lower[v], low);
        let loss = weighed(case.limits.upper[v], high);
        sum = sum.plus(gain.less(loss));
    }
    sum
}

// A strict limit has a multiplier other than 0.
fn strict_named(limit: Given, k: Wide) -> bool
    requires { LimbsWithin k limb_turn }
    ensures { result ≡ strict_named (limit_in limit) (value k) }
{
    limit.on & (limit.strict & !k.is_zero())
}

// Some strict limit has.
fn some_named(case: &Case<'_>) -> bool
    requires rows_in_bounds { 6 + 8 * (case.now.columns + case.now.rows) ≤ length case.now.answer.now }
    requires all_formed { AllFormed case.now.answer.now (numbers_of (case.now.columns + case.now.rows)) }
    ensures { result ≡ some_marked case.now.limits.now case.now.answer.now (case.now.columns + case.now.rows)
        (case.now.columns + case.now.rows) }
{
    let variables = case.columns + case.rows;
    let mut found = false;
    for v in 0..variables {
        let low = number_at(case.answer, 1 + v);
        let high = number_at(case.answer, 1 + variables + v);
        let first = strict_named(case.limits.lower[v], low);
        let second = strict_named(case.limits.upper[v], high);
        found = found | (first | second);
    }
    found
}

/// The numbers are right for verdict 2.
pub fn shows_cannot(case: &Case<'_>) -> bool
    requires rows_in_bounds { 6 + 8 * (case.now.columns + case.now.rows) ≤ length case.now.answer.now }
    requires all_formed { AllFormed case.now.answer.now (numbers_of (case.now.columns + case.now.rows)) }
    ensures { result ≡ right_cannot (problem_of case.now.entries.now case.now.limits.now case.now.rows case.now.columns)
        (wide_denominator case.now.answer.now) (wide_lower case.now.answer.now)
        (wide_upper (case.now.columns + case.now.rows) case.now.answer.now) }
{
    let common = number_at(case.answer, 0);
    if !common.is_zero() {
        return false;
    }
    if !multipliers_owed(case) {
        return false;
    }
    if !columns_cancel(case) {
        return false;
    }
    let total = surplus(case);
    if total.is_above() {
        return true;
    }
    if !total.is_zero() {
        return false;
    }
    some_named(case)
}
