// Verdict 1: numerators and small parts over one denominator that meet every row and every limit. A half of the answer
// has its numbers from a slot on: from the second, and past one number for each variable.
ghost use Rattle.std.specs.Prelude.{◌≡◌, ◌+◌, ◌*◌, ◌≤◌, ◌<◌, length};
ghost use Rattle.whole.specs.Numbers.{Within, eq_z};
ghost use Rattle.rules.specs.Sizes.{largest_limit};
ghost use Rattle.rules.specs.Sizes.{limb_turn};
ghost use Rattle.rules.specs.Evidence.{at_least, at_most, right_can};
ghost use Rattle.rules.specs.Wide.{numbers_of, wide_at, wide_denominator, wide_lower, wide_upper};
ghost use Rattle.amounts.specs.Amounts.{limit_in};
ghost use Rattle.limbs.specs.Limbs.{LimbsWithin, value};
ghost use Rattle.parts.specs.Reads.{problem_of};
ghost use Rattle.wide.specs.Reads.{AllFormed, limits_met, most_numbers, row_most, row_in, rows_solved};
ghost use Rattle.limbs.specs.Limbs.{StandsFor};

use crate::numbers::number_at;
use amounts::Given;
use layout::{ColumnPlace, RowPlace};
use limbs::Wide;
use parts::{Case, clears};

// The sum of a row over the numbers of the problem's variables.
fn row_sum(case: &Case<'_>, first: usize, row: RowPlace) -> Wide
    requires row_lt_rows { row.0 < case.now.rows }
    requires columns_bound { (first + case.now.columns ≤ most_numbers)
        × (2 + 4 * (first + case.now.columns) ≤ length case.now.answer.now) }
    requires all_formed { AllFormed case.now.answer.now (first + case.now.columns) }
    ensures { StandsFor result (row_in case.now.entries.now case.now.answer.now first case.now.rows case.now.columns
        row.0 case.now.columns) row_most }
{
    let mut sum = Wide::zero();
    for j in 0..case.columns {
        let k = layout::place(case.rows, case.columns, row, ColumnPlace(j as u8));
        let e = case.entries[k];
        let x = number_at(case.answer, first + j);
        sum = sum.plus(x.times(e));
    }
    sum
}

// The number of a row's variable equals its row's sum.
fn row_holds(case: &Case<'_>, first: usize, row: RowPlace) -> bool
    requires row_lt_rows { row.0 < case.now.rows }
    requires rows_bound { (first + (case.now.columns + case.now.rows) ≤ most_numbers)
        × (2 + 4 * (first + (case.now.columns + case.now.rows)) ≤ length case.now.answer.now) }
    requires all_formed { AllFormed case.now.answer.now (first + (case.now.columns + case.now.rows)) }
    ensures { result ≡ eq_z (wide_at case.now.answer.now (first + (case.now.columns + row.0)))
        (row_in case.now.entries.now case.now.answer.now first case.now.rows case.now.columns row.0 case.now.columns) }
{
    let x = number_at(case.answer, first + (case.columns + row.0 as usize));
    let gap = x.less(row_sum(case, first, row));
    gap.is_zero()
}

// Each row holds of the numbers of a half.
fn rows_hold(case: &Case<'_>, first: usize) -> bool
    requires rows_bound { (first + (case.now.columns + case.now.rows) ≤ most_numbers)
        × (2 + 4 * (first + (case.now.columns + case.now.rows)) ≤ length case.now.answer.now) }
    requires all_formed { AllFormed case.now.answer.now (first + (case.now.columns + case.now.rows)) }
    ensures { result
        ≡ rows_solved case.now.entries.now case.now.answer.now first case.now.rows case.now.columns case.now.rows }
{
    let mut fine = true;
    for i in 0..case.rows {
        fine = fine & row_holds(case, first, RowPlace(i as u8));
    }
    fine
}

// A numerator and its small part, over a denominator, against a limit that may be missing: by the signs of two
// differences.
fn at_least(common: Wide, x: Wide, small: Wide, limit: Given) -> bool
    requires limbs_within { (LimbsWithin common limb_turn) × (LimbsWithin x limb_turn) × (LimbsWithin small limb_turn) }
    requires within { Within limit.plain largest_limit }
    ensures { result ≡ at_least (limit_in limit) (value common) (value x, value small) }
{
    let least = common.times(limit.plain);
    let gap = x.less(least);
    !limit.on | clears(limit.strict, (0, 0), (gap.sign(), small.sign()))
}

fn at_most(common: Wide, x: Wide, small: Wide, limit: Given) -> bool
    requires limbs_within { (LimbsWithin common limb_turn) × (LimbsWithin x limb_turn) × (LimbsWithin small limb_turn) }
    requires within { Within limit.plain largest_limit }
    ensures { result ≡ at_most (limit_in limit) (value common) (value x, value small) }
{
    let most = common.times(limit.plain);
    let gap = most.less(x);
    let beside = Wide::zero().less(small);
    !limit.on | clears(limit.strict, (0, 0), (gap.sign(), beside.sign()))
}

// Every present limit holds.
fn limits_hold(case: &Case<'_>, common: Wide) -> bool
    requires rows_in_bounds { 6 + 8 * (case.now.columns + case.now.rows) ≤ length case.now.answer.now }
    requires all_formed { AllFormed case.now.answer.now (numbers_of (case.now.columns + case.now.rows)) }
    requires limbs_within { LimbsWithin common limb_turn }
    ensures { result ≡ limits_met case.now.limits.now case.now.answer.now (case.now.columns + case.now.rows)
        (value common) (case.now.columns + case.now.rows) }
{
    let variables = case.columns + case.rows;
    let mut fine = true;
    // Kept: two numbers and two limits are read at each place, and a zip of four lists is no plainer.
    for v in 0..variables {
        let x = number_at(case.answer, 1 + v);
        let small = number_at(case.answer, 1 + variables + v);
        let over = at_least(common, x, small, case.limits.lower[v]);
        let under = at_most(common, x, small, case.limits.upper[v]);
        fine = fine & (over & under);
    }
    fine
}

/// The numbers are right for verdict 1.
pub fn shows_can(case: &Case<'_>) -> bool
    requires rows_in_bounds { 6 + 8 * (case.now.columns + case.now.rows) ≤ length case.now.answer.now }
    requires all_formed { AllFormed case.now.answer.now (numbers_of (case.now.columns + case.now.rows)) }
    ensures { result ≡ right_can (problem_of case.now.entries.now case.now.limits.now case.now.rows case.now.columns)
        (wide_denominator case.now.answer.now) (wide_lower case.now.answer.now)
        (wide_upper (case.now.columns + case.now.rows) case.now.answer.now) }
{
    let common = number_at(case.answer, 0);
    if !common.is_above() {
        return false;
    }
    if !rows_hold(case, 1) {
        return false;
    }
    if !rows_hold(case, 1 + (case.columns + case.rows)) {
        return false;
    }
    limits_hold(case, common)
}
