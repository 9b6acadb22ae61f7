// Signs; greatest common divisors, of two numbers and of numbers that lie side by side, and exact division of those.
#![tactic(auto)]

ghost use Rattle.std.specs.Prelude.{◌≡◌, ◌≤◌, length};
ghost use Rattle.whole.specs.Divisors.{gcd};
ghost use Rattle.whole.specs.Numbers.{AllWithin};
ghost use Rattle.divisor.specs.Cells.{largest_size, Divides, divisor_below, divided_cells};
ghost use Rattle.divisor.specs.Signs.{signed_by};

// A size with the sign of a number. A divisor with the sign of the common number makes that one come out above 0.
pub fn signed(sign: i64, size: u64) -> i64
    requires { size ≤ largest_size }
    ensures { result ≡ signed_by sign size }
{
    let by = size as i64;
    if sign < 0 { -by } else { by }
}

// Euclid's steps: the second number falls at each turn.
pub fn common_of(a: u64, b: u64) -> u64
    ensures { result ≡ gcd a b }
{
    let (mut x, mut y) = (a, b);
    while y != 0 {
        (x, y) = (y, x % y);
    }
    x
}

// The greatest common divisor of a number and the cells. Once it is 1 it stays 1, and no other cell is looked at.
pub fn divisor_of(cells: &[i64], common: i64) -> u64
    ensures { result ≡ divisor_below (length cells.now) cells.now common }
{
    let mut g = common.unsigned_abs();
    for &cell in cells {
        if g == 1 {
            return 1;
        }
        g = common_of(cell.unsigned_abs(), g);
    }
    g
}

// Each cell is divided, exactly where the divisor is a common one.
pub fn divide(cells: &mut [i64], by: i64)
    requires divides { Divides by }
    requires all_within { AllWithin cells.old largest_size }
    ensures { cells.new ≡ divided_cells (length cells.old) cells.old by }
{
    for cell in cells {
        *cell /= by;
    }
}
