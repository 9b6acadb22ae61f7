// Differences of products.
ghost use Rattle.std.specs.Prelude.{◌≡◌};
ghost use Rattle.whole.specs.Numbers.{Within};
ghost use Rattle.rules.specs.Sizes.{largest_number};
ghost use Rattle.pivot.specs.Border.{difference_of};

// The difference of two products.
pub fn difference(a: i32, b: i32, c: i32, d: i32) -> i64
    requires within { (Within a largest_number) × (Within b largest_number) }
    requires within_2 { (Within c largest_number) × (Within d largest_number) }
    ensures { result ≡ difference_of a b c d }
{
    a as i64 * b as i64 - c as i64 * d as i64
}
