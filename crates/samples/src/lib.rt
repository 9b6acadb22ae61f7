// A small function whose proof shows how the tools of `whole` meet code: a 64-bit expression that fits. A loop to copy
// is `divisor::common_of`, Euclid's steps.
#![tactic(auto)]

ghost use Rattle.std.specs.Prelude.{◌≡◌, ◌*ℤ◌, ◌-ℤ◌};
ghost use Rattle.whole.specs.Numbers.{Within};

// Two products of numbers that a tableau may hold, and their difference: it fits 64 bits, as three products would not.
pub fn cross(a: i64, b: i64, c: i64, d: i64) -> i64
    requires { (Within a 2147483647) × (Within b 2147483647) × (Within c 2147483647) × (Within d 2147483647) }
    ensures { result ≡ a *ℤ b -ℤ c *ℤ d }
{
    a * b - c * d
}
