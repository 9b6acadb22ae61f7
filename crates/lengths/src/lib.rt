// Lengths of rows: what is added and compared along walks. A length is a pair, minutes and small amounts, kept as one
// number: UNIT times the minutes, and the small amounts. There are never so many that they come up to half a minute, so
// the order of the numbers is that of the pairs. Nothing else in the code knows what a length is.
//   answer    the answer's words: distances as times, or the rows of a cycle
#![tactic(auto)]

ghost use Rattle.std.specs.Prelude.{◌≡◌, neg_ℤ, ◌+ℤ◌};
ghost use Rattle.whole.specs.Numbers.{Within};
ghost use Rattle.rules.specs.Sizes.{largest_length};
ghost use Rattle.lengths.specs.Lengths.{length_of, key_of, ModestLength, plain_part, small_part};

use std::ops::Add;

pub mod answer;

pub const MOST_VERTICES: usize = 64;

#[derive(Clone, Copy, Debug, PartialEq, Eq, PartialOrd, Ord)]
pub struct Length(pub i64);

impl Length {
    pub const LARGEST: i32 = 30000;

    // The length of no rows.
    pub const NONE: Length = Length(0);

    // Small amounts to a minute.
    const UNIT: i64 = 65536;

    // The length of a row.
    pub fn of(c: i32, strict: i32) -> Length
        requires { (Within c largest_length) × (Within strict 1) }
        ensures { length_of result ≡ key_of (c, neg_ℤ strict) }
    {
        let read = Length::UNIT * i64::from(c) - i64::from(strict);
        Length(read)
    }

    // The time of a vertex at this distance is minus it: its minutes, and its small amounts.
    fn plain_time(self) -> i64
        ensures { result ≡ plain_part self }
    {
        (self.0.unsigned_abs() / Length::UNIT.unsigned_abs()) as i64
    }

    fn small_time(self) -> i64
        ensures { result ≡ small_part self }
    {
        (self.0.unsigned_abs() % Length::UNIT.unsigned_abs()) as i64
    }
}

impl Add for Length {
    type Output = Length;

    ghost can_add = { λ a b. ModestLength a × ModestLength b };

    ghost add_gives = { λ a b sum. length_of sum ≡ length_of a +ℤ length_of b };

    fn add(self, other: Length) -> Length {
        Length(self.0 + other.0)
    }
}
