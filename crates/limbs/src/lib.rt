// Numbers of four limbs: a + 2^32 b + 2^64 c + 2^96 d. A limb may be any number that leaves room, so that sums and
// small multiples go limb by limb; only where a sign is asked for are carries taken, from low to high. Carries go
// toward 0: then no limb but the highest is as large as 2^32, and the highest limb that is not 0 has the sign.
#![tactic(auto)]

ghost use Rattle.std.specs.Prelude.{◌≡◌, pos};
ghost use Rattle.whole.specs.Numbers.{Within, eq_z, is_pos};
ghost use Rattle.rules.specs.Sizes.{largest_limit, limb_turn};
ghost use Rattle.std.specs.Int.Signed.{quot_z, rem_z};
ghost use Rattle.limbs.specs.Limbs.{AtEachLimb, Carried, LimbsWithin, less_of, most_factor, most_sum, of_number};
ghost use Rattle.limbs.specs.Limbs.{plus_of, settled_of, scaled_of, sign_of, value, zero_wide};

#[derive(Clone, Copy, Debug, Default, PartialEq, Eq)]
pub struct Wide {
    pub a: i64,
    pub b: i64,
    pub c: i64,
    pub d: i64,
}

// What is left of a number below 2^32, and what is carried.
fn parts(z: i64) -> (i64, i64)
    ensures left { result.0 ≡ rem_z z (pos limb_turn) }
    ensures carried { result.1 ≡ quot_z z (pos limb_turn) }
{
    (z % Wide::TURN, z / Wide::TURN)
}

impl Wide {
    const TURN: i64 = 4294967296;

    pub fn zero() -> Wide
        ensures { result ≡ zero_wide }
    {
        Wide {
            a: 0,
            b: 0,
            c: 0,
            d: 0,
        }
    }

    // A number of 64 bits.
    pub fn of(z: i64) -> Wide
        ensures { result ≡ of_number z }
    {
        let (a, b) = parts(z);
        Wide { a, b, c: 0, d: 0 }
    }

    // What is made of each limb and the same limb of another number.
    fn with<F: Fn(i64, i64) -> i64>(self, other: Wide, make: F) -> Wide
        requires { AtEachLimb (F.pre make) self other }
        ensures a { F.post make self.a other.a result.a }
        ensures b { F.post make self.b other.b result.b }
        ensures c { F.post make self.c other.c result.c }
        ensures d { F.post make self.d other.d result.d }
    {
        Wide {
            a: make(self.a, other.a),
            b: make(self.b, other.b),
            c: make(self.c, other.c),
            d: make(self.d, other.d),
        }
    }

    pub fn plus(self, other: Wide) -> Wide
        requires { (LimbsWithin self most_sum) × (LimbsWithin other most_sum) }
        ensures { result ≡ plus_of self other }
    {
        self.with(other, |x, y| x + y)
    }

    pub fn less(self, other: Wide) -> Wide
        requires { (LimbsWithin self most_sum) × (LimbsWithin other most_sum) }
        ensures { result ≡ less_of self other }
    {
        self.with(other, |x, y| x - y)
    }

    // A small multiple.
    pub fn times(self, k: i32) -> Wide
        requires { (LimbsWithin self most_factor) × (Within k largest_limit) }
        ensures { result ≡ scaled_of k self }
    {
        let by = k as i64;
        Wide {
            a: by * self.a,
            b: by * self.b,
            c: by * self.c,
            d: by * self.d,
        }
    }

    // The same number after its carries.
    fn settled(self) -> Wide
        requires { LimbsWithin self most_sum }
        ensures { result ≡ settled_of self }
    {
        let (a, carry) = parts(self.a);
        let (b, carry) = parts(self.b + carry);
        let (c, carry) = parts(self.c + carry);
        Wide {
            a,
            b,
            c,
            d: self.d + carry,
        }
    }

    // The highest limb that is not 0.
    fn highest(self) -> i64
        requires { Carried self }
        ensures { sign_of result ≡ sign_of (value self) }
    {
        if self.d != 0 {
            self.d
        } else if self.c != 0 {
            self.c
        } else if self.b != 0 {
            self.b
        } else {
            self.a
        }
    }

    // The sign of the number: -1, 0 or 1.
    pub fn sign(self) -> i64
        requires { LimbsWithin self most_sum }
        ensures { result ≡ sign_of (value self) }
    {
        self.settled().highest().signum()
    }

    // Whether it is 0.
    pub fn is_zero(self) -> bool
        requires { LimbsWithin self most_sum }
        ensures { result ≡ eq_z (value self) (pos 0) }
    {
        self.sign() == 0
    }

    // Whether it is above 0.
    pub fn is_above(self) -> bool
        requires { LimbsWithin self most_sum }
        ensures { result ≡ is_pos (value self) }
    {
        self.sign() > 0
    }
}
