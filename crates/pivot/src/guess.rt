// Quotients guessed by one multiplication, by an inverse modulo 2^32. Nothing is promised of a guess, and no law is
// needed of the inverse: whoever asks multiplies back.
ghost use Rattle.std.specs.Prelude.{◌≡◌, ◌<◌};

// A divisor: how often 2 divides it, and what the rest times it is 1 in the low half.
#[derive(Clone, Copy)]
pub struct Divider {
    pub by: i32,
    pub twos: u32,
    pub factor: u32,
    ghost few: { twos < 64 },
}

// The low half of a number.
fn low(a: i64) -> u32 {
    (a.cast_unsigned() & 0xffff_ffff) as u32
}

// One step of Newton's: twice as many low bits are right.
fn nearer(odd: u32, x: u32) -> u32 {
    x.wrapping_mul(2u32.wrapping_sub(odd.wrapping_mul(x)))
}

pub fn divider_of(by: i32) -> Divider
    ensures { result.by ≡ by }
{
    let twos = by.trailing_zeros();
    let odd = low(by as i64 >> twos);
    let once = nearer(odd, odd);
    let twice = nearer(odd, nearer(odd, once));
    Divider {
        by,
        twos,
        factor: nearer(odd, twice),
    }
}

// What a number over the divisor is, if it is whole and fits.
pub fn guess(raw: i64, divider: Divider) -> i32 {
    low(raw >> divider.twos)
        .wrapping_mul(divider.factor)
        .cast_signed()
}
