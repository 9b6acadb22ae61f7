// Single words of an input, before anything is known of it: as counts, and against their ranges.
#![tactic(auto)]

ghost use Rattle.std.specs.Prelude.{◌≡◌, ◌||◌, ◌≤◌, ◌<◌, pos, nat_abs, length, ◌≤ℤ◌};
ghost use Rattle.std.specs.Int.Signed.{lt_z};
ghost use Rattle.whole.specs.Numbers.{within};
ghost use Rattle.rules.specs.Problem.{word};
ghost use Rattle.words.specs.Sizes.{sizes_outside};

/// Below `low` or above `high`.
pub fn is_outside(z: i64, low: i64, high: i64) -> bool
    ensures { result ≡ (lt_z z low || lt_z high z) }
{
    !(low..=high).contains(&z)
}

/// Whether the size of a word is at most `largest`.
#[tactic(auto, unfolding(whole::specs::Numbers::within))]
pub fn is_within(word: i32, largest: i32) -> bool
    requires { pos 0 ≤ℤ largest }
    ensures { result ≡ within (nat_abs largest) word }
{
    (-largest..=largest).contains(&word)
}

/// A word that is not below 0, as a count.
pub fn count_at(words: &[i32], at: usize) -> usize
    requires { (at < length words.now) × (pos 0 ≤ℤ word words.now at) }
    ensures { result ≡ nat_abs (word words.now at) }
{
    words[at].cast_unsigned() as usize
}

/// Whether n, word 0, is not from 1 to `first`, or m, word 1, not from 0 to `second`.
#[tactic(auto, unfolding(whole::specs::Numbers::outside))]
pub fn is_bad_size(words: &[i32], first: u32, second: u32) -> bool
    requires { 2 ≤ length words.now }
    ensures { result ≡ sizes_outside first second words.now }
{
    let n = i64::from(words[0]);
    let m = i64::from(words[1]);
    is_outside(n, 1, i64::from(first)) | is_outside(m, 0, i64::from(second))
}
