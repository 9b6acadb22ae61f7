// Whether bytes are a day's file: refusals 30 to 35, each over the whole file before the next.
ghost use Rattle.std.specs.Prelude.{◌||◌, not, [], ◌∷◌, ◌≡◌, ◌+◌, ◌*◌, ◌^◌, ◌≤◌, ◌<◌, pos, length};
ghost use Rattle.whole.specs.Numbers.{eq_z, is_neg, outside};
ghost use Rattle.rules.specs.Sizes.{most_bodies};
ghost use Rattle.rules.specs.Refusal.{first};
ghost use Rattle.rules.specs.Program.Bytes.{words_from};
ghost use Rattle.rules.specs.Bundle.File.{bad_count, bad_table, bad_total, count_in, file_refusal, head_size};
ghost use Rattle.refusals.specs.Numbers.{number_told};

use crate::places::{count_of, word_of};
use editions::{EDITIONS, bodies_in};
use refusals::Refusal;
use words::is_outside;

// Bytes that are left over, fewer than two words, or too many.
#[tactic(auto, unfolding(rules::specs::Bundle::File::bad_count))]
fn is_bad_count(count: usize) -> bool
    ensures { result ≡ bad_count count }
{
    (count % 4 != 0) | ((count < 8) | (4 * rules::MOST_FILE_WORDS < count))
}

// Whether a word is below `low` or above `high`.
#[tactic(auto, unfolding(whole::specs::Numbers::outside))]
fn is_bad_word(word: i32, low: u32, high: u32) -> bool
    ensures { result ≡ outside low high word }
{
    is_outside(i64::from(word), i64::from(low), i64::from(high))
}

// A negative length, or a first word that is not `at`.
fn is_bad_pair(first: i32, size: i32, at: usize) -> bool
    requires { at < 2 ^ 63 }
    ensures { result ≡ (is_neg size || not (eq_z first (pos at))) }
{
    size < 0 || i64::from(first) != at as i64
}

// Refusals 34 and 35: the pairs one after the other, with the place where the next body has to start.
fn judge_table(file: &[u8], bodies: usize) -> Result<(), Refusal>
    requires { (bodies ≡ count_in (words_from file.now)) × (bodies ≤ most_bodies)
        × (head_size bodies ≤ length (words_from file.now)) }
    ensures { number_told result ≡ first ((bad_table (words_from file.now), 34)
        ∷ (bad_total (words_from file.now), 35) ∷ []) }
{
    let mut at = 2 + 2 * bodies;
    // Kept: a pair is two words by their places, and eight bytes at a time would be read by place all the same.
    for i in 0..bodies {
        let size = word_of(file, 3 + 2 * i);
        if is_bad_pair(word_of(file, 2 + 2 * i), size, at) {
            return Err(Refusal::BodyPlace);
        }
        at += size.unsigned_abs() as usize;
    }
    if at != file.len() / 4 {
        return Err(Refusal::BodyTotal);
    }
    Ok(())
}

/// Whether bytes are a day's file: the first of refusals 30 to 35 that applies.
pub fn judge(file: &[u8]) -> Result<(), Refusal>
    ensures { number_told result ≡ file_refusal file.now }
{
    if is_bad_count(file.len()) {
        return Err(Refusal::ByteCount);
    }
    if is_bad_word(word_of(file, 0), 1, EDITIONS) {
        return Err(Refusal::Edition);
    }
    let most = bodies_in(count_of(file, 0) as u32);
    if is_bad_word(word_of(file, 1), 0, most as u32) {
        return Err(Refusal::BodyCount);
    }
    let bodies = count_of(file, 1);
    if file.len() / 4 < 2 + 2 * bodies {
        return Err(Refusal::ShortHead);
    }
    judge_table(file, bodies)
}
