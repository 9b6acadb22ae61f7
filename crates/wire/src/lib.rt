// Bytes as words of 32 bits, signed, little-endian, words as bytes, and the judging of a byte count.
#![tactic(auto)]

ghost use Rattle.std.specs.Prelude.{◌≡◌, ◌++◌, ◌+◌, ◌*◌, ◌/◌, ◌^◌, ◌≤◌, ◌<◌, length, drop};
ghost use Rattle.std.proofs.lemmas.List.Edits.{sets};
ghost use Rattle.rules.specs.Program.Bytes.{bytes_from, count_refusal, joined, word_at, words_from};
ghost use Rattle.refusals.specs.Numbers.{number_told};

use refusals::Refusal;

// The most bytes that a problem has.
const MOST_BYTES: usize = 4 * rules::MOST_WORDS;

/// Whether an input may have so many bytes: at least two words, no byte left over, and no more words than a problem
/// has.
pub fn judge(count: usize) -> Result<(), Refusal>
    ensures { number_told result ≡ count_refusal count }
{
    if count < 8 {
        return Err(Refusal::FewWords);
    }
    if count % 4 != 0 || MOST_BYTES < count {
        return Err(Refusal::Length);
    }
    Ok(())
}

/// Puts the words of the bytes at the front of `words`, whose later words stay, and answers how many there are. Up to
/// three bytes left over are no word.
#[tactic(auto, unfolding(rules::specs::Program::Bytes::words_from))]
pub fn words_of(bytes: &[u8], words: &mut [i32]) -> usize
    requires { length bytes.now / 4 ≤ length words.old }
    ensures count { result ≡ length bytes.now / 4 }
    ensures content { words.new ≡ words_from bytes.now ++ drop result words.old }
{
    let count = bytes.len() / 4;
    for (i, word) in words[..count].iter_mut().enumerate() {
        *word = word_at(bytes, 4 * i);
    }
    count
}

/// The word whose four bytes start at `at`.
pub fn word_at(bytes: &[u8], at: usize) -> i32
    requires { at + 3 < length bytes.now }
    ensures { result ≡ word_at bytes.now at }
{
    i32::from_le_bytes([bytes[at], bytes[at + 1], bytes[at + 2], bytes[at + 3]])
}

/// Four bytes as one number, the lowest first.
pub fn join(a: u8, b: u8, c: u8, d: u8) -> u64
    ensures { (result ≡ joined a b c d) × (result < 2 ^ 32) }
{
    u32::from_le_bytes([a, b, c, d]) as u64
}

/// Puts the bytes of the words at `at`, four for each, and keeps all other bytes.
pub fn bytes_of(words: &[i32], bytes: &mut [u8], at: usize)
    requires { at + 4 * length words.now ≤ length bytes.old }
    ensures { bytes.new ≡ sets bytes.old at (bytes_from words.now) }
{
    for (i, word) in words.iter().enumerate() {
        let first = at + 4 * i;
        bytes[first..first + 4].copy_from_slice(&word.to_le_bytes());
    }
}
