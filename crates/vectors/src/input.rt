// Little-endian numbers of standard input, one after another. Past the end of the input there are zeros.
ghost use Rattle.std.specs.Prelude.{◌/◌, ◌≤◌, ◌≡◌, drop, length, IfOk};

use reading::read_full;
use std::io;
use std::io::Read;

// The next four bytes as a number.
pub fn number(reader: &mut impl Read) -> io::Result<u32> {
    let mut bytes = [0u8; 4];
    read_full(reader, &mut bytes)?;
    Ok(u32::from_le_bytes(bytes))
}

// The next word of 64 bits.
fn wide_word(reader: &mut impl Read) -> io::Result<i64> {
    let mut bytes = [0u8; 8];
    read_full(reader, &mut bytes)?;
    Ok(i64::from_le_bytes(bytes))
}

// The next word as a count, and `most` where it is more.
pub fn count(reader: &mut impl Read, most: usize) -> io::Result<usize>
    ensures { IfOk result (λ n. n ≤ most) }
{
    let told = number(reader)?;
    Ok((told as usize).min(most))
}

// Fills `bytes`, and with the words that they are the first ones of a slice; the later ones stay.
pub fn words(reader: &mut impl Read, bytes: &mut [u8], into: &mut [i32]) -> io::Result<()>
    requires { length bytes.old / 4 ≤ length into.old }
    ensures { (length into.new ≡ length into.old)
        × (drop (length bytes.old / 4) into.new
        ≡ drop (length bytes.old / 4) into.old) }
{
    read_full(reader, bytes)?;
    wire::words_of(bytes, into);
    Ok(())
}

// Fills a slice of words of 64 bits.
pub fn wide_words(reader: &mut impl Read, into: &mut [i64]) -> io::Result<()> {
    for word in into.iter_mut() {
        *word = wide_word(reader)?;
    }
    Ok(())
}
