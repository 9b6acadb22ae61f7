// Numbers on standard output.
use std::io;

// A blank and a number.
pub fn number(rt: &impl Print, n: i64) -> io::Result<()> {
    print!(rt; " {n}")
}

// The words of a slice.
pub fn words(rt: &impl Print, list: &[i64]) -> io::Result<()> {
    for word in list {
        number(rt, *word)?;
    }
    Ok(())
}
