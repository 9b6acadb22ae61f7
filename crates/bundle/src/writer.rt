// Whether lengths and words make a file of an edition: refusals 31, 32, 34, 35, 30 and 36.
ghost use Rattle.std.specs.Prelude.{◌≡◌, pos, length};
ghost use Rattle.whole.specs.Sums.{sum};
ghost use Rattle.rules.specs.Problem.{word};
ghost use Rattle.rules.specs.Bundle.Writer.{bad_lengths, writer_refusal};
ghost use Rattle.bundle.specs.Lengths.{Counts};
ghost use Rattle.refusals.specs.Numbers.{number_told};

use refusals::Refusal;

// Whether some length is negative.
fn has_negative(lengths: &[i32]) -> bool
    ensures { result ≡ bad_lengths lengths.now }
{
    lengths.iter().any(|length| *length < 0)
}

// All lengths together.
fn total_of(lengths: &[i32]) -> usize
    requires { Counts lengths.now }
    ensures { pos result ≡ sum (length lengths.now) (word lengths.now) }
{
    let mut total = 0usize;
    for length in lengths {
        total += length.unsigned_abs() as usize;
    }
    total
}

// The first of the refusals that applies to what is to be written; room is in bytes.
pub fn judge(edition: u32, lengths: &[i32], words: &[i32], room: usize) -> Result<(), Refusal>
    ensures { number_told result ≡ writer_refusal edition lengths.now words.now room }
{
    if editions::is_unknown(edition) {
        return Err(Refusal::Edition);
    }
    let bodies = lengths.len();
    if editions::bodies_in(edition) < bodies {
        return Err(Refusal::BodyCount);
    }
    if has_negative(lengths) {
        return Err(Refusal::BodyPlace);
    }
    let count = words.len();
    if total_of(lengths) != count {
        return Err(Refusal::BodyTotal);
    }
    let size = 2 + 2 * bodies + count;
    if rules::MOST_FILE_WORDS < size {
        return Err(Refusal::ByteCount);
    }
    if room < 4 * size {
        return Err(Refusal::ShortFileRoom);
    }
    Ok(())
}
