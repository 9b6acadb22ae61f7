// The head of a file: its edition, the count of bodies, and their pairs.
ghost use Rattle.std.specs.Prelude.{[], ◌++◌, ◌≡◌, ◌^◌, ◌≤◌, ◌<◌, drop, length};
ghost use Rattle.rules.specs.Bundle.File.{head_size};
ghost use Rattle.rules.specs.Bundle.Writer.{file_words};
ghost use Rattle.bundle.specs.Lengths.{Fillable};

// The words of a head.
pub const MOST_HEAD: usize = 2 + 2 * rules::MOST_BODIES;

// Puts the head at the front of `front`, whose later words stay, and answers how many words it has. It is a file
// with no word behind its pairs.
pub fn fill(edition: u32, lengths: &[i32], front: &mut [i32]) -> usize
    requires { Fillable lengths.now × (head_size (length lengths.now) ≤ length front.old)
        × (edition < 2 ^ 31) }
    ensures size { result ≡ head_size (length lengths.now) }
    ensures content { front.new
        ≡ file_words edition lengths.now [] ++ drop result front.old }
{
    let bodies = lengths.len();
    front[0] = edition as i32;
    front[1] = bodies as i32;
    let mut at = 2 + 2 * bodies;
    for (i, size) in lengths.iter().enumerate() {
        front[2 + 2 * i] = at as i32;
        front[3 + 2 * i] = *size;
        at += size.unsigned_abs() as usize;
    }
    2 + 2 * bodies
}
