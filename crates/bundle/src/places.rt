// The words of a file, by their places.
ghost use Rattle.std.specs.Prelude.{◌≡◌, ◌+◌, ◌*◌, ◌<◌, length, nat_abs};
ghost use Rattle.rules.specs.Problem.{word};
ghost use Rattle.rules.specs.Program.Bytes.{words_from};

use wire::word_at;

// The word at a place.
pub fn word_of(file: &[u8], place: usize) -> i32
    requires { 4 * place + 3 < length file.now }
    ensures { result ≡ word (words_from file.now) place }
{
    word_at(file, 4 * place)
}

// Its size, as a count.
pub fn count_of(file: &[u8], place: usize) -> usize
    requires { 4 * place + 3 < length file.now }
    ensures { result ≡ nat_abs (word (words_from file.now) place) }
{
    word_of(file, place).unsigned_abs() as usize
}
