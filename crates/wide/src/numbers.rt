// The numbers of an answer, four words each from word 2 on.
ghost use Rattle.std.specs.Prelude.{◌≡◌, ◌+◌, ◌*◌, ◌≤◌, ◌<◌, length};
ghost use Rattle.whole.specs.Below.{all_below};
ghost use Rattle.rules.specs.Wide.{head_fits, limb_fits, number_fits};
ghost use Rattle.wide.specs.Reads.{most_numbers, wide_in};

use limbs::Wide;
use words::is_outside;

const LARGEST_LIMB: i64 = 4294967295;

const LARGEST_HEAD: i64 = 2147483647;

// The number at a slot.
pub fn number_at(answer: &[i64], slot: usize) -> Wide
    requires { (slot < most_numbers) × (6 + 4 * slot ≤ length answer.now) }
    ensures { result ≡ wide_in answer.now slot }
{
    let at = 2 + 4 * slot;
    Wide {
        a: answer[at],
        b: answer[at + 1],
        c: answer[at + 2],
        d: answer[at + 3],
    }
}

fn limb_fits(z: i64) -> bool
    ensures { result ≡ limb_fits z }
{
    !is_outside(z, 0, LARGEST_LIMB)
}

fn head_fits(z: i64) -> bool
    ensures { result ≡ head_fits z }
{
    !is_outside(z, -LARGEST_HEAD - 1, LARGEST_HEAD)
}

// Its words are in their ranges.
fn number_fits(answer: &[i64], slot: usize) -> bool
    requires { (slot < most_numbers) × (6 + 4 * slot ≤ length answer.now) }
    ensures { result ≡ number_fits answer.now slot }
{
    let number = number_at(answer, slot);
    let low = limb_fits(number.a) & limb_fits(number.b);
    low & limb_fits(number.c) & head_fits(number.d)
}

// The words of each number are.
pub fn numbers_fit(answer: &[i64], numbers: usize) -> bool
    requires { (numbers ≤ most_numbers) × (2 + 4 * numbers ≤ length answer.now) }
    ensures { result ≡ all_below numbers (number_fits answer.now) }
{
    let mut fine = true;
    for slot in 0..numbers {
        fine = fine & number_fits(answer, slot);
    }
    fine
}
