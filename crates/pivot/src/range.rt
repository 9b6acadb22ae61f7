// Whether numbers are ones that a tableau may hold.
ghost use Rattle.std.specs.Prelude.{◌≡◌, length};
ghost use Rattle.pivot.specs.Pivot.{in_range, small_below, all_small};

fn in_range(a: i64) -> bool
    ensures { result ≡ in_range a }
{
    a.unsigned_abs() <= rules::LARGEST_NUMBER as u64
}

// The common number and the cells.
pub fn all_in_range(cells: &[i64], common: i64) -> bool
    ensures { result ≡ small_below (length cells.now) cells.now common }
{
    in_range(common) && cells.iter().all(|&cell| in_range(cell))
}

// The same of cells of half the width, where only the least number is beyond the range.
// Kept: no `all`, which would stop at the first; every cell is tested, so that several are at a time.
pub fn halves_in_range(cells: &[i32]) -> bool
    ensures { result ≡ all_small (length cells.now) cells.now }
{
    let mut fine = true;
    for &cell in cells {
        fine &= cell != i32::MIN;
    }
    fine
}
