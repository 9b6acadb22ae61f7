// A pivot that is asked for.
use layout::Spot;

// The sizes, the common number, and the spot of the pivot.
#[derive(Clone, Copy, PartialEq, Eq, Debug)]
pub struct Asked {
    pub rows: usize,
    pub columns: usize,
    pub common: i32,
    pub spot: Spot,
}
