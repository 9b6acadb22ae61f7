// The run in slices: docs/RULES.md, "The run in slices". A state goes in and comes back by value.
#![tactic(auto)]

ghost use Rattle.std.specs.Prelude.{◌≡◌, length};
ghost use Rattle.rules.specs.Problem.{problem};
ghost use Rattle.rules.specs.Refusal.{problem_refusal};
ghost use Rattle.tableau.specs.Start.{start_tableau};
ghost use Rattle.slices.specs.Slices.{SliceStanding, StartsAs, GoesOnAs, begun_at, slice_output_at, went_on_at};

use refusals::Refusal;
use solver::spend;
use tableau::Tableau;

// A state of a run: how many pivots are completed, and the tableau, values and limits there.
#[repr(C)]
#[derive(Drop)]
pub struct Slice {
    pub count: usize,
    pub tableau: Tableau,
}

// What a start hands back: 0 and the first state, or the number of the refusal and the state of a problem with nothing
// to do.
#[repr(C)]
#[derive(Drop)]
pub struct Begun {
    pub refused: u32,
    pub slice: Slice,
}

// What a continue hands back: 0, whether the answer is there, and the next state; or 7 and the state that it was.
#[repr(C)]
#[derive(Drop)]
pub struct Continued {
    pub refused: u32,
    pub answered: bool,
    pub slice: Slice,
}

// The words of one variable without rows and limits.
const IDLE: [i32; 5] = [1, 0, 0, 0, 0];

// Judges the words, and hands back the state of the problem that they are, with no pivot made.
pub fn start(words: &[i32]) -> Begun
    ensures exact { result ≡ begun_at words.now }
    ensures meaning { StartsAs words.now result }
{
    match judge::judge(words) {
        Ok(()) => Begun {
            refused: 0,
            slice: Slice::first(words),
        },
        Err(refusal) => Begun {
            refused: refusal.number(),
            slice: Slice::first(&IDLE),
        },
    }
}

impl Slice {
    // The first state of the run.
    fn first(words: &[i32]) -> Slice
        requires { problem_refusal words.now ≡ 0 }
        ensures { result ≡ record { count = 0; tableau = start_tableau (problem words.now) } }
    {
        Slice {
            count: 0,
            tableau: Tableau::new(words),
        }
    }

    // Completes so many pivots, or all that are left, and writes the answer where the run is over.
    pub fn go_on(self, pivots: usize, out: &mut [i64]) -> Continued
        requires { SliceStanding self }
        ensures exact { result ≡ went_on_at self pivots (length out.old) }
        ensures output { out.new ≡ slice_output_at self pivots out.old }
        ensures meaning { GoesOnAs self pivots out.old result out.new }
    {
        let tableau = self.tableau;
        let variables = tableau.rows + tableau.columns;
        if answers::is_short(out.len(), variables) {
            return Continued {
                refused: Refusal::ShortRoom.number(),
                answered: false,
                slice: self,
            };
        }
        let spent = spend::spend(tableau, self.count, pivots, true, out);
        Continued {
            refused: 0,
            answered: spent.answered,
            slice: Slice {
                count: spent.count,
                tableau: spent.tableau,
            },
        }
    }
}
