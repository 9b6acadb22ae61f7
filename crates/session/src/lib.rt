// A session: docs/RULES.md, "Switching limits". The limits of a problem are switched on and off, and each check starts
// from the values that the last one left. A session goes in and comes back by value.
#![tactic(auto)]

ghost use Rattle.std.specs.Prelude.{◌≡◌, length};
ghost use Rattle.session.specs.Sessions.{ChecksAs, OpensAs, SessionStanding, SwitchesAs, checked_at, opened_at};
ghost use Rattle.session.specs.Sessions.{check_output_at};
ghost use Rattle.session.specs.Sessions.{switched_at};

use refusals::Refusal;
use solver::spend;
use tableau::{Tableau, Variable};

mod switching;

// The tableau, the values and all limits that were given, each on or off.
#[repr(C)]
#[derive(Drop)]
pub struct Session {
    pub tableau: Tableau,
}

// What opening hands back: 0 and the session with every limit off, or the number of the refusal and the session of a
// problem with nothing to switch.
#[repr(C)]
#[derive(Drop)]
pub struct Opened {
    pub refused: u32,
    pub session: Session,
}

// What a switch hands back: 0 and the next session, or the number of the refusal and the session that it was.
#[repr(C)]
#[derive(Drop)]
pub struct Switched {
    pub refused: u32,
    pub session: Session,
}

// What a check hands back: 0 and the next session, or 7 and the session that it was.
#[repr(C)]
#[derive(Drop)]
pub struct Checked {
    pub refused: u32,
    pub session: Session,
}

// Judges the words, and opens the problem that they are.
pub fn open(words: &[i32]) -> Opened
    ensures exact { result ≡ opened_at words.now }
    ensures meaning { OpensAs words.now result }
{
    let begun = slices::start(words);
    Opened {
        refused: begun.refused,
        session: Session {
            tableau: switching::quiet(begun.slice.tableau),
        },
    }
}

impl Session {
    // Switches one limit of a variable, and moves that variable to a limit that it is outside of then.
    pub fn switch(self, variable: u32, upper: bool, on: bool) -> Switched
        requires { SessionStanding self }
        ensures exact { result ≡ switched_at self variable upper on }
        ensures meaning { SwitchesAs self variable upper on result }
    {
        let tableau = self.tableau;
        if variable as usize >= tableau.rows + tableau.columns {
            return Switched {
                refused: Refusal::NoVariable.number(),
                session: self,
            };
        }
        let v = Variable(variable as u8);
        let limits = tableau.limits;
        if let Err(refusal) = switching::judge(switching::limit_at(limits, upper, v), on) {
            return Switched {
                refused: refusal.number(),
                session: self,
            };
        }
        let tableau = switching::turned(tableau, v, upper, on);
        Switched {
            refused: 0,
            session: Session { tableau },
        }
    }

    // Answers the problem with the limits that are on, its own pivots counted from 0.
    pub fn check(self, out: &mut [i64]) -> Checked
        requires { SessionStanding self }
        ensures exact { result ≡ checked_at self (length out.old) }
        ensures output { out.new ≡ check_output_at self out.old }
        ensures meaning { ChecksAs self out.old result out.new }
    {
        let tableau = self.tableau;
        let variables = tableau.rows + tableau.columns;
        if answers::is_short(out.len(), variables) {
            return Checked {
                refused: Refusal::ShortRoom.number(),
                session: self,
            };
        }
        let spent = spend::spend(tableau, 0, usize::MAX, true, out);
        Checked {
            refused: 0,
            session: Session {
                tableau: spent.tableau,
            },
        }
    }
}
