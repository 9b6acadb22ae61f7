// A session of sixteen operations, and a line for the opening and for each of them. An operation is two numbers of the
// input, what is done and with which variable: 0 nothing, 1 a check, 2 and 3 a lower limit on and off, 4 and 5 an upper
// one.
ghost use Rattle.std.specs.Prelude.{IfOk};
ghost use Rattle.session.specs.Sessions.{SessionStanding};

use crate::{input, line};
use session::Session;
use std::io;
use std::io::Read;

// Checks, and prints the line.
fn check(rt: &impl Print, session: Session, out: &mut [i64]) -> io::Result<Session>
    requires { SessionStanding session }
    ensures { IfOk result SessionStanding }
{
    let next = session.check(out);
    line(rt, next.refused, out)?;
    let after = next.session;
    Ok(after)
}

// Switches a limit, and prints the line.
fn switch(
    rt: &impl Print,
    session: Session,
    variable: u32,
    upper: bool,
    on: bool,
    out: &mut [i64],
) -> io::Result<Session>
    requires { SessionStanding session }
    ensures { IfOk result SessionStanding }
{
    let next = session.switch(variable, upper, on);
    line(rt, next.refused, out)?;
    let after = next.session;
    Ok(after)
}

// Reads one operation, and does it.
fn operate(
    reader: &mut impl Read,
    rt: &impl Print,
    session: Session,
    out: &mut [i64],
) -> io::Result<Session>
    requires { SessionStanding session }
    ensures { IfOk result SessionStanding }
{
    let what = input::number(reader)?;
    let variable = input::number(reader)?;
    match what {
        0 => Ok(session),
        1 => check(rt, session, out),
        2 => switch(rt, session, variable, false, true, out),
        3 => switch(rt, session, variable, false, false, out),
        4 => switch(rt, session, variable, true, true, out),
        _ => switch(rt, session, variable, true, false, out),
    }
}

// Opens the session, and operates sixteen times.
pub fn run(
    reader: &mut impl Read,
    rt: &impl Print,
    words: &[i32],
    out: &mut [i64],
) -> io::Result<()> {
    let opened = session::open(words);
    line(rt, opened.refused, out)?;
    let mut session = opened.session;
    for _ in 0..16 {
        session = operate(reader, rt, session, out)?;
    }
    Ok(())
}
