// The C face: the entry points under their names in include/scatterflock.h, each with the promise of the function that
// it calls. A slice is a pointer and then a length.
#![tactic(auto)]

ghost use Rattle.std.specs.Prelude.{◌≡◌, length};
ghost use Rattle.rules.specs.Answer.{written};
ghost use Rattle.rules.specs.Evidence.{checked};
ghost use Rattle.rules.specs.Exchange.Reader.{read_text};
ghost use Rattle.rules.specs.Exchange.Script.{exchange_output, exchange_refusal, exchange_text};
ghost use Rattle.rules.specs.Refusal.{refusal, refusal_within, rows_within};
ghost use Rattle.rules.specs.Runs.Replay.{replay_refusal, replayed_words};
ghost use Rattle.rules.specs.Runs.Trace.{trace_output, trace_refusal};
ghost use Rattle.rules.specs.Runs.Violation.{first_violation};
ghost use Rattle.rules.specs.Times.Answer.{Timed};
ghost use Rattle.rules.specs.Program.Bytes.{words_from};
ghost use Rattle.rules.specs.Program.Text.{printed};
ghost use Rattle.rules.specs.Bundle.File.{lengths_left, read_refusal, words_left};
ghost use Rattle.rules.specs.Bundle.Writer.{file_left, writer_refusal};
ghost use Rattle.rules.specs.Bundle.Day.{day_text};
ghost use Rattle.rules.specs.Sheet.File.{file_sheet};
ghost use Rattle.bundle.specs.Contents.{contents_told};
ghost use Rattle.replay.specs.Replay.{told_as};
ghost use Rattle.traces.specs.Traces.{traced_as};
ghost use Rattle.exchange.specs.Sent.{sent_by};
ghost use Rattle.reader.specs.Taken.{taken_by, taken_output};
ghost use Rattle.rules.specs.Wide.{checked_wide};
ghost use Rattle.rules.specs.Times.Check.{checked_times};
ghost use Rattle.slices.specs.Slices.{GoesOnAs, SliceStanding, StartsAs, begun_at, slice_output_at, went_on_at};
ghost use Rattle.session.specs.Sessions as sessions;
ghost use Rattle.session.specs.Sessions.{ChecksAs, OpensAs, SwitchesAs, checked_at, opened_at, switched_at};
ghost use Rattle.violations.specs.Violations.{ShowsAs, shown_as, violation_at};

use bundle::Contents;
use exchange::Exchanged;
use reader::Taken;
use replay::Told;
use session::{Checked, Opened, Session, Switched};
use slices::{Begun, Continued, Slice};
use traces::Traced;
use violations::Violation;

// Answers a limit problem.
#[unsafe(no_mangle)]
pub extern "C" fn scatterflock_solve(words: &[i32], out: &mut [i64]) -> u32
    ensures number { result ≡ refusal words.now (length out.old) }
    ensures output { out.new ≡ written result words.now out.old }
{
    refusals::number(solver::solve(words, out))
}

// Answers a limit problem of at most so many rows.
#[unsafe(no_mangle)]
pub extern "C" fn scatterflock_solve_within(most: u32, words: &[i32], out: &mut [i64]) -> u32
    ensures number { result ≡ refusal_within (rows_within most) words.now (length out.old) }
    ensures output { out.new ≡ written result words.now out.old }
{
    refusals::number(solver::solve_within(most, words, out))
}

// Judges an answer to a limit problem.
#[unsafe(no_mangle)]
pub extern "C" fn scatterflock_check(words: &[i32], answer: &[i64]) -> u32
    ensures { result ≡ checked words.now answer.now }
{
    refusals::verdict(evidence::check(words, answer))
}

// Judges an answer to a limit problem whose numbers have four words each.
#[unsafe(no_mangle)]
pub extern "C" fn scatterflock_check_wide(words: &[i32], answer: &[i64]) -> u32
    ensures { result ≡ checked_wide words.now answer.now }
{
    refusals::verdict(wide::check(words, answer))
}

// Answers time rows.
#[unsafe(no_mangle)]
pub extern "C" fn scatterflock_times(words: &[i32], out: &mut [i64]) -> u32
    ensures { Timed words.now out.old result out.new }
{
    refusals::number(times::times(words, out))
}

// Judges an answer to time rows.
#[unsafe(no_mangle)]
pub extern "C" fn scatterflock_check_times(words: &[i32], answer: &[i64]) -> u32
    ensures { result ≡ checked_times words.now answer.now }
{
    refusals::verdict(timecheck::check(words, answer))
}

// Starts a run that is made in slices.
#[unsafe(no_mangle)]
pub extern "C" fn scatterflock_slice_start(words: &[i32]) -> Begun
    ensures exact { result ≡ begun_at words.now }
    ensures meaning { StartsAs words.now result }
{
    slices::start(words)
}

// Goes on with a run, so many pivots.
#[unsafe(no_mangle)]
pub extern "C" fn scatterflock_slice_continue(
    slice: Slice,
    pivots: usize,
    out: &mut [i64],
) -> Continued
    requires { SliceStanding slice }
    ensures exact { result ≡ went_on_at slice pivots (length out.old) }
    ensures output { out.new ≡ slice_output_at slice pivots out.old }
    ensures meaning { GoesOnAs slice pivots out.old result out.new }
{
    slice.go_on(pivots, out)
}

// Holds another solver's trace against the run of a problem.
#[unsafe(no_mangle)]
pub extern "C" fn scatterflock_replay(words: &[i32], trace: &[u32]) -> Told
    ensures { result ≡ told_as (replay_refusal words.now trace.now) (replayed_words words.now trace.now) }
{
    match replay::replay(words, trace) {
        Ok(replayed) => replay::in_numbers(Ok(replayed)),
        Err(refusal) => replay::in_numbers(Err(refusal.number())),
    }
}

// Writes the trace of a problem's own run.
#[unsafe(no_mangle)]
pub extern "C" fn scatterflock_trace(words: &[i32], trace: &mut [u32]) -> Traced
    ensures told { result ≡ traced_as (trace_refusal words.now (length trace.old))
        words.now }
    ensures output { trace.new ≡ trace_output result.refused words.now trace.old }
{
    traces::trace(words, trace)
}

// Opens a problem whose limits are switched on and off.
#[unsafe(no_mangle)]
pub extern "C" fn scatterflock_session_open(words: &[i32]) -> Opened
    ensures exact { result ≡ opened_at words.now }
    ensures meaning { OpensAs words.now result }
{
    session::open(words)
}

// Switches one limit of a variable on or off.
#[unsafe(no_mangle)]
pub extern "C" fn scatterflock_session_switch(
    session: Session,
    variable: u32,
    upper: bool,
    on: bool,
) -> Switched
    requires { sessions.SessionStanding session }
    ensures exact { result ≡ switched_at session variable upper on }
    ensures meaning { SwitchesAs session variable upper on result }
{
    session.switch(variable, upper, on)
}

// Answers the problem with the limits that are on.
#[unsafe(no_mangle)]
pub extern "C" fn scatterflock_session_check(session: Session, out: &mut [i64]) -> Checked
    requires { sessions.SessionStanding session }
    ensures exact { result ≡ checked_at session (length out.old) }
    ensures output { out.new ≡ sessions.check_output_at session out.old }
    ensures meaning { ChecksAs session out.old result out.new }
{
    session.check(out)
}

// Shows the first violation at the start of a limit problem.
#[unsafe(no_mangle)]
pub extern "C" fn scatterflock_first_violation(words: &[i32]) -> Violation
    ensures { result ≡ shown_as (first_violation words.now) }
{
    violations::first(words)
}

// Shows the first violation of a session as it stands.
#[unsafe(no_mangle)]
pub extern "C" fn scatterflock_session_violation(session: Session) -> Violation
    requires { sessions.SessionStanding session }
    ensures exact { result ≡ violation_at session.tableau }
    ensures meaning { ShowsAs session result }
{
    violations::standing(session)
}

// Reads a day's file.
#[unsafe(no_mangle)]
pub extern "C" fn scatterflock_bundle_read(
    file: &[u8],
    lengths: &mut [i32],
    words: &mut [i32],
) -> Contents
    ensures told { result ≡ contents_told
        (read_refusal file.now (length lengths.old) (length words.old))
        (words_from file.now) }
    ensures lengths { lengths.new
        ≡ lengths_left result.refused (words_from file.now) lengths.old }
    ensures words { words.new
        ≡ words_left result.refused (words_from file.now) words.old }
{
    bundle::read(file, lengths, words)
}

// Writes a day's file of an edition.
#[unsafe(no_mangle)]
pub extern "C" fn scatterflock_bundle_write(
    edition: u32,
    lengths: &[i32],
    words: &[i32],
    file: &mut [u8],
) -> u32
    ensures number { result ≡ writer_refusal edition lengths.now words.now
        (length file.old) }
    ensures output { file.new
        ≡ file_left result edition lengths.now words.now file.old }
{
    refusals::number(bundle::write(edition, lengths, words, file))
}

// Prints a day's file, and answers how long its text is.
#[unsafe(no_mangle)]
pub extern "C" fn scatterflock_day(file: &[u8], text: &mut [u8]) -> usize
    ensures size { result ≡ length (day_text file.now) }
    ensures output { text.new ≡ printed (day_text file.now) text.old }
{
    days::day(file, text)
}

// Writes a limit problem as SMT-LIB text.
#[unsafe(no_mangle)]
pub extern "C" fn scatterflock_smtlib_write(words: &[i32], text: &mut [u8]) -> Exchanged
    ensures answer { result ≡ sent_by (exchange_refusal words.now (length text.old))
        (exchange_text words.now) }
    ensures bytes { text.new ≡ exchange_output (exchange_refusal words.now (length text.old))
        words.now text.old }
{
    exchange::write(words, text)
}

// Reads SMT-LIB text back into the words of a limit problem.
#[unsafe(no_mangle)]
pub extern "C" fn scatterflock_smtlib_read(text: &[u8], words: &mut [i32]) -> Taken
    ensures answer { result ≡ taken_by (read_text text.now) (length words.old) }
    ensures content { words.new ≡ taken_output (read_text text.now) words.old }
{
    reader::read(text, words)
}

// Prints the auditor's sheet of a day's file, and answers how long it is.
#[unsafe(no_mangle)]
pub extern "C" fn scatterflock_sheet(file: &[u8], text: &mut [u8]) -> usize
    ensures size { result ≡ length (file_sheet file.now) }
    ensures output { text.new ≡ printed (file_sheet file.now) text.old }
{
    sheet::sheet(file, text)
}
