//! Runs a session: reads its problem, and then its commands, each turn of which is answered before the next.
ghost use Rattle.std.specs.Prelude.{◌≡◌, ◌-◌, ◌^◌, ◌<◌};
ghost use Rattle.dimacs_io.specs.Calls.{PassesText, ReadsPiece};
ghost use Rattle.dimacs_io.specs.Device.{Fails};
ghost use Rattle.dimacs_io.specs.declared.device.LastCall.{LastCall};
ghost use Rattle.dimacs_io.specs.declared.device.LastCall.TheVariants as last;
ghost use Rattle.session.specs.Session.{present};
ghost use Rattle.session.specs.Step.{state_of};
ghost use Rattle.runs.specs.Devices.{UsesSink, UsesSource, command_failures, commands_whole, last_by, problem_failures, problem_whole, write_failures};
ghost use Rattle.engines.specs.Printing.{outcome_text};
ghost use Rattle.engines.specs.Serving.{LeavesPassedOn, ServesCommands, ServesSession, TakesPiece, TakesRest, output_of, progress};
ghost use Rattle.engines.specs.Session.{FlushesBetween, SessionBetween};

use crate::opening::open_text;
use crate::reply::serve_line;
use crate::solution::write_outcome;
use dimacs_io::{Broken, Sink, Source};
use dimacs_lines::ended_lines_stay;
use dimacs_text::{Group, LineCutter};
use runs::{End, Text};
use session::Session;
use std::alloc::{Allocator, Global};

/// How many bytes of the commands one read takes at most. They are on the stack, as those of texts are.
const PIECE: usize = 4_096;

/// Runs a session on a problem text, with room for `extra` arcs more: writes what is told of the problem, and then the
/// reply to each turn of the command text: to a line, or to all lines of a group at its `end`. A group that the text does
/// not end has no reply.
///
/// Nothing is written before the problem text is read to its end, and nothing after a failed write. Each turn is
/// answered before more of the commands is read, and each reply is passed on at once. Reading commands cannot fail for
/// want of memory.
pub fn run_session<P: Source, C: Source, O: Sink>(
    alloc: Global,
    problem: &mut P,
    script: &mut C,
    out: &mut O,
    extra: u32,
) -> End
    requires problem { P.failures problem.old < 2 ^ 64 - 1 }
    requires script { C.failures script.old < 2 ^ 64 - 1 }
    requires out { O.failures out.old < 2 ^ 64 - 1 }

    // A run's printing is written, or its beginning at a failed call, and each end but that of
    // memory has its cause.
    ensures session { SessionBetween P.Source C.Source O.Sink result extra
        problem.old problem.new script.old script.new out.old out.new }

    // Each text was read to its end where it was used. The end tells of each call that failed,
    // which was the last on its device. One flush passes on what is told of the opening, and one
    // each reply.
    ensures problem { UsesSource P.Source (problem_whole result) (problem_failures result)
        problem.old problem.new }
    ensures script { UsesSource C.Source (commands_whole result) (command_failures result)
        script.old script.new }
    ensures out { UsesSink O.Sink result out.old out.new }
    ensures out_flushed { FlushesBetween C.Source O.Sink result
        script.old script.new out.old out.new }
{
    match open_text(alloc, problem, extra) {
        Ok(session) => serve_session(session, script, out),
        Err(end) => end,
    }
}

/// Runs a session that is open: writes what is told of its present moment, and then the reply to each turn of the command
/// text, as `run_session` does. It is apart, so that tests can run a session whose steps take their memory elsewhere.
pub fn serve_session<A: Allocator + Copy, C: Source, O: Sink>(
    mut session: Session<A>,
    script: &mut C,
    out: &mut O,
) -> End
    requires script { C.failures script.old < 2 ^ 64 - 1 }
    requires out { O.failures out.old < 2 ^ 64 - 1 }
    ensures served { ServesSession C.Source O.Sink result (state_of session)
        script.old script.new out.old out.new }
    ensures script { UsesSource C.Source (commands_whole result) (command_failures result)
        script.old script.new }
    ensures no_problem { problem_failures result ≡ 0 }
    ensures out { UsesSink O.Sink result out.old out.new }
{
    match tell_opening(&session, out) {
        Ok(()) => {
            // While nothing is asked yet.
            session.prepare();
            let end = serve_commands(&mut session, script, out);
            // By a call, whose steps are proved once. At the end of a block they are proved again for each of its exits.
            drop(session);
            end
        }
        Err(_) => {
            drop(session);
            End::WriteFailed
        }
    }
}

/// Writes what is told of the moment that the session begins with, and passes it on.
fn tell_opening<A: Allocator + Copy, O: Sink>(
    session: &Session<A>,
    out: &mut O,
) -> Result<(), Broken>
    requires { O.failures out.old < 2 ^ 64 - 1 }
    ensures { PassesText O.Sink result out.old out.new (outcome_text (present session.now)) }
{
    write_outcome(session, out)?;
    out.flush()
}

/// Reads commands to their end, and answers each turn before it reads on.
fn serve_commands<A: Allocator + Copy, C: Source, O: Sink>(
    session: &mut Session<A>,
    script: &mut C,
    out: &mut O,
) -> End
    requires script { C.failures script.old < 2 ^ 64 - 1 }
    requires out { O.failures out.old < 2 ^ 64 - 1 }
    requires passed_on { O.last_call out.old ≡ last.Flush }
    ensures served { ServesCommands C.Source O.Sink result (state_of session.old)
        script.old script.new out.old out.new }
    ensures script { UsesSource C.Source (commands_whole result) (command_failures result)
        script.old script.new }
    ensures no_problem { problem_failures result ≡ 0 }
    ensures out_failed { Fails (write_failures result) O.failures out.old out.new }
    ensures out_last { (before : LastCall) → O.last_call out.new ≡ last_by result before }
{
    let mut group = None;
    let mut cutter = LineCutter::new();
    let mut piece = [0u8; PIECE];
    'pieces: loop {
        let count = match read_on(script, out, &mut piece) {
            Ok(0) => break,
            Ok(count) => count,
            Err(_) => return End::ReadFailed(Text::Commands),
        };
        if serve_piece(session, &mut group, &mut cutter, &piece[..count], out).is_err() {
            return End::WriteFailed;
        }
    }
    match serve_rest(session, &mut group, &cutter, out) {
        Ok(()) => End::Ended,
        Err(_) => End::WriteFailed,
    }
}

/// Reads more of the commands, where each reply is passed on.
fn read_on<C: Source, O: Sink>(
    script: &mut C,
    _replies: &O,
    piece: &mut [u8],
) -> Result<usize, Broken>
    requires script { C.failures script.old < 2 ^ 64 - 1 }
    requires passed_on { O.last_call _replies.now ≡ last.Flush }
    ensures { ReadsPiece C.Source result script.old script.new piece.new }
{
    script.read(piece)
}

/// Takes a piece of the commands, and answers each turn that ends in it.
fn serve_piece<A: Allocator + Copy, O: Sink>(
    session: &mut Session<A>,
    group: &mut Option<Group>,
    cutter: &mut LineCutter,
    piece: &[u8],
    out: &mut O,
) -> Result<(), Broken>
    requires { O.failures out.old < 2 ^ 64 - 1 }
    ensures goes_on { TakesPiece result piece.now
        (progress (state_of session.old) group.old cutter.old (output_of O.Sink out.old))
        (progress (state_of session.new) group.new cutter.new (output_of O.Sink out.new)) }
    ensures passed_on { LeavesPassedOn O.Sink result out.old out.new }
{
    ended_lines_stay();
    let mut at = 0;
    while at < piece.len() {
        let (used, complete) = cutter.take(&piece[at..]);
        at += used;
        if !complete {
            continue;
        }
        serve_line(session, group, cutter.line(), out)?;
    }
    Ok(())
}

/// Takes what stands after the last line feed, where there is a byte, and answers the turn that it ends.
fn serve_rest<A: Allocator + Copy, O: Sink>(
    session: &mut Session<A>,
    group: &mut Option<Group>,
    cutter: &LineCutter,
    out: &mut O,
) -> Result<(), Broken>
    requires { O.failures out.old < 2 ^ 64 - 1 }
    ensures rest { TakesRest result
        (progress (state_of session.old) group.old cutter.now (output_of O.Sink out.old))
        (state_of session.new) (output_of O.Sink out.new) }
    ensures passed_on { LeavesPassedOn O.Sink result out.old out.new }
{
    if cutter.begun() {
        serve_line(session, group, cutter.line(), out)
    } else {
        Ok(())
    }
}
