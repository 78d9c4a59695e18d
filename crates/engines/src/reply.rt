//! Answers the turns of a command text, each by one step of the session and its reply.
ghost use Rattle.std.specs.Prelude.{◌-◌, ◌^◌, ◌<◌};
ghost use Rattle.dimacs_io.specs.Calls.{PassesText, WritesText};
ghost use Rattle.session.specs.Reply.{reply_of};
ghost use Rattle.session.specs.Session.{present};
ghost use Rattle.session.specs.Step.{state_of};
ghost use Rattle.engines.specs.Printing.{reply_text};
ghost use Rattle.engines.specs.Serving.{LeavesPassedOn, ServesPassed, output_of};

use crate::solution::{write_outcome, write_solution};
use dimacs_io::{Broken, Sink, write_r};
use dimacs_text::Group;
use session::{Reply, Session, StepRefusal};
use std::alloc::Allocator;

/// Takes a line, which is `None` where it is too long, and answers the turn that it ends: takes its step, writes the
/// reply and passes it on. A blank line, a line that opens a group and one that goes into a group end none.
pub fn serve_line<A: Allocator + Copy, O: Sink>(
    session: &mut Session<A>,
    group: &mut Option<Group>,
    line: Option<&[u8]>,
    out: &mut O,
) -> Result<(), Broken>
    requires { O.failures out.old < 2 ^ 64 - 1 }
    ensures served { ServesPassed result line.entry
        (state_of session.old) group.old (output_of O.Sink out.old)
        (state_of session.new) group.new (output_of O.Sink out.new) }
    ensures passed_on { LeavesPassedOn O.Sink result out.old out.new }
{
    match session.take_line(group, line) {
        None => Ok(()),
        Some(reply) => send_reply(session, reply, out),
    }
}

/// Writes the reply to a step that led to the present moment, and passes it on.
fn send_reply<A: Allocator + Copy, O: Sink>(
    session: &Session<A>,
    reply: Result<Reply, StepRefusal>,
    out: &mut O,
) -> Result<(), Broken>
    requires { O.failures out.old < 2 ^ 64 - 1 }
    ensures { PassesText O.Sink result out.old out.new
        (reply_text (reply_of reply) (present session.now)) }
{
    write_reply(session, reply, out)?;
    out.flush()
}

/// Writes the reply to a step that led to the present moment.
fn write_reply<A: Allocator + Copy, O: Sink>(
    session: &Session<A>,
    reply: Result<Reply, StepRefusal>,
    out: &mut O,
) -> Result<(), Broken>
    requires { O.failures out.old < 2 ^ 64 - 1 }
    ensures { WritesText O.Sink result out.old out.new
        (reply_text (reply_of reply) (present session.now)) }
{
    match reply {
        Ok(Reply::Verdict) => write_outcome(session, out),
        Ok(Reply::Solution { proof }) => write_solution(session, proof, out),
        Err(refusal) => write_r(out, refusal.number()),
    }
}
