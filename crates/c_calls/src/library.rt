//! The calls, over a session that is there.

ghost use Rattle.std.specs.Prelude.{◌≡◌, IfErr, IfOk, OnOk};
ghost use Rattle.std.specs.Option.{option_map};
ghost use Rattle.dimacs_text.specs.declared.command.Command.TheVariants.{Redo, Undo};
ghost use Rattle.session.specs.Reply.{reply_of};
ghost use Rattle.session.specs.Session.{present_kind};
ghost use Rattle.session.specs.Step.{StepBy, state_of};
ghost use Rattle.c_calls.specs.Library.{IsNotOpened, IsOpening, ReadsAs, Steps, TakesNext, told_of};

use crate::fault::{Fault, tell_refusal};
use crate::status::MEMORY;
use dimacs_text::{
    Command, Group, LINE_LIMIT, LineFault, Problem, ProblemReader, TextFault, decided_for_all,
    is_blank,
};
use session::{Reply, Session, StepRefusal};
use std::alloc::Global;

/// Reads the problem of a text.
pub(crate) fn read_problem(alloc: Global, text: &[u8]) -> Result<Problem, TextFault>
    ensures { ReadsAs result text.now }
{
    // A fault that is decided is that of the whole text.
    decided_for_all();
    let mut reader = ProblemReader::new(alloc);
    match reader.feed(text) {
        Ok(()) => reader.finish(),
        Err(fault) => Err(fault),
    }
}

/// Opens a session on a problem text, with room for `extra` arcs more, up to the limit of arcs.
///
/// # Errors
/// `FAULT`, with the fault, or `MEMORY`.
pub fn open_session(
    alloc: Global,
    text: &[u8],
    extra: u32,
    fault: &mut Fault,
) -> Result<Session, i32>
    ensures opened { IfOk result (λ session. IsOpening text.now extra (state_of session)) }
    ensures no_fault { OnOk result (fault.new ≡ fault.old) }
    ensures refused { IfErr result (λ status. IsNotOpened text.now status fault.old fault.new) }
{
    let problem = match read_problem(alloc, text) {
        Ok(problem) => problem,
        Err(refused) => return Err(tell_refusal(refused, fault)),
    };
    match Session::open_from(alloc, problem, extra) {
        Ok(session) => Ok(session),
        Err(_) => Err(MEMORY),
    }
}

/// Takes a line of a command text: it is a step by itself, or it opens the group that C keeps, goes into it or ends it,
/// which is a step. Answers 0, or the number of the refusal. A blank line is no command, and changes nothing.
pub fn take_line(session: &mut Session, group: &mut Option<Group>, line: &[u8]) -> u8
    ensures took { TakesNext group.old line.now group.new
        (state_of session.old) result (state_of session.new) }
    ensures kind { present_kind session.new.moments ≡ present_kind session.old.moments }
{
    if line.len() > LINE_LIMIT {
        return told(session.take_line(group, None));
    }
    if is_blank(line) {
        return LineFault::UnknownDesignator.number();
    }
    told(session.take_line(group, Some(line)))
}

/// Goes back one moment.
pub fn undo(session: &mut Session) -> u8
    ensures steps { Steps (StepBy Undo (state_of session.old)) result (state_of session.new) }
    ensures kind { present_kind session.new.moments ≡ present_kind session.old.moments }
{
    told(Some(session.step(&Command::Undo)))
}

/// Goes on one moment.
pub fn redo(session: &mut Session) -> u8
    ensures steps { Steps (StepBy Redo (state_of session.old)) result (state_of session.new) }
    ensures kind { present_kind session.new.moments ≡ present_kind session.old.moments }
{
    told(Some(session.step(&Command::Redo)))
}

/// The number that is told of a step, or of a line that makes none: that of a refusal, or 0.
fn told(reply: Option<Result<Reply, StepRefusal>>) -> u8
    ensures { result ≡ told_of (option_map reply_of reply) }
{
    match reply {
        Some(Err(refusal)) => refusal.number(),
        _ => 0,
    }
}
