//! Opens the session of a run: reads its problem, and solves it.
ghost use Rattle.std.specs.Prelude.{◌-◌, ◌^◌, ◌<◌, IfErr, IfOk};
ghost use Rattle.session.specs.Step.{state_of};
ghost use Rattle.engines.specs.Opening.{EndsUnopened, OpensOn};

use dimacs_io::Source;
use runs::{End, Text, read_problem};
use session::Session;
use std::alloc::Global;

/// Reads a problem text, and opens a session on its problem, with room for `extra` arcs more.
///
/// # Errors
/// How the run ends: the text was refused or not read to its end, or memory was refused.
pub(crate) fn open_text<P: Source>(alloc: Global, input: &mut P, extra: u32) -> Result<Session, End>
    requires { P.failures input.old < 2 ^ 64 - 1 }
    ensures opened { IfOk result (λ s. OpensOn P.Source input.old input.new extra (state_of s)) }
    ensures ended { IfErr result (λ end. EndsUnopened P.Source input.old input.new end) }
{
    let problem = match read_problem(alloc, input) {
        Ok(problem) => problem,
        Err(error) => return Err(error.end(Text::Problem)),
    };
    match Session::open_from(alloc, problem, extra) {
        Ok(session) => Ok(session),
        Err(_) => Err(End::Memory),
    }
}
