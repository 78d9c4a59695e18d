//! Solves a problem, and writes the solution.
ghost use Rattle.std.specs.Prelude.{◌≡◌, ◌-◌, ◌^◌, ◌<◌};
ghost use Rattle.dimacs_io.specs.Calls.{PassesText};
ghost use Rattle.dimacs_io.specs.Device.{RisesBy};
ghost use Rattle.runs.specs.Devices.{UsesSink, UsesSource, flushes_by, problem_failures, problem_whole};
ghost use Rattle.session.specs.Session.{present};
ghost use Rattle.engines.specs.Printing.{solution};
ghost use Rattle.engines.specs.Solve.{SolveBetween, end_by};

use crate::opening::open_text;
use crate::solution::write_solution;
use dimacs_io::{Broken, Sink, Source};
use flow_solver::Verdict;
use runs::End;
use session::Session;
use std::alloc::Global;

/// Solves a problem text: writes a best flow, with its potentials where a proof is asked for, or a cut that shows that
/// no legal flow exists.
///
/// Nothing is written before the text is read to its end, and nothing after a failed write. What is written is passed
/// on.
pub fn solve<P: Source, O: Sink>(alloc: Global, input: &mut P, out: &mut O, proof: bool) -> End
    requires input { P.failures input.old < 2 ^ 64 - 1 }
    requires out { O.failures out.old < 2 ^ 64 - 1 }

    // What is written is the printing of what is settled, and each end but that of memory has
    // its cause.
    ensures solve { SolveBetween P.Source O.Sink result proof
        input.old input.new out.old out.new }

    // The text was read to its end where it was used. The end tells of each call that failed,
    // which was the last on its device, and one flush passes on what is written.
    ensures input { UsesSource P.Source (problem_whole result) (problem_failures result)
        input.old input.new }
    ensures out { UsesSink O.Sink result out.old out.new }
    ensures out_flushed { RisesBy (flushes_by result) (O.flushes out.old) (O.flushes out.new) }
{
    let session = match open_text(alloc, input, 0) {
        Ok(session) => session,
        Err(end) => return end,
    };
    match tell_solution(&session, proof, out) {
        Ok(()) => {
            let end = end_by(session.verdict());
            // By a call, whose steps are proved once. At the end of a block they are proved again for each of its exits.
            drop(session);
            end
        }
        Err(_) => {
            drop(session);
            End::WriteFailed
        }
    }
}

/// Writes the solution of the present moment, and passes it on.
fn tell_solution<O: Sink>(session: &Session, proof: bool, out: &mut O) -> Result<(), Broken>
    requires { O.failures out.old < 2 ^ 64 - 1 }
    ensures { PassesText O.Sink result out.old out.new (solution proof (present session.now)) }
{
    write_solution(session, proof, out)?;
    out.flush()
}

/// How a run ends that writes the solution.
fn end_by(verdict: Verdict) -> End
    ensures { result ≡ end_by verdict }
{
    match verdict {
        Verdict::Best(_) => End::Solved,
        Verdict::Infeasible(_) => End::Infeasible,
    }
}
