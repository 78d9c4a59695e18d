//! Writes what is told of the present moment of a session.
ghost use Rattle.std.specs.Prelude.{◌≡◌, ◌-◌, ◌^◌, ◌<◌, [], length, if◌then◌else◌};
ghost use Rattle.dimacs_io.specs.Line.{cut_line, potential_line};
ghost use Rattle.dimacs_io.specs.Calls.{WritesText};
ghost use Rattle.engines.specs.Printing.{best_text, cut_lines, flow_line_of, flow_lines, outcome_text, potential_lines, solution, breach_text};
ghost use Rattle.session.specs.Session.{present};

use dimacs_io::{Broken, Sink, write_f, write_i, write_k, write_s, write_v, writes_follow};
use dimacs_text::ArcRow;
use flow_solver::Verdict;
use network::Network;
use session::Session;
use std::alloc::Allocator;

/// Writes the outcome of the present moment: the worth of a best flow, or the shortage of a breach.
pub fn write_outcome<A: Allocator + Copy, O: Sink>(
    session: &Session<A>,
    out: &mut O,
) -> Result<(), Broken>
    requires { O.failures out.old < 2 ^ 64 - 1 }
    ensures { WritesText O.Sink result out.old out.new (outcome_text (present session.now)) }
{
    match session.verdict() {
        Verdict::Best(worth) => write_s(out, worth),
        Verdict::Infeasible(shortage) => write_i(out, shortage),
    }
}

/// Writes the solution of the present moment: a best flow, with its potentials where a proof is asked for, or a
/// breach.
pub fn write_solution<A: Allocator + Copy, O: Sink>(
    session: &Session<A>,
    proof: bool,
    out: &mut O,
) -> Result<(), Broken>
    requires { O.failures out.old < 2 ^ 64 - 1 }
    ensures { WritesText O.Sink result out.old out.new (solution proof (present session.now)) }
{
    match session.verdict() {
        Verdict::Best(worth) => write_best(worth, session, proof, out),
        Verdict::Infeasible(shortage) => write_breach(shortage, session, out),
    }
}

/// Writes a best flow, with its potentials where a proof is asked for.
fn write_best<A: Allocator + Copy, O: Sink>(
    worth: i128,
    session: &Session<A>,
    proof: bool,
    out: &mut O,
) -> Result<(), Broken>
    requires { O.failures out.old < 2 ^ 64 - 1 }
    ensures { WritesText O.Sink result out.old out.new
        (best_text worth proof (present session.now)) }
{
    writes_follow();
    write_s(out, worth)?;
    write_flows(session.network(), session.flow(), out)?;
    write_proof(proof, session.potentials(), out)
}

/// Writes a breach.
fn write_breach<A: Allocator + Copy, O: Sink>(
    shortage: i64,
    session: &Session<A>,
    out: &mut O,
) -> Result<(), Broken>
    requires { O.failures out.old < 2 ^ 64 - 1 }
    ensures { WritesText O.Sink result out.old out.new
        (breach_text shortage (present session.now).cut) }
{
    writes_follow();
    write_i(out, shortage)?;
    write_cut(session.cut(), out)
}

/// Writes the flow of each arc.
fn write_flows<O: Sink>(net: &Network, flow: &[i64], out: &mut O) -> Result<(), Broken>
    requires out { O.failures out.old < 2 ^ 64 - 1 }
    requires one_an_arc { length flow.now ≡ length net.now.arcs }
    requires count { length flow.now < 2 ^ 32 - 1 }
    ensures { WritesText O.Sink result out.old out.new (flow_lines net.now.arcs flow.now) }
{
    for (place, x) in flow.iter().enumerate() {
        let Some(arc) = net.arc(place as u32 + 1) else {
            unreachable!()
        };
        write_arc(&arc, x, out)?;
    }
    Ok(())
}

/// Writes the flow of an arc.
fn write_arc<O: Sink>(arc: &ArcRow, x: &i64, out: &mut O) -> Result<(), Broken>
    requires { O.failures out.old < 2 ^ 64 - 1 }
    ensures { WritesText O.Sink result out.old out.new (flow_line_of arc.now x.now) }
{
    write_f(out, arc.tail, arc.head, *x)
}

/// Writes the potential of each node, where a proof is asked for.
fn write_proof<O: Sink>(proof: bool, potentials: &[i64], out: &mut O) -> Result<(), Broken>
    requires out { O.failures out.old < 2 ^ 64 - 1 }
    requires count { length potentials.now < 2 ^ 32 - 1 }
    ensures { WritesText O.Sink result out.old out.new
        (if proof then potential_lines 1 potentials.now else []) }
{
    if proof {
        write_potentials(potentials, out)
    } else {
        Ok(())
    }
}

/// Writes the potential of each node.
fn write_potentials<O: Sink>(potentials: &[i64], out: &mut O) -> Result<(), Broken>
    requires out { O.failures out.old < 2 ^ 64 - 1 }
    requires count { length potentials.now < 2 ^ 32 - 1 }
    ensures { WritesText O.Sink result out.old out.new (potential_lines 1 potentials.now) }
{
    for (place, potential) in potentials.iter().enumerate() {
        write_node(place as u32 + 1, potential, out)?;
    }
    Ok(())
}

/// Writes the potential of a node.
fn write_node<O: Sink>(id: u32, potential: &i64, out: &mut O) -> Result<(), Broken>
    requires { O.failures out.old < 2 ^ 64 - 1 }
    ensures { WritesText O.Sink result out.old out.new (potential_line id potential.now) }
{
    write_v(out, id, *potential)
}

/// Writes each marked node.
fn write_cut<O: Sink>(marks: &[bool], out: &mut O) -> Result<(), Broken>
    requires out { O.failures out.old < 2 ^ 64 - 1 }
    requires count { length marks.now < 2 ^ 32 - 1 }
    ensures { WritesText O.Sink result out.old out.new (cut_lines 1 marks.now) }
{
    for (place, mark) in marks.iter().enumerate() {
        write_mark(place as u32 + 1, *mark, out)?;
    }
    Ok(())
}

/// Writes a node where it is marked.
fn write_mark<O: Sink>(id: u32, mark: bool, out: &mut O) -> Result<(), Broken>
    requires { O.failures out.old < 2 ^ 64 - 1 }
    ensures { WritesText O.Sink result out.old out.new (if mark then cut_line id else []) }
{
    if mark { write_k(out, id) } else { Ok(()) }
}
