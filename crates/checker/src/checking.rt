//! Checks an answer to a problem, and writes whether it is right.
ghost use Rattle.std.specs.Prelude.{◌≡◌, ◌-◌, ◌^◌, ◌<◌, ◌↔◌, IfOk, IsTrue};
ghost use Rattle.dimacs_io.specs.Calls.{PassesText};
ghost use Rattle.dimacs_io.specs.Device.{RisesBy, text_over};
ghost use Rattle.runs.specs.Devices.{UsesSink, UsesSource, answer_failures, answer_whole, flushes_by, problem_failures, problem_whole};
ghost use Rattle.checker.specs.Check.{CheckBetween, NamesEnds, NameEnds, IsRight, Settles, ValidSettles, flow_of_lines, listed_marks, verdict_line};

use dimacs_io::{Broken, Sink, Source, write_all};
use dimacs_text::{Answer, ArcRow, FlowLine, Problem};
use network::{build, check_best, check_cut};
use runs::{End, Text, read_answer, read_problem};
use std::alloc::{AllocError, Global};

/// Checks an answer text to a flow problem of any kind: writes `valid` or `not valid`, and a line feed.
///
/// The problem text is read to its end, and then the answer text. Nothing is written before that, and nothing after a
/// failed write; what is written is passed on.
pub fn check<P: Source, A: Source, O: Sink>(
    alloc: Global,
    problem: &mut P,
    answer: &mut A,
    out: &mut O,
) -> End
    requires problem { P.failures problem.old < 2 ^ 64 - 1 }
    requires answer { A.failures answer.old < 2 ^ 64 - 1 }
    requires out { O.failures out.old < 2 ^ 64 - 1 }

    // `valid` is written exactly where the answer is right, and each end but that of memory has
    // its cause.
    ensures check { CheckBetween P.Source A.Source O.Sink result
        problem.old problem.new answer.old answer.new out.old out.new }
    ensures best { ValidSettles result
        (text_over P.remaining P.given problem.old problem.new)
        (text_over A.remaining A.given answer.old answer.new) }

    // Each text was read to its end where it was used. The end tells of each call that failed,
    // which was the last on its device, and one flush passes on what is written.
    ensures problem { UsesSource P.Source (problem_whole result) (problem_failures result)
        problem.old problem.new }
    ensures answer { UsesSource A.Source (answer_whole result) (answer_failures result)
        answer.old answer.new }
    ensures out { UsesSink O.Sink result out.old out.new }
    ensures out_flushed { RisesBy (flushes_by result) (O.flushes out.old) (O.flushes out.new) }
{
    let problem = match read_problem(alloc, problem) {
        Ok(problem) => problem,
        Err(error) => return error.end(Text::Problem),
    };
    let answer = match read_answer(alloc, problem.nodes(), problem.arcs().len() as u32, answer) {
        Ok(answer) => answer,
        Err(error) => return error.end(Text::Answer),
    };
    let right = match is_right(alloc, &problem, &answer) {
        Ok(right) => right,
        Err(_) => return End::Memory,
    };
    match write_verdict(right, out) {
        Ok(()) if right => End::Valid,
        Ok(()) => End::NotValid,
        Err(_) => End::WriteFailed,
    }
}

/// Writes the verdict, and passes it on.
fn write_verdict<O: Sink>(right: bool, out: &mut O) -> Result<(), Broken>
    requires { O.failures out.old < 2 ^ 64 - 1 }
    ensures { PassesText O.Sink result out.old out.new (verdict_line right) }
{
    let line = if right {
        b"valid\n".as_slice()
    } else {
        b"not valid\n".as_slice()
    };
    write_all(out, line)?;
    out.flush()
}

/// Whether an answer is right.
fn is_right(alloc: Global, problem: &Problem, answer: &Answer) -> Result<bool, AllocError>
    ensures exact { IfOk result (λ right. IsTrue right ↔ IsRight problem.now answer.now) }
    ensures settles { IfOk result (λ right. IsTrue right → Settles answer.now problem.now) }
{
    let net = build(alloc, problem, 0)?;
    match answer {
        Answer::Flow {
            value,
            flows,
            potentials,
        } => {
            let flow = flow_of_lines(alloc, flows.as_slice())?;
            if !name_ends(problem.arcs(), flows.as_slice()) {
                return Ok(false);
            }
            Ok(check_best(&net, flow.as_slice(), potentials.as_slice(), *value))
        }
        Answer::Cut { shortage, nodes } => {
            let marks = marks_of(alloc, problem.nodes(), nodes.as_slice())?;
            Ok(check_cut(&net, marks.as_slice(), *shortage))
        }
    }
}

/// Whether there is one line an arc, in order, each with the ends of its arc.
fn name_ends(arcs: &[ArcRow], lines: &[FlowLine]) -> bool
    ensures { IsTrue result ↔ NameEnds arcs.now lines.now }
{
    if arcs.len() != lines.len() {
        return false;
    }
    for (arc, line) in arcs.iter().zip(lines) {
        if !names_ends(arc, line) {
            return false;
        }
    }
    true
}

/// Whether a line has the ends of an arc.
fn names_ends(arc: &ArcRow, line: &FlowLine) -> bool
    ensures { IsTrue result ↔ NamesEnds arc.now line.now }
{
    line.tail == arc.tail && line.head == arc.head
}

/// The flows that lines say.
fn flow_of_lines(alloc: Global, lines: &[FlowLine]) -> Result<Vec<i64>, AllocError>
    ensures { IfOk result (λ flow. flow.items ≡ flow_of_lines lines.now) }
{
    let mut flow = Vec::with_capacity(alloc, lines.len())?;
    for line in lines {
        flow.push(line.flow)?;
    }
    Ok(flow)
}

/// One mark a node, set where the node is listed.
fn marks_of(alloc: Global, nodes: u32, ids: &[u32]) -> Result<Vec<bool>, AllocError>
    ensures { IfOk result (λ marks. marks.items ≡ listed_marks nodes ids.now) }
{
    let mut marks = vec![in alloc; false; nodes as usize]?;
    for id in ids {
        let place = (*id as usize).saturating_sub(1);
        if place < marks.len() {
            marks[place] = true;
        }
    }
    Ok(marks)
}
