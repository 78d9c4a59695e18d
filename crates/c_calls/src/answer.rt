//! The answer to a problem, in room of the caller's.

ghost use Rattle.std.specs.Prelude.{◌≡◌, ◌≢◌, ◌≤◌, ◌↔◌, IsTrue, pos, length};
ghost use Rattle.session.specs.Session.{present};
ghost use Rattle.c_calls.specs.Library.{IsFaultOf, IsViewOf};
ghost use Rattle.c_calls.specs.Answer.{AreListsKept, HasRoomFor, IsGiven, IsProblemSolved, IsProblemTooLong, IsSameRoom, IsSolved, IsTooShort, written_over};
ghost use Rattle.c_calls.specs.declared.status.TheConstants.{FAULT, MEMORY, TOO_SHORT};

use crate::fault::{Fault, tell_refusal};
use crate::library::read_problem;
use crate::status::{MEMORY, TOO_SHORT};
use crate::view::{View, look};
use dimacs_text::Problem;
use flow_solver::Verdict;
use session::Session;
use std::alloc::Global;

/// Where the answer to a problem goes: lists to the start of the room that C has for them, and what is told at once.
#[repr(C)]
pub struct AnswerRoom<'a> {
    /// Room for a best flow, of one entry an arc or more.
    pub flow: &'a mut [i64],
    /// Room for potentials, of one entry a node or more.
    pub potentials: &'a mut [i64],
    /// Room for a cut, of one mark a node or more.
    pub cut: &'a mut [bool],
    pub view: View,
    pub fault: Fault,
}

/// Answers a problem text at once: exactly what opening a session on it and looking would give, each list at the start of
/// the room for it.
///
/// Answers 0, or `FAULT`, with the fault; `TOO_SHORT` where a list has no room, with the sizes in the view and before
/// anything is solved; or `MEMORY`. Nothing else is written then.
pub fn solve_text(alloc: Global, text: &[u8], answer: &mut AnswerRoom) -> i32
    ensures solved { result ≡ pos 0 → IsSolved text.now answer.old answer.new }
    ensures fault { result ≡ FAULT → IsFaultOf text.now answer.new.fault }
    ensures too_short { result ≡ TOO_SHORT → IsTooShort text.now answer.old answer.new }
    ensures otherwise { result ≢ pos 0 → result ≢ FAULT → result ≢ TOO_SHORT → result ≡ MEMORY }
    ensures refused { result ≢ pos 0 → AreListsKept answer.old answer.new }
    ensures view { result ≢ pos 0 → result ≢ TOO_SHORT → answer.new.view ≡ answer.old.view }
    ensures no_fault { result ≢ FAULT → answer.new.fault ≡ answer.old.fault }
    ensures same_room { IsSameRoom answer.old answer.new }
{
    match read_problem(alloc, text) {
        Ok(problem) => solve_problem(alloc, problem, answer),
        Err(refused) => tell_refusal(refused, &mut answer.fault),
    }
}

/// Answers a problem, as `solve_text` does of a text that has one.
fn solve_problem(alloc: Global, problem: Problem, answer: &mut AnswerRoom) -> i32
    ensures solved { result ≡ pos 0 → IsProblemSolved problem answer.old answer.new }
    ensures too_short { result ≡ TOO_SHORT → IsProblemTooLong problem answer.old answer.new }
    ensures otherwise { result ≢ pos 0 → result ≢ TOO_SHORT → result ≡ MEMORY }
    ensures refused { result ≢ pos 0 → AreListsKept answer.old answer.new }
    ensures view { result ≢ pos 0 → result ≢ TOO_SHORT → answer.new.view ≡ answer.old.view }
    ensures no_fault { answer.new.fault ≡ answer.old.fault }
    ensures same_room { IsSameRoom answer.old answer.new }
{
    if !has_room(answer, &problem) {
        answer.view.nodes = problem.nodes();
        answer.view.arcs = problem.arcs().len() as u32;
        return TOO_SHORT;
    }
    match Session::open_from(alloc, problem, 0) {
        Ok(session) => {
            give_answer(&session, answer);
            // By a call, whose steps are proved once. At the end of a block they are proved again for each of its exits.
            drop(session);
            0
        }
        Err(_) => MEMORY,
    }
}

/// Whether there is room for each list of a problem's answer.
fn has_room(answer: &AnswerRoom, problem: &Problem) -> bool
    ensures { IsTrue result ↔ HasRoomFor problem.now answer.now }
{
    let nodes = problem.nodes() as usize;
    answer.flow.len() >= problem.arcs().len()
        && answer.potentials.len() >= nodes
        && answer.cut.len() >= nodes
}

/// Gives the answer of the present moment.
fn give_answer(session: &Session, answer: &mut AnswerRoom)
    requires flow { length (present session.now).instance.arcs ≤ length answer.old.flow.now }
    requires potentials { (present session.now).instance.nodes ≤ length answer.old.potentials.now }
    requires cut { (present session.now).instance.nodes ≤ length answer.old.cut.now }
    ensures view { IsViewOf session.now.moments answer.new.view }
    ensures lists { IsGiven (present session.now) answer.old answer.new }
    ensures no_fault { answer.new.fault ≡ answer.old.fault }
    ensures same_room { IsSameRoom answer.old answer.new }
{
    answer.view = look(session);
    match session.verdict() {
        Verdict::Best(_) => {
            put(session.flow(), answer.flow);
            put(session.potentials(), answer.potentials);
        }
        Verdict::Infeasible(_) => put(session.cut(), answer.cut),
    }
}

/// Copies a list to the start of a room.
fn put<T: Copy>(list: &[T], room: &mut [T])
    requires { length list.now ≤ length room.old }
    ensures { room.new ≡ written_over list.now room.old }
{
    room[..list.len()].copy_from_slice(list);
}
