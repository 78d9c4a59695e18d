//! What C calls, as `mcf.h` says: a flow problem answered at once, or a session of one behind a handle.
//!
//! Each call of a session takes it out of its handle, does its work on it by a function of `c_calls`, and puts it back.
#![tactic(auto)]

ghost use Rattle.std.specs.Prelude.{◌≡◌, ◌≢◌, ◌↔◌, List, Option, None, pos, length};
ghost use Rattle.dimacs_text.specs.declared.command.Command.TheVariants as commands;
ghost use Rattle.network.specs.Flow.{IsGreatestPotential};
ghost use Rattle.network.specs.Instance.{IsBest, at_node, reduced};
ghost use Rattle.session.specs.Parts.{flow_of};
ghost use Rattle.dimacs_lines.specs.Lines.{Line};
ghost use Rattle.session.specs.Step.{StepBy};
ghost use Rattle.c_calls.specs.Arrays.{IsEven, IsFirstFault, IsOpeningBy};
ghost use Rattle.c_calls.specs.Answer.{AreListsKept, IsSameRoom, IsSolved, IsTooShort};
ghost use Rattle.c_calls.specs.declared.status.TheConstants.{FAULT, OTHER_LENGTH, TOO_SHORT};
ghost use Rattle.c_calls.specs.Library.{CertifyFlow, IsBreachOf, IsChosen, IsFaultOf, IsOpening, IsViewOf, NoneIsLegal, Steps, Took, arc_count, has_cut, has_flow, node_count};
ghost use Rattle.mcf_c.specs.Handles.{AtPresent, AtSession, Goes, HoldsLines, KeepsLines, given_behind, group_behind, state_behind};

mod handle;
mod loose;
mod plan;
mod pointer;

use c_calls::{
    AnswerRoom, ArrayFault, Arrays, CLOSED, Fault, MEMORY, OPEN, View, give_cut, give_flow,
    give_potentials, look, open_arrays, open_session, solve_text, take_line,
};
use handle::Handle;
use plan::Plan;
use std::alloc::Global;

/// Answers a problem text at once: exactly what opening a session on it and looking would give, each list at the start of
/// the room for it.
///
/// Answers 0, or `FAULT`, with the fault; `TOO_SHORT` where a list has no room, with the sizes in the view and before
/// anything is solved; or `MEMORY`. Nothing else is written then.
#[unsafe(no_mangle)]
pub extern "C" fn mcf_solve(alloc: Global, text: &[u8], answer: &mut AnswerRoom) -> i32
    ensures solved { result ≡ pos 0 → IsSolved text.now answer.old answer.new }
    ensures fault { result ≡ FAULT → IsFaultOf text.now answer.new.fault }
    ensures too_short { result ≡ TOO_SHORT → IsTooShort text.now answer.old answer.new }
    ensures otherwise { result ≢ pos 0 → result ≢ FAULT → result ≢ TOO_SHORT → result ≡ MEMORY }
    ensures refused { result ≢ pos 0 → AreListsKept answer.old answer.new }
    ensures view { result ≢ pos 0 → result ≢ TOO_SHORT → answer.new.view ≡ answer.old.view }
    ensures no_fault { result ≢ FAULT → answer.new.fault ≡ answer.old.fault }
    ensures same_room { IsSameRoom answer.old answer.new }
{
    solve_text(alloc, text, answer)
}

/// Opens a session on a problem text, with room for `extra` arcs more, up to the limit of arcs.
///
/// Answers 0, or `OPEN`, `FAULT` or `MEMORY`, after which the handle is as before.
#[unsafe(no_mangle)]
pub extern "C" fn mcf_open(
    alloc: Global,
    handle: &mut Handle,
    text: &[u8],
    extra: u32,
    fault: &mut Fault,
) -> i32
    ensures was_closed { result ≡ pos 0 → state_behind handle.old ≡ None }
    ensures opened { result ≡ pos 0 → AtSession handle.new (IsOpening text.now extra) }
    ensures open { result ≡ pos 0 → state_behind handle.new ≢ None }
    ensures no_group { result ≡ pos 0 → group_behind handle.new ≡ None }
    ensures fault { result ≡ FAULT → IsFaultOf text.now fault.new }
    ensures in_use { (result ≡ OPEN) ↔ (state_behind handle.old ≢ None) }
    ensures otherwise { result ≢ pos 0 → result ≢ FAULT → result ≢ OPEN → result ≡ MEMORY }
    ensures no_fault { result ≢ FAULT → fault.new ≡ fault.old }
    ensures refused { result ≢ pos 0 → state_behind handle.new ≡ state_behind handle.old }
    ensures same_group { result ≢ pos 0 → group_behind handle.new ≡ group_behind handle.old }
{
    if handle.is_open() {
        return OPEN;
    }
    let session = match open_session(alloc, text, extra, fault) {
        Ok(session) => session,
        Err(status) => return status,
    };
    let plan = Plan {
        session,
        group: None,
    };
    match Box::new(alloc, plan) {
        Ok(plan) => {
            handle.put(plan);
            0
        }
        Err(refused) => {
            drop(refused);
            MEMORY // No session is kept.
        }
    }
}

/// Opens a session on a problem of the kind `min` that is in arrays, with room for `extra` arcs more, up to the limit of
/// arcs: exactly the session that a text opens whose node and arc lines say the same.
///
/// Answers 0, or `OPEN`, `OTHER_LENGTH`, `FAULT` or `MEMORY`, after which the handle is as before.
#[unsafe(no_mangle)]
pub extern "C" fn mcf_open_arrays(
    alloc: Global,
    handle: &mut Handle,
    arrays: &Arrays,
    extra: u32,
    fault: &mut ArrayFault,
) -> i32
    ensures was_closed { result ≡ pos 0 → state_behind handle.old ≡ None }
    ensures opened { result ≡ pos 0 → AtSession handle.new (IsOpeningBy arrays.now extra) }
    ensures open { result ≡ pos 0 → state_behind handle.new ≢ None }
    ensures no_group { result ≡ pos 0 → group_behind handle.new ≡ None }
    ensures lengths { result ≡ OTHER_LENGTH → IsEven arrays.now → ⊥ }
    ensures fault { result ≡ FAULT → IsEven arrays.now × IsFirstFault arrays.now fault.new }
    ensures in_use { (result ≡ OPEN) ↔ (state_behind handle.old ≢ None) }
    ensures otherwise { result ≢ pos 0 → result ≢ OTHER_LENGTH → result ≢ FAULT → result ≢ OPEN
        → result ≡ MEMORY }
    ensures no_fault { result ≢ FAULT → fault.new ≡ fault.old }
    ensures refused { result ≢ pos 0 → state_behind handle.new ≡ state_behind handle.old }
    ensures same_group { result ≢ pos 0 → group_behind handle.new ≡ group_behind handle.old }
{
    if handle.is_open() {
        return OPEN;
    }
    let session = match open_arrays(alloc, arrays, extra, fault) {
        Ok(session) => session,
        Err(status) => return status,
    };
    let plan = Plan {
        session,
        group: None,
    };
    match Box::new(alloc, plan) {
        Ok(plan) => {
            handle.put(plan);
            0
        }
        Err(refused) => {
            drop(refused);
            MEMORY
        }
    }
}

/// Takes a line of a command text, as `mcf session` does: it is a step by itself, or it opens a group, goes into the group
/// that stands open or ends it, which is one step of all its edits.
///
/// Answers 0, or the number of the refusal, or `CLOSED`. A refused line or group changes nothing; `show` and `proof`
/// neither. A line that opens a group or goes into it is answered by 0, a blank line by 2 wherever it comes.
#[unsafe(no_mangle)]
pub extern "C" fn mcf_command(alloc: Global, handle: &mut Handle, line: &[u8]) -> i32
    ensures { (opened : Option (List Line)) → HoldsLines handle.old opened
        → Goes handle.old result handle.new (Took opened line.now (group_behind handle.new)) }
{
    let Some(mut plan) = handle.take(alloc) else {
        return CLOSED;
    };
    let Plan { session, group } = &mut *plan;
    let number = take_line(session, group, line);
    handle.put(plan);
    i32::from(number)
}

/// Goes back one moment. Answers 0, or 25 where there is none, or `CLOSED`. A group that stands open stays so.
#[unsafe(no_mangle)]
pub extern "C" fn mcf_undo(alloc: Global, handle: &mut Handle) -> i32
    ensures goes { Goes handle.old result handle.new (λ old. Steps (StepBy commands.Undo old)) }
    ensures group { group_behind handle.new ≡ group_behind handle.old }
    ensures lines { KeepsLines handle.old handle.new }
{
    let Some(mut plan) = handle.take(alloc) else {
        return CLOSED;
    };
    let number = c_calls::undo(&mut plan.session);
    handle.put(plan);
    i32::from(number)
}

/// Goes on one moment. Answers 0, or 26 where there is none, or `CLOSED`. A group that stands open stays so.
#[unsafe(no_mangle)]
pub extern "C" fn mcf_redo(alloc: Global, handle: &mut Handle) -> i32
    ensures goes { Goes handle.old result handle.new (λ old. Steps (StepBy commands.Redo old)) }
    ensures group { group_behind handle.new ≡ group_behind handle.old }
    ensures lines { KeepsLines handle.old handle.new }
{
    let Some(mut plan) = handle.take(alloc) else {
        return CLOSED;
    };
    let number = c_calls::redo(&mut plan.session);
    handle.put(plan);
    i32::from(number)
}

/// Tells the verdict of the present moment, its sizes, and how many moments are past and future. Answers 0 or `CLOSED`.
#[unsafe(no_mangle)]
pub extern "C" fn mcf_look(alloc: Global, handle: &mut Handle, view: &mut View) -> i32
    ensures status { AtSession handle.old (λ _. result ≡ pos 0) }
    ensures shown { AtSession handle.old (λ s. IsViewOf s.moments view.new) }
    ensures closed { state_behind handle.old ≡ None → (result ≡ CLOSED) × (view.new ≡ view.old) }
    ensures unchanged { state_behind handle.new ≡ state_behind handle.old }
    ensures group { group_behind handle.new ≡ group_behind handle.old }
{
    let Some(plan) = handle.take(alloc) else {
        return CLOSED;
    };
    *view = look(&plan.session);
    handle.put(plan);
    0
}

/// Copies a best flow of the present moment, one entry an arc in their order.
///
/// Answers 0, or `NOT_THERE` where no flow is legal, `OTHER_LENGTH` or `CLOSED`, after which the room is as before.
#[unsafe(no_mangle)]
pub extern "C" fn mcf_flow(alloc: Global, handle: &mut Handle, flow: &mut [i64]) -> i32
    ensures status { result ≡ given_behind handle.old has_flow arc_count (length flow.old) }
    ensures copied { result ≡ pos 0 → AtPresent handle.old (λ m. flow.new ≡ flow_of m) }
    ensures best { result ≡ pos 0 → AtPresent handle.old (λ m. IsBest m.instance flow.new) }
    ensures room { result ≢ pos 0 → flow.new ≡ flow.old }
    ensures unchanged { state_behind handle.new ≡ state_behind handle.old }
    ensures group { group_behind handle.new ≡ group_behind handle.old }
{
    let Some(plan) = handle.take(alloc) else {
        return CLOSED;
    };
    let status = give_flow(&plan.session, flow);
    handle.put(plan);
    status
}

/// Copies the greatest potentials that certify the best flow, one entry a node in their order.
///
/// Answers 0, or `NOT_THERE` where no flow is legal, `OTHER_LENGTH` or `CLOSED`, after which the room is as before.
#[unsafe(no_mangle)]
pub extern "C" fn mcf_potentials(alloc: Global, handle: &mut Handle, potentials: &mut [i64]) -> i32
    ensures status { result ≡ given_behind handle.old has_flow node_count (length potentials.old) }
    ensures copied { result ≡ pos 0 → AtPresent handle.old (λ m. potentials.new ≡ m.potentials) }
    ensures certified { result ≡ pos 0 → AtPresent handle.old (CertifyFlow potentials.new) }
    ensures greatest { result ≡ pos 0 → AtPresent handle.old
        (λ m. IsGreatestPotential (reduced m.instance) m.flow (at_node potentials.new)) }
    ensures room { result ≢ pos 0 → potentials.new ≡ potentials.old }
    ensures unchanged { state_behind handle.new ≡ state_behind handle.old }
    ensures group { group_behind handle.new ≡ group_behind handle.old }
{
    let Some(plan) = handle.take(alloc) else {
        return CLOSED;
    };
    let status = give_potentials(&plan.session, potentials);
    handle.put(plan);
    status
}

/// Copies the chosen cut that shows why no flow is legal, one mark a node in their order.
///
/// Answers 0, or `NOT_THERE` where a flow is legal, `OTHER_LENGTH` or `CLOSED`, after which the room is as before.
#[unsafe(no_mangle)]
pub extern "C" fn mcf_cut(alloc: Global, handle: &mut Handle, cut: &mut [bool]) -> i32
    ensures status { result ≡ given_behind handle.old has_cut node_count (length cut.old) }
    ensures copied { result ≡ pos 0 → AtPresent handle.old (λ m. cut.new ≡ m.cut) }
    ensures none_legal { result ≡ pos 0 → AtPresent handle.old NoneIsLegal }
    ensures breach { result ≡ pos 0 → AtPresent handle.old (IsBreachOf cut.new) }
    ensures chosen { result ≡ pos 0 → AtPresent handle.old (IsChosen cut.new) }
    ensures room { result ≢ pos 0 → cut.new ≡ cut.old }
    ensures unchanged { state_behind handle.new ≡ state_behind handle.old }
    ensures group { group_behind handle.new ≡ group_behind handle.old }
{
    let Some(plan) = handle.take(alloc) else {
        return CLOSED;
    };
    let status = give_cut(&plan.session, cut);
    handle.put(plan);
    status
}

/// Ends a session, and gives its memory back. A closed handle stays closed.
#[unsafe(no_mangle)]
pub extern "C" fn mcf_close(alloc: Global, handle: &mut Handle)
    ensures { state_behind handle.new ≡ None }
{
    let _session = handle.take(alloc);
}
