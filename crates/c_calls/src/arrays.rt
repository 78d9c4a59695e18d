//! A problem of the kind `min` by arrays, for a program that has no text of it.

ghost use Rattle.std.specs.Prelude.{◌≡◌, ◌≤◌, ◌<◌, ◌↔◌, IfErr, IfOk, OnOk, IsTrue, length};
ghost use Rattle.dimacs_text.specs.declared.problem.TheConstants.{NODE_LIMIT};
ghost use Rattle.session.specs.Step.{state_of};
ghost use Rattle.c_calls.specs.Arrays.{AreFaultless, IsEven, IsNotOpenedBy, IsOpeningBy, array_row, array_rows, problem_of, supply_marks};

use crate::array_fault::{ArrayFault, first_fault};
use crate::status::{FAULT, MEMORY, OTHER_LENGTH};
use dimacs_text::{ArcRow, Kind, NodeMark, Problem, Size};
use session::Session;
use std::alloc::{AllocError, Global};

/// A problem of the kind `min`: one entry a node in `supply`, and one entry an arc in each of the others.
#[repr(C)]
#[derive(Clone, Copy)]
pub struct Arrays<'a> {
    /// How much each node sends out; below 0 is what it takes in.
    pub supply: &'a [i64],
    /// The node that each arc leaves, counted from 1.
    pub tail: &'a [u32],
    /// The node that each arc enters, counted from 1.
    pub head: &'a [u32],
    /// The least flow of each arc.
    pub low: &'a [i64],
    /// The greatest flow of each arc.
    pub cap: &'a [i64],
    /// The cost of a unit of flow on each arc.
    pub cost: &'a [i64],
}

/// Opens a session on the problem of arrays, with room for `extra` arcs more, up to the limit of arcs: exactly the session
/// that a text opens whose node and arc lines say the same.
///
/// # Errors
/// `OTHER_LENGTH` where the arrays of arcs differ in length; `FAULT`, with the fault; or `MEMORY`.
pub fn open_arrays(
    alloc: Global,
    arrays: &Arrays,
    extra: u32,
    fault: &mut ArrayFault,
) -> Result<Session, i32>
    ensures opened { IfOk result (λ session. IsOpeningBy arrays.now extra (state_of session)) }
    ensures no_fault { OnOk result (fault.new ≡ fault.old) }
    ensures refused { IfErr result (λ status. IsNotOpenedBy arrays.now status fault.old fault.new) }
{
    if !is_even(arrays) {
        return Err(OTHER_LENGTH);
    }
    if let Some(found) = first_fault(arrays) {
        *fault = found;
        return Err(FAULT);
    }
    let Ok(problem) = problem_of(alloc, arrays) else {
        return Err(MEMORY);
    };
    match Session::open_from(alloc, problem, extra) {
        Ok(session) => Ok(session),
        Err(_) => Err(MEMORY),
    }
}

/// Whether each array of arcs has as many entries as the first.
fn is_even(arrays: &Arrays) -> bool
    ensures { IsTrue result ↔ IsEven arrays.now }
{
    let arcs = arrays.tail.len();
    arrays.head.len() == arcs
        && arrays.low.len() == arcs
        && arrays.cap.len() == arcs
        && arrays.cost.len() == arcs
}

/// The arc in a place.
pub(crate) fn row_at(arrays: &Arrays, place: usize) -> ArcRow
    requires even { IsEven arrays.now }
    requires within { place < length arrays.now.tail.now }
    ensures { result ≡ array_row arrays.now place }
{
    ArcRow {
        tail: arrays.tail[place],
        head: arrays.head[place],
        low: arrays.low[place],
        cap: arrays.cap[place],
        cost: arrays.cost[place],
    }
}

/// The problem of arrays without a fault.
fn problem_of(alloc: Global, arrays: &Arrays) -> Result<Problem, AllocError>
    requires even { IsEven arrays.now }
    requires faultless { AreFaultless arrays.now }
    ensures { IfOk result (λ problem. problem ≡ problem_of arrays.now) }
{
    let size = Size {
        kind: Kind::Min,
        nodes: arrays.supply.len() as u32,
        arcs: arrays.tail.len() as u32,
    };
    let marks = marks_of(alloc, arrays.supply)?;
    let rows = rows_of(alloc, arrays)?;
    Ok(Problem::new(size, marks, rows))
}

/// A mark of each node, with its supply.
fn marks_of(alloc: Global, supply: &[i64]) -> Result<Vec<NodeMark>, AllocError>
    requires { length supply.now ≤ NODE_LIMIT }
    ensures { IfOk result (λ marks. marks.items ≡ supply_marks supply.now) }
{
    let mut marks = Vec::with_capacity(alloc, supply.len())?;
    for (place, value) in supply.iter().enumerate() {
        marks.push(NodeMark::Supply {
            id: place as u32 + 1,
            value: *value,
        })?;
    }
    Ok(marks)
}

/// The arcs, in order.
fn rows_of(alloc: Global, arrays: &Arrays) -> Result<Vec<ArcRow>, AllocError>
    requires { IsEven arrays.now }
    ensures { IfOk result (λ rows. rows.items ≡ array_rows arrays.now) }
{
    let mut rows = Vec::with_capacity(alloc, arrays.tail.len())?;
    for place in 0..arrays.tail.len() {
        rows.push(row_at(arrays, place))?;
    }
    Ok(rows)
}
