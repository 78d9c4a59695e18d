//! Where pushes begin, and whether they may begin there.

ghost use Rattle.std.specs.Prelude.{◌≡◌, ◌<◌, ℕ, IsTrue, length};
ghost use Rattle.residual_graph.specs.Residual.{IsPseudoflow, IsRow, IsWithinRow, number_at, row_at};
ghost use Rattle.flow_changes.specs.Push.{AreSmall};
ghost use Rattle.augmentation.specs.Pseudoflow.{IsReady};

use augmentation::certifies;
use dimacs_text::ArcRow;
use residual_graph::Graph;
use std::alloc::{AllocError, Global};

/// The most units in excess or in deficit at a node.
const MOST_EXCESS: i64 = 301_000_000_000_000;
/// The most entries of a table of nodes.
const MOST_ENTRIES: usize = 50_001;
/// The most rows of a graph.
pub const MOST_ROWS: usize = 200_001;
/// The greatest capacity.
const MOST_FLOW: i64 = 100_000_000_000_000;
/// The greatest cost of a unit, either way.
const MOST_COST: i64 = 1_000_000_000_000;

/// Whether no excess and no deficit is above the limit.
fn are_small(excess: &[i64]) -> bool
    ensures { IsTrue result → AreSmall excess.now }
{
    for e in excess {
        if *e > MOST_EXCESS || *e < -MOST_EXCESS {
            return false;
        }
    }
    true
}

/// Whether an arc is within the limits, between nodes that have an entry.
fn is_row(row: &ArcRow, entries: usize) -> bool
    ensures { IsTrue result → IsRow entries row.now }
{
    if row.tail as usize >= entries || row.head as usize >= entries {
        return false;
    }
    if row.low < 0 || row.low > row.cap || row.cap > MOST_FLOW {
        return false;
    }
    row.cost >= -MOST_COST && row.cost <= MOST_COST
}

/// Whether so is each arc.
fn are_rows(rows: &[ArcRow], entries: usize) -> bool
    ensures { IsTrue result → (k : ℕ) → k < length rows.now → IsRow entries (row_at rows.now k) }
{
    for k in 0..rows.len() {
        if !is_row(&rows[k], entries) {
            return false;
        }
    }
    true
}

/// Whether a flow is within the bounds of each of as many arcs.
fn is_within(rows: &[ArcRow], flow: &[i64]) -> bool
    requires { length flow.now ≡ length rows.now }
    ensures { IsTrue result → (k : ℕ) → k < length rows.now
        → IsWithinRow (row_at rows.now k) (number_at flow.now k) }
{
    for k in 0..rows.len() {
        if flow[k] < rows[k].low || flow[k] > rows[k].cap {
            return false;
        }
    }
    true
}

/// Whether a flow is within the bounds of each arc, in a graph within the limits.
fn is_pseudoflow(graph: &Graph, flow: &[i64], entries: usize) -> bool
    ensures { IsTrue result → IsPseudoflow entries graph.now.rows flow.now }
{
    let rows = graph.rows();
    if entries > MOST_ENTRIES || rows.len() > MOST_ROWS || flow.len() != rows.len() {
        return false;
    }
    are_rows(rows, entries) && is_within(rows, flow)
}

/// Whether pushes may begin with a flow, its excess and potentials.
pub fn are_ready(graph: &Graph, flow: &[i64], excess: &[i64], potentials: &[i64]) -> bool
    ensures { IsTrue result → IsReady graph.now flow.now potentials.now excess.now }
{
    let entries = potentials.len();
    if entries != graph.network().nodes() as usize + 1 || excess.len() != entries {
        return false;
    }
    if !are_small(excess) || !is_pseudoflow(graph, flow, entries) {
        return false;
    }
    certifies(graph, flow, potentials)
}

/// The flow that potentials of 0 certify: an arc that gains is full, and another one carries its lower bound.
pub fn start_flow(alloc: Global, rows: &[ArcRow]) -> Result<Vec<i64>, AllocError> {
    let mut flow = Vec::with_capacity(alloc, rows.len())?;
    for row in rows {
        flow.push(if row.cost < 0 { row.cap } else { row.low })?;
    }
    Ok(flow)
}
