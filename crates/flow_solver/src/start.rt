//! What the tables begin with.

ghost use Rattle.std.specs.Prelude.{◌≡◌, ◌≤◌, ◌+◌, IfOk, false, length, map, pos, replicate, true, vec_capacity};
ghost use Rattle.flow_solver.specs.Balance.{IsBalanceOf};
ghost use Rattle.flow_solver.specs.Moment.{start};
ghost use Rattle.residual_graph.specs.Graph.{IsGraph};
ghost use Rattle.residual_graph.specs.Limits.{row_limit};

use crate::balance::Balance;
use crate::potentials::Potentials;
use augmentation::Scratch;
use cuts::Cut;
use dimacs_text::ArcRow;
use residual_graph::Graph;
use std::alloc::{AllocError, Global};
use tracked::Tracked;

/// The flow of an arc at the start, which keeps the sign rule under potentials 0.
fn start(row: &ArcRow) -> i64
    ensures { result ≡ start row.now }
{
    if row.cost < 0 { row.cap } else { row.low }
}

/// The flow of each arc at the start, with room for so many arcs.
fn flow_at_start(alloc: Global, rows: &[ArcRow], room: usize) -> Result<Vec<i64>, AllocError>
    ensures flow { IfOk result (λ flow. flow.items ≡ map start rows.now) }
    ensures room { IfOk result (λ flow. room ≤ vec_capacity flow) }
{
    let mut flow = Vec::with_capacity(alloc, room)?;
    for row in rows {
        flow.push(start(row))?;
    }
    Ok(flow)
}

/// The start flow, with room for so many arcs.
fn start_flow(alloc: Global, rows: &[ArcRow], room: usize) -> Result<Tracked<i64>, AllocError>
    requires fits { length rows.now ≤ room }
    requires few { room ≤ row_limit }
    ensures entries { IfOk result (λ flow. flow.entries ≡ map start rows.now) }
    ensures whole { IfOk result (λ flow. flow.whole ≡ map start rows.now) }
    ensures room { IfOk result (λ flow. flow.room ≡ room) }
{
    Tracked::new(alloc, flow_at_start(alloc, rows, room)?, room)
}

/// The potentials at the start.
fn zeros(alloc: Global, entries: usize) -> Result<Tracked<i64>, AllocError>
    requires few { entries ≤ row_limit }
    ensures entries { IfOk result (λ potentials. potentials.entries ≡ replicate entries (pos 0)) }
    ensures kept { IfOk result (λ potentials. potentials.kept ≡ replicate entries (pos 0)) }
    ensures room { IfOk result (λ potentials. potentials.room ≡ entries) }
{
    Tracked::new(alloc, vec![in alloc; 0; entries]?, entries)
}

/// The start flow of a network, with room for each arc that it may have, and the balance of that flow.
pub fn start_balance(alloc: Global, graph: &Graph) -> Result<(Tracked<i64>, Balance), AllocError>
    requires { IsGraph graph.now }
    ensures flow { IfOk result (λ t. t.0.entries ≡ map start graph.now.rows) }
    ensures whole { IfOk result (λ t. t.0.whole ≡ map start graph.now.rows) }
    ensures room { IfOk result (λ t. t.0.room ≡ graph.now.net.room + 1) }
    ensures balance { IfOk result (λ t. IsBalanceOf graph.now.net graph.now.rows t.0 t.1) }
{
    let room = graph.network().room() as usize + 1;
    let flow = start_flow(alloc, graph.rows(), room)?;
    let balance = Balance::new(alloc, graph.network(), graph.rows(), flow.entries())?;
    Ok((flow, balance))
}

/// What there is for each node at the start, with an entry for no node in front: potentials, a cut, and the room of the
/// searches.
pub fn start_nodes(
    alloc: Global,
    nodes: u32,
    arcs: usize,
) -> Result<(Potentials, Cut, Scratch), AllocError>
    requires few { nodes + 1 ≤ row_limit }
    ensures potentials { IfOk result (λ t. t.0.table.entries ≡ replicate (nodes + 1) (pos 0)) }
    ensures potentials_kept { IfOk result (λ t. t.0.table.kept ≡ replicate (nodes + 1) (pos 0)) }
    ensures told { IfOk result (λ t. t.0.greatest ≡ false) }
    ensures cut { IfOk result (λ t. t.1.entries ≡ replicate (nodes + 1) false) }
    ensures cut_kept { IfOk result (λ t. t.1.kept ≡ replicate (nodes + 1) false) }
    ensures scratch { IfOk result (λ t. length t.2.tree.labels ≡ nodes + 1) }
    ensures lost { IfOk result (λ t. t.2.tree.is_lost ≡ true) }
    ensures apart { IfOk result (λ t. t.2.tree.are_apart ≡ true) }
{
    let entries = nodes as usize + 1;
    let potentials = zeros(alloc, entries)?;
    let cut = Cut::new(alloc, entries)?;
    let scratch = Scratch::new(alloc, nodes + 1, arcs)?;
    let potentials = Potentials {
        table: potentials,
        greatest: false,
    };
    Ok((potentials, cut, scratch))
}
