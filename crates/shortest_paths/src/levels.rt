//! The levels of the residual arcs that cost nothing: how many of these lead, at least, from the nodes in excess to each
//! node (Ahuja, Magnanti, Orlin, "Network Flows": layered networks).
//!
//! Proved is that such arcs lead to each node that is reached. That no fewer do, or that all such nodes are reached, is
//! not: pushes need neither.

ghost use Rattle.std.specs.Prelude.{◌≡◌, ◌+◌, ◌/◌, ◌<◌, false, IsTrue, List, ℤ, length};
ghost use Rattle.residual_graph.specs.Limits.{potential_floor};
ghost use Rattle.residual_graph.specs.Residual.{IsPseudoflow, IsReducedCostOptimal};
ghost use Rattle.predecessors.specs.Predecessor.{AreBounded};
ghost use Rattle.shortest_paths.specs.Levels.{IsHangingOn};
ghost use Rattle.shortest_paths.specs.Progress.{IsLeadingToOn};
ghost use Rattle.shortest_paths.specs.Search.{IsSearch};
ghost use Rattle.shortest_paths.specs.Tree.{IsForestOf};

use crate::progress::Progress;
use crate::search::{begin_in_excess, come_along, crosses};
use crate::tree::Tree;
use containers::{Queue, Waiting};
use predecessors::{Predecessor, leaving, reduced_along};
use residual_graph::Graph;

/// Has the node wait to which the residual arc leads that leaves at an end, where that is there, crosses and costs nothing.
fn offer_level(on: Progress<'_>, queue: &mut Queue, end: u32)
    requires sized { length queue.old.entries ≡ length on.potentials.now }
    requires end { end / 2 < length on.graph.now.rows }
    ensures { length queue.new.entries ≡ length queue.old.entries }
{
    let arc = leaving(end);
    let far = on.graph.end(arc.arc as usize, arc.way);
    if leads_to(on, far, end) {
        let start = on.graph.start(arc.arc as usize, arc.way);
        let key = i64::from(on.predecessors[start].rank);
        queue.offer(far, Waiting { key, end });
    }
}

/// The same for all residual arcs that leave a node.
fn offer_levels_from(on: Progress<'_>, queue: &mut Queue, node: usize)
    requires sized { length queue.old.entries ≡ length on.potentials.now }
    requires node { node < length on.potentials.now }
    ensures { length queue.new.entries ≡ length queue.old.entries }
{
    if on.predecessors[node].is_open {
        return;
    }
    let mut current = on.graph.first_end(node as u32);
    while let Some(end) = current {
        offer_level(on, queue, end);
        current = on.graph.next_end(end);
    }
}

/// Whether the residual arc that leaves at an end is there, leads from a node that was reached to this one, to which no
/// search came yet, and costs nothing.
fn leads_to(on: Progress<'_>, node: usize, end: u32) -> bool
    ensures { IsTrue result → IsLeadingToOn on.entry node end }
{
    if end as usize / 2 >= on.graph.rows().len() || !crosses(on, end) {
        return false;
    }
    let arc = leaving(end);
    let row = on.graph.row(arc.arc as usize);
    arc.way.end(&row) as usize == node && reduced_along(&row, on.potentials, arc.way) == 0
}

impl Tree {
    /// Searches breadth first from the nodes in excess over residual arcs that cost nothing, and says whether it came to a
    /// node in deficit.
    pub fn search_levels(
        &mut self,
        graph: &Graph,
        flow: &[i64],
        excess: &[i64],
        queue: &mut Queue,
    ) -> bool
        requires certified { IsReducedCostOptimal graph.now.rows flow.now self.old.labels }
        requires excess_in { length excess.now ≡ length self.old.labels }
        requires queue_sized { length queue.old.entries ≡ length self.old.labels }
        ensures same { self.new ≡ record self.old { predecessors = self.new.predecessors } }
        ensures search { IsSearch graph.now.rows flow.now self.new.labels self.new.predecessors }
        ensures queue_sized { length queue.new.entries ≡ length queue.old.entries }
    {
        let predecessors: &mut [Predecessor] = &mut self.predecessors;
        begin_in_excess(excess, predecessors);
        queue.clear();
        let begun = Progress {
            graph,
            flow,
            potentials: &self.labels,
            predecessors,
        };
        for v in 0..begun.predecessors.len() {
            offer_levels_from(begun, queue, v);
        }
        let mut has_deficit = false;
        while let Some(node) = queue.take_first() {
            let end = queue.entry(node).end;
            let before = Progress {
                graph,
                flow,
                potentials: &self.labels,
                predecessors,
            };
            if !leads_to(before, node, end) {
                break;
            }
            come_along(graph, predecessors, node, end);
            has_deficit = has_deficit || excess[node] < 0;
            let reached = Progress {
                graph,
                flow,
                potentials: &self.labels,
                predecessors,
            };
            offer_levels_from(reached, queue, node);
        }
        has_deficit
    }

    /// Hangs a node of the forest that a search left on the node from which the residual arc leads that leaves at an end, where
    /// that costs nothing and the rank of the node stays; says whether it does.
    pub fn hang_on(&mut self, graph: &Graph, node: usize, end: u32) -> bool
        requires flow { (x : List ℤ) × IsPseudoflow (length self.old.labels) graph.now.rows x }
        requires bounded { AreBounded potential_floor self.old.labels }
        requires node { node < length self.old.labels }
        requires forest { IsForestOf graph.now.rows self.old }
        ensures same { self.new ≡ record self.old { predecessors = self.new.predecessors } }
        ensures forest { IsForestOf graph.now.rows self.new }
    {
        if !is_hanging_on(graph, &self.labels, &self.predecessors, node, end) {
            return false;
        }
        self.predecessors[node].end = end;
        true
    }
}

/// Whether the residual arc that leaves at an end leads to a node from one of the rank before, and costs nothing.
fn is_hanging_on(
    graph: &Graph,
    potentials: &[i64],
    predecessors: &[Predecessor],
    node: usize,
    end: u32,
) -> bool
    requires flow { (x : List ℤ) × IsPseudoflow (length potentials.now) graph.now.rows x }
    requires bounded { AreBounded potential_floor potentials.now }
    requires sized { length predecessors.now ≡ length potentials.now }
    requires node { node < length potentials.now }
    ensures { IsTrue result → IsHangingOn graph.now.rows potentials.now predecessors.now node
        end }
{
    if end as usize / 2 >= graph.rows().len() {
        return false;
    }
    let arc = leaving(end);
    let row = graph.row(arc.arc as usize);
    let start = arc.way.start(&row) as usize;
    arc.way.end(&row) as usize == node
        && is_next(predecessors[start], predecessors[node])
        && reduced_along(&row, potentials, arc.way) == 0
}

/// Whether a node with this predecessor was reached, and one with the other is one hop further from the beginning.
fn is_next(before: Predecessor, after: Predecessor) -> bool
    ensures { IsTrue result → (before.is_open ≡ false) × (after.rank ≡ before.rank + 1) }
{
    !before.is_open && before.rank < after.rank && after.rank - before.rank == 1
}
