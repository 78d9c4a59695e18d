//! Dijkstra's algorithm over reduced costs, from the nodes in excess to all that they reach (Ahuja, Magnanti, Orlin,
//! "Network Flows": successive shortest paths). The next node comes from a heap, and the arcs that are looked at are those
//! at the nodes that the search comes to.
//!
//! A node waits once a residual arc leads to it from a settled one. Its key is how far it is from the nodes in excess:
//! potentials of settled nodes are raised by that, so it is the reduced cost of this residual arc.

ghost use Rattle.std.specs.Prelude.{◌≡◌, ◌⊎◌, ℕ, ◌*◌, ◌/◌, ◌<◌, pos, ◌+ℤ◌, ◌≤ℤ◌, ℤ, FitsSigned, IfNone, IfSome, List, IsTrue, ◌↔◌, length};
ghost use Rattle.std.specs.Int.{w64};
ghost use Rattle.residual_graph.specs.Limits.{entry_limit, potential_floor};
ghost use Rattle.residual_graph.specs.Residual.{ArePotentials, IsPseudoflow, IsReducedCostOptimal, number_at};
ghost use Rattle.residual_graph.specs.Walk.{end_way};
ghost use Rattle.residual_graph.specs.declared.residual.Way.{Way};
ghost use Rattle.predecessors.specs.Limits.{label_floor};
ghost use Rattle.predecessors.specs.Predecessor.{AreBounded, rank_at};
ghost use Rattle.shortest_paths.specs.Progress.{AreServedFromOn, AreServedOn, CrossesOn, HaveJoinedOn, IsServedOn};
ghost use Rattle.shortest_paths.specs.Search.{AreLowered, IsDeficitAt, IsDeficitFound, IsFromExcess, IsWithinFloor, come_to, lowered_by, raised, rank_before};
ghost use Rattle.shortest_paths.specs.Tree.{IsForgotten};

use crate::progress::Progress;
use crate::tree::Tree;
use containers::{Queue, Waiting};
use predecessors::{Predecessor, leaving, reduced_along};
use residual_graph::Graph;

/// Whether the residual arc that leaves at an end is there, and leads from a node that the search reached to an open one.
pub(crate) fn crosses(on: Progress<'_>, end: u32) -> bool
    requires end { end / 2 < length on.graph.now.rows }
    ensures { IsTrue result ↔ CrossesOn on.entry end }
{
    let arc = leaving(end);
    let start = on.graph.start(arc.arc as usize, arc.way);
    let far = on.graph.end(arc.arc as usize, arc.way);
    !on.predecessors[start].is_open
        && on.predecessors[far].is_open
        && on.graph.has_room(on.flow, arc)
}

/// Has the node wait to which the residual arc leads that leaves at an end, where that is there and crosses.
fn offer(on: Progress<'_>, queue: &mut Queue, end: u32)
    requires sized { length queue.old.entries ≡ length on.potentials.now }
    requires end { end / 2 < length on.graph.now.rows }
    ensures grown { HaveJoinedOn on.entry queue.old queue.new }
    ensures served { IsServedOn on.entry queue.new (end / 2) (end_way end) }
{
    if !crosses(on, end) {
        return;
    }
    let arc = leaving(end);
    let far = on.graph.end(arc.arc as usize, arc.way);
    let key = reduced_along(&on.graph.row(arc.arc as usize), on.potentials, arc.way);
    queue.offer(far, Waiting { key, end });
}

/// The same for both residual arcs along an arc.
fn offer_over(on: Progress<'_>, queue: &mut Queue, arc: u32)
    requires sized { length queue.old.entries ≡ length on.potentials.now }
    requires arc { arc < length on.graph.now.rows }
    ensures grown { HaveJoinedOn on.entry queue.old queue.new }
    ensures served { (way : Way) → IsServedOn on.entry queue.new arc way }
{
    let tail = 2 * arc;
    let head = 2 * arc + 1;
    offer(on, queue, tail);
    offer(on, queue, head);
}

/// The same for all residual arcs that leave a node, where the search reached it.
pub(crate) fn offer_from(on: Progress<'_>, queue: &mut Queue, node: usize)
    requires sized { length queue.old.entries ≡ length on.potentials.now }
    requires node { node < length on.potentials.now }
    ensures grown { HaveJoinedOn on.entry queue.old queue.new }
    ensures served { AreServedFromOn on.entry queue.new node }
{
    if on.predecessors[node].is_open {
        return;
    }
    let mut current = on.graph.first_end(node as u32);
    while let Some(end) = current {
        offer_over(on, queue, end / 2);
        current = on.graph.next_end(end);
    }
}

/// The same for all residual arcs that leave nodes that the search reached.
fn offer_from_all(on: Progress<'_>, queue: &mut Queue)
    requires sized { length queue.old.entries ≡ length on.potentials.now }
    ensures grown { HaveJoinedOn on.entry queue.old queue.new }
    ensures served { AreServedOn on.entry queue.new }
{
    for v in 0..on.predecessors.len() {
        offer_from(on, queue, v);
    }
}

/// Raises the potential of a node by the key with which it waited.
pub(crate) fn raise(potentials: &mut [i64], node: usize, waiting: Waiting)
    requires node { node < length potentials.old }
    requires fits { FitsSigned w64 (number_at potentials.old node +ℤ waiting.key) }
    ensures { potentials.new ≡ raised potentials.old node waiting.key }
{
    potentials[node] += waiting.key;
}

/// Comes to a node along the residual arc that leaves at an end.
pub(crate) fn come_along(graph: &Graph, predecessors: &mut [Predecessor], node: usize, end: u32)
    requires flow { (x : List ℤ) × IsPseudoflow (length predecessors.old) graph.now.rows x }
    requires node { node < length predecessors.old }
    requires end { end / 2 < length graph.now.rows }
    requires low { rank_before graph.now.rows predecessors.old end < entry_limit }
    ensures { predecessors.new ≡ come_to graph.now.rows predecessors.old node end }
{
    let arc = leaving(end);
    let start = graph.start(arc.arc as usize, arc.way);
    predecessors[node] = Predecessor {
        end,
        rank: predecessors[start].rank + 1,
        is_open: false,
    };
}

/// A potential less `fall`, unless its node is open.
fn lowered(potential: i64, predecessor: Predecessor, fall: i64) -> i64
    requires low { IsWithinFloor potential }
    requires fall { (pos 0 ≤ℤ fall) × (fall ≤ℤ pos potential_floor) }
    ensures { result ≡ lowered_by predecessor.is_open potential fall }
{
    if predecessor.is_open {
        potential
    } else {
        potential - fall
    }
}

/// Lowers the potentials of the nodes that the search reached by `fall`.
fn lower_reached(potentials: &mut [i64], predecessors: &[Predecessor], fall: i64)
    requires sized { length predecessors.now ≡ length potentials.old }
    requires bounded { AreBounded potential_floor potentials.old }
    requires fall { (pos 0 ≤ℤ fall) × (fall ≤ℤ pos potential_floor) }
    ensures { AreLowered potentials.old potentials.new predecessors.now fall }
{
    for v in 0..potentials.len() {
        potentials[v] = lowered(potentials[v], predecessors[v], fall);
    }
}

/// Begins a search at the nodes in excess.
pub(crate) fn begin_in_excess(excess: &[i64], predecessors: &mut [Predecessor])
    requires sized { length predecessors.old ≡ length excess.now }
    ensures from { IsFromExcess excess.now predecessors.new }
    ensures flat { (v : ℕ) → rank_at predecessors.new v ≡ 0 }
{
    predecessors.fill(Predecessor::open());
    for v in 0..predecessors.len() {
        if excess[v] > 0 {
            predecessors[v] = Predecessor::root();
        }
    }
}

/// The node in deficit to which a search came first, once it came to this node too.
fn first_in_deficit(found: Option<usize>, excess: &[i64], node: usize) -> Option<usize>
    requires node { node < length excess.now }
    ensures some { IfSome result (λ v. (found ≡ Some v) ⊎ IsDeficitAt excess.now node v) }
    ensures none { IfNone result ((found ≡ None) × (pos 0 ≤ℤ number_at excess.now node)) }
{
    if found.is_none() && excess[node] < 0 {
        return Some(node);
    }
    found
}

/// Whether a node in deficit was found, and no other is left.
fn is_last(found: Option<usize>, lacking: usize) -> bool
    ensures { IsTrue result → IfNone found ⊥ }
{
    found.is_some() && lacking == 0
}

impl Tree {
    /// Searches from the nodes in excess for all that they reach, or until no node in deficit is left, and lowers the labels
    /// of these nodes until the residual arcs of the paths to them cost nothing: so one search serves many pushes. Gives the
    /// first node in deficit that it came to, or nothing where none can be reached.
    #[inline(never)] // a name of its own in the program, for profiles
    pub fn search_from_excess(
        &mut self,
        graph: &Graph,
        flow: &[i64],
        excess: &[i64],
        queue: &mut Queue,
    ) -> Option<usize>
        requires certified { IsReducedCostOptimal graph.now.rows flow.now self.old.labels }
        requires in_range { ArePotentials (length self.old.labels) label_floor self.old.labels }
        requires excess_in { length excess.now ≡ length self.old.labels }
        requires queue_sized { length queue.old.entries ≡ length self.old.labels }
        ensures sized { length self.new.labels ≡ length self.old.labels }
        ensures forgotten { IsForgotten self.new }
        ensures certified { IsReducedCostOptimal graph.now.rows flow.now self.new.labels }
        ensures found { IsDeficitFound graph.now.rows flow.now self.new.labels excess.now
            self.new.predecessors result }
        ensures queue_sized { length queue.new.entries ≡ length queue.old.entries }
    {
        self.forget();
        let potentials: &mut [i64] = &mut self.labels;
        let predecessors: &mut [Predecessor] = &mut self.predecessors;
        begin_in_excess(excess, predecessors);
        queue.clear();
        let begun = Progress {
            graph,
            flow,
            potentials,
            predecessors,
        };
        offer_from_all(begun, queue);
        let mut distance = 0;
        let mut found = None;
        let mut lacking = excess.iter().filter(|x| **x < 0).count();
        while let Some(node) = queue.take_first() {
            let waiting = queue.entry(node);
            distance = waiting.key;
            raise(potentials, node, waiting);
            come_along(graph, predecessors, node, waiting.end);
            found = first_in_deficit(found, excess, node);
            lacking = lacking.saturating_sub(usize::from(excess[node] < 0));
            if is_last(found, lacking) {
                lower_reached(potentials, &self.predecessors, distance);
                return found;
            }
            let reached = Progress {
                graph,
                flow,
                potentials,
                predecessors,
            };
            offer_from(reached, queue, node);
        }
        lower_reached(potentials, &self.predecessors, distance);
        found
    }
}
