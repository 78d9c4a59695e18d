//! Labels that were tested under an earlier flow: whether they certify the present one, and are the greatest that do. Only
//! what changed since is looked at.

ghost use Rattle.std.specs.Prelude.{◌≡◌, ◌<◌, IsTrue, length};
ghost use Rattle.residual_graph.specs.Graph.{HasEntries};
ghost use Rattle.residual_graph.specs.Residual.{IsPseudoflow};
ghost use Rattle.residual_graph.specs.declared.residual.Way.{Way};
ghost use Rattle.augmentation.specs.Held.{AllMarked, AreTestedIn, AreTracedAllOn, HangsWellOn, HoldAlongAllOn, HoldAtAllOn, HoldsAlongOn, HoldsAtOn, IsHeldSince, IsInRangeAt, IsLabelling};

use crate::certificate::{FLOOR, certifies, keeps_arc};
use predecessors::{Predecessor, are_traced, is_traced};
use residual_ends::ResidualEnds;
use residual_graph::{Graph, Way};
use shortest_paths::Tree;
use tracked::{Touched, Tracked};

/// Labels with predecessors, and the flow that they are to certify.
#[derive(Clone, Copy)]
struct Labelled<'a> {
    graph: &'a Graph,
    flow: &'a [i64],
    labels: &'a [i64],
    predecessors: &'a [Predecessor],
    /// A quick table of the ends of arcs at each node.
    ends: &'a ResidualEnds,
}

/// Whether the labels of these nodes are in the range with which a run of pushes begins.
fn are_in_range_at(labels: &[i64], nodes: &Touched) -> bool
    ensures { IsTrue result → AllMarked nodes.now (length labels.now) (IsInRangeAt labels.now) }
{
    for node in nodes.places() {
        let v = *node as usize;
        if v >= labels.len() {
            continue;
        }
        if labels[v] > 0 || labels[v] < FLOOR {
            return false;
        }
    }
    true
}

/// Whether the node to which the residual arc in this way along an arc leads is traced, if it hangs on that arc.
fn hangs_well(on: Labelled<'_>, k: usize, way: Way) -> bool
    requires arc { k < length on.graph.now.rows }
    requires labelling { IsLabelling on }
    ensures { IsTrue result → HangsWellOn on.entry k way }
{
    let v = on.graph.end(k, way);
    on.predecessors[v].end as usize / 2 != k
        || is_traced(on.graph, on.flow, on.labels, on.predecessors, v)
}

/// Whether the labels certify an arc, and each node that hangs on it is traced.
fn holds_along(on: Labelled<'_>, k: usize) -> bool
    requires arc { k < length on.graph.now.rows }
    requires labelling { IsLabelling on }
    ensures { IsTrue result → HoldsAlongOn on.entry k }
{
    keeps_arc(on.graph, on.flow, on.labels, k)
        && hangs_well(on, k, Way::Forward)
        && hangs_well(on, k, Way::Backward)
}

/// Whether this is so of these arcs.
fn hold_along_all(on: Labelled<'_>, arcs: &Touched) -> bool
    requires labelling { IsLabelling on }
    ensures { IsTrue result → HoldAlongAllOn on.entry arcs.now }
{
    for place in arcs.places() {
        let k = *place as usize;
        if k >= on.flow.len() {
            continue;
        }
        if !holds_along(on, k) {
            return false;
        }
    }
    true
}

/// Whether it is so of each arc at a node, and the node is traced.
fn holds_at(on: Labelled<'_>, node: u32) -> bool
    requires graph { HasEntries (length on.labels.now) on.graph.now }
    requires labelling { IsLabelling on }
    requires node_in { node < length on.labels.now }
    ensures { IsTrue result → HoldsAtOn on.entry node }
{
    if !is_traced(on.graph, on.flow, on.labels, on.predecessors, node as usize) {
        return false;
    }
    let mut current = on.graph.first_end(node);
    if (node as usize) < on.ends.entries() {
        // These are guesses: so no end has to wait for the one before it to be read. The list has the greatest first.
        for guess in on.ends.at(node as usize).numbers.iter().rev() {
            if current != Some(*guess) {
                break;
            }
            if !holds_along(on, *guess as usize / 2) {
                return false;
            }
            current = on.graph.next_end(*guess);
        }
    }
    while let Some(end) = current {
        if !holds_along(on, end as usize / 2) {
            return false;
        }
        current = on.graph.next_end(end);
    }
    true
}

/// Whether it is so at each of these nodes.
fn hold_at_all(on: Labelled<'_>, nodes: &Touched) -> bool
    requires graph { HasEntries (length on.labels.now) on.graph.now }
    requires labelling { IsLabelling on }
    ensures { IsTrue result → HoldAtAllOn on.entry nodes.now }
{
    for node in nodes.places() {
        let v = *node as usize;
        if v >= on.labels.len() {
            continue;
        }
        if !holds_at(on, *node) {
            return false;
        }
    }
    true
}

/// Whether each of these nodes is traced.
fn are_traced_at(on: Labelled<'_>, nodes: &Touched) -> bool
    requires labelling { IsLabelling on }
    ensures { IsTrue result → AreTracedAllOn on.entry nodes.now }
{
    for node in nodes.places() {
        let v = *node as usize;
        if v >= on.labels.len() {
            continue;
        }
        if !is_traced(on.graph, on.flow, on.labels, on.predecessors, v) {
            return false;
        }
    }
    true
}

/// Whether labels that are held certify the flow, and are the greatest that do: looked at are noted and written arcs, nodes
/// beside the noted ones, and touched ones.
pub(crate) fn holds(graph: &Graph, flow: &Tracked<i64>, ends: &ResidualEnds, tree: &Tree) -> bool
    requires graph { HasEntries (length tree.now.labels) graph.now }
    requires flow { IsPseudoflow (length tree.now.labels) graph.now.rows flow.now.entries }
    requires held { IsHeldSince graph.now.rows flow.now.whole tree.now }
    ensures { IsTrue result → AreTestedIn graph.now.rows flow.now.entries tree.now }
{
    if tree.is_lost() {
        return false;
    }
    let labels = tree.labels();
    let touched = tree.touched();
    if !are_in_range_at(labels, touched) {
        return false;
    }
    let on = Labelled {
        graph,
        flow: flow.entries(),
        labels,
        predecessors: tree.predecessors(),
        ends,
    };
    if !hold_along_all(on, tree.noted()) {
        return false;
    }
    if !hold_along_all(on, flow.written()) {
        return false;
    }
    are_traced_at(on, tree.beside()) && hold_at_all(on, touched)
}

/// Whether labels certify the flow, and are the greatest that do: all are looked at.
pub(crate) fn holds_whole(graph: &Graph, flow: &[i64], tree: &Tree) -> bool
    requires flow { IsPseudoflow (length tree.now.labels) graph.now.rows flow.now }
    ensures { IsTrue result → AreTestedIn graph.now.rows flow.now tree.now }
{
    certifies(graph, flow, tree.labels())
        && are_traced(graph, flow, tree.labels(), tree.predecessors())
}
