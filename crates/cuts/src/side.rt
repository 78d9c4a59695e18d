//! The nodes of a side: those that the nodes in excess reach, or those that reach a node in deficit.
//!
//! A quick search marks nodes, each over a residual arc that is there. That it leaves none out is tested then. Where the
//! arcs over which nodes were marked the last time still lead to all, that test is all that is left to do.

ghost use Rattle.std.specs.Prelude.{◌≡◌, ◌<◌, IfNone, IfSome, length, true};
ghost use Rattle.residual_graph.specs.Residual.{IsPseudoflow};
ghost use Rattle.residual_graph.specs.Graph.{HasEntries};
ghost use Rattle.tracked.specs.Marks.{in_set};
ghost use Rattle.cuts.specs.Cut.{AreOnSide, AreRoots, way_from};
ghost use Rattle.cuts.specs.Side.{AreFarOn, IsClosedAlongOn, IsClosedOn, IsGrownOn, LeadsOutOn};

use crate::excess::Excess;
use residual_ends::ResidualEnds;
use residual_graph::{Graph, ResidualArc, Side, Way};
use tracked::Touched;

/// Where more than one node in so many is marked, all arcs are tested: in order, which is quicker.
const MOST_LISTED: usize = 8;

/// What leads on from the marked nodes of a side.
#[derive(Clone, Copy)]
pub struct OnSide<'a> {
    pub side: Side,
    pub graph: &'a Graph,
    pub flow: &'a [i64],
    /// A quick table of the ends of arcs at each node.
    pub ends: &'a ResidualEnds,
}

/// Marks the nodes of a side, and no other.
pub fn mark_side(on: OnSide<'_>, excess: &Excess, marked: &mut Touched, hops: &mut Vec<u32>)
    requires graph { HasEntries (length excess.now) on.graph.now }
    requires flow { IsPseudoflow (length excess.now) on.graph.now.rows on.flow.now }
    requires marked_in { length marked.old ≡ length excess.now }
    ensures same_size { length marked.new ≡ length marked.old }
    ensures side { AreOnSide on.entry.side on.entry.graph.now.rows on.entry.flow.now excess.now
        marked.new }
{
    mark_roots(on.side, excess, marked);
    mark_again(on, marked, hops);
    // The search leaves no node out, so it is done once at most.
    while let Some(node) = way_out(on, marked) {
        mark_reached(on, marked, hops);
        marked.note(node as usize);
    }
}

/// Marks the roots, and no other node.
fn mark_roots(side: Side, excess: &Excess, marked: &mut Touched)
    requires marked_in { length marked.old ≡ length excess.now }
    ensures same_size { length marked.new ≡ length marked.old }
    ensures marked { AreRoots side excess.now marked.new }
{
    marked.clear();
    let places = excess.unbalanced.places();
    for j in 0..places.len() {
        let node = places[j] as usize;
        if side.is_root(excess.entries[node]) {
            marked.note(node);
        }
    }
}

/// Marks the nodes to which arcs lead in turn. Of the arcs those are kept that do.
fn mark_again(on: OnSide<'_>, marked: &mut Touched, hops: &mut Vec<u32>)
    requires flow { IsPseudoflow (length marked.old) on.graph.now.rows on.flow.now }
    ensures { IsGrownOn on.entry marked.old marked.new }
{
    let mut kept = 0;
    for j in 0..hops.len() {
        let arc = hops[j];
        if arc as usize >= on.graph.rows().len() {
            continue;
        }
        if let Some(far) = way_out_along(on, marked, arc) {
            marked.note(far as usize);
            hops[kept] = arc;
            kept += 1;
        }
    }
    hops.truncate(kept);
}

/// Marks, breadth first, the nodes that the quick table of ends leads to from the marked ones, and lists the arcs that do.
fn mark_reached(on: OnSide<'_>, marked: &mut Touched, hops: &mut Vec<u32>)
    requires graph { HasEntries (length marked.old) on.graph.now }
    requires flow { IsPseudoflow (length marked.old) on.graph.now.rows on.flow.now }
    ensures { IsGrownOn on.entry marked.old marked.new }
{
    for next in 0..marked.size() {
        let Some(node) = marked.places().get(next) else {
            return;
        };
        let node = *node;
        mark_from(on, marked, node, hops);
    }
}

/// The same from one node alone.
fn mark_from(on: OnSide<'_>, marked: &mut Touched, node: u32, hops: &mut Vec<u32>)
    requires graph { HasEntries (length marked.old) on.graph.now }
    requires flow { IsPseudoflow (length marked.old) on.graph.now.rows on.flow.now }
    ensures { IsGrownOn on.entry marked.old marked.new }
{
    if node as usize >= on.ends.entries() {
        return;
    }
    let ends = on.ends.at(node as usize);
    for i in 0..ends.links.len() {
        let other = ends.links[i].other as usize;
        // Most nodes are marked already: the arc is not looked at.
        if other >= marked.size() || marked.is_noted(other) {
            continue;
        }
        mark_along(on, marked, ends.numbers[i] / 2, hops);
    }
}

/// Marks the node to which an arc leads on from a marked one, if it does, and lists the arc then.
fn mark_along(on: OnSide<'_>, marked: &mut Touched, arc: u32, hops: &mut Vec<u32>)
    requires flow { IsPseudoflow (length marked.old) on.graph.now.rows on.flow.now }
    ensures { IsGrownOn on.entry marked.old marked.new }
{
    if arc as usize >= on.graph.rows().len() {
        return;
    }
    let Some(far) = way_out_along(on, marked, arc) else {
        return;
    };
    marked.note(far as usize);
    if hops.len() < hops.capacity() {
        hops.push_reserved(arc);
    }
}

/// A node that is not marked, to which a residual arc leads on from a marked one; nothing where there is none.
fn way_out(on: OnSide<'_>, marked: &Touched) -> Option<u32>
    requires graph { HasEntries (length marked.now) on.graph.now }
    requires flow { IsPseudoflow (length marked.now) on.graph.now.rows on.flow.now }
    ensures none { IfNone result (IsClosedOn on.entry marked.now) }
    ensures some { IfSome result (LeadsOutOn on.entry marked.now) }
{
    if marked.places().len() > marked.size() / MOST_LISTED {
        way_out_along_all(on, marked)
    } else {
        way_out_at_all(on, marked)
    }
}

/// The same: each arc is looked at.
fn way_out_along_all(on: OnSide<'_>, marked: &Touched) -> Option<u32>
    requires flow { IsPseudoflow (length marked.now) on.graph.now.rows on.flow.now }
    ensures none { IfNone result (IsClosedOn on.entry marked.now) }
    ensures some { IfSome result (LeadsOutOn on.entry marked.now) }
{
    for k in 0..on.graph.rows().len() {
        if let Some(far) = way_out_along(on, marked, k as u32) {
            return Some(far);
        }
    }
    None
}

/// The same: each arc at a marked node is looked at.
fn way_out_at_all(on: OnSide<'_>, marked: &Touched) -> Option<u32>
    requires graph { HasEntries (length marked.now) on.graph.now }
    requires flow { IsPseudoflow (length marked.now) on.graph.now.rows on.flow.now }
    ensures none { IfNone result (IsClosedOn on.entry marked.now) }
    ensures some { IfSome result (LeadsOutOn on.entry marked.now) }
{
    for node in marked.places() {
        if let Some(far) = way_out_at(on, marked, *node) {
            return Some(far);
        }
    }
    None
}

/// The same of the arcs at a marked node, each of which is looked at.
fn way_out_at(on: OnSide<'_>, marked: &Touched, node: u32) -> Option<u32>
    requires graph { HasEntries (length marked.now) on.graph.now }
    requires flow { IsPseudoflow (length marked.now) on.graph.now.rows on.flow.now }
    requires marked { in_set marked.now node ≡ true }
    ensures none { IfNone result (AreFarOn on.entry marked.now node) }
    ensures some { IfSome result (LeadsOutOn on.entry marked.now) }
{
    let mut current = on.graph.first_end(node);
    while let Some(end) = current {
        if let Some(far) = way_out_along(on, marked, end / 2) {
            return Some(far);
        }
        current = on.graph.next_end(end);
    }
    None
}

/// The same of one arc.
fn way_out_along(on: OnSide<'_>, marked: &Touched, arc: u32) -> Option<u32>
    requires flow { IsPseudoflow (length marked.now) on.graph.now.rows on.flow.now }
    requires arc { arc < length on.graph.now.rows }
    ensures none { IfNone result (IsClosedAlongOn on.entry marked.now arc) }
    ensures some { IfSome result (LeadsOutOn on.entry marked.now) }
{
    let row = on.graph.row(arc as usize);
    let from_tail = marked.is_noted(row.tail as usize);
    // Of most arcs both ends are marked, or neither: the flow is not read.
    if from_tail == marked.is_noted(row.head as usize) {
        return None;
    }
    let way = way_from(on.side, from_tail);
    if !on.graph.has_room(on.flow, ResidualArc { arc, way }) {
        return None;
    }
    if from_tail {
        Some(row.head)
    } else {
        Some(row.tail)
    }
}

/// The way in which a residual arc of a side goes along its arc that leads on from the tail, or from the head.
fn way_from(side: Side, from_tail: bool) -> Way
    ensures { result ≡ way_from side from_tail }
{
    match (side, from_tail) {
        (Side::Ahead, true) | (Side::Behind, false) => Way::Forward,
        (Side::Ahead, false) | (Side::Behind, true) => Way::Backward,
    }
}
