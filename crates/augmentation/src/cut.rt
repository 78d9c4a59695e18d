//! The cut that shows why supply is left over or demand is not met: at the end of all searches, or where it comes out before
//! a flow of least cost is found that no flow is legal.

ghost use Rattle.std.specs.Prelude.{◌≡◌, IfSome, length};
ghost use Rattle.residual_graph.specs.Graph.{HasEntries};
ghost use Rattle.residual_graph.specs.Residual.{IsPseudoflow};
ghost use Rattle.residual_graph.specs.declared.side.Side.TheVariants.{Ahead};
ghost use Rattle.cuts.specs.Cut.{IsCutOf, IsShownBy, IsSideOfCut};
ghost use Rattle.augmentation.specs.Pseudoflow.{IsReady};
ghost use Rattle.augmentation.specs.ScratchView.{TellsMarks};
ghost use Rattle.flow_changes.specs.Push.{AreSmall};
ghost use Rattle.tracked.specs.Tracked.{IsWritten};

use crate::adoption::{lead, take_back};
use crate::scratch::Scratch;
use cuts::{Cut, Excess, OnSide, mark_side};
use residual_graph::{Graph, Side};
use tracked::{Touched, Tracked};

/// Marks the set that tells why some supply is left over or some demand is not met; where no node is out of balance,
/// none. It is marked in the scratch first, unless all that the nodes in excess reach is marked there already.
pub fn mark_cut(
    graph: &Graph,
    flow: &Tracked<i64>,
    excess: &Excess,
    scratch: &mut Scratch,
    are_marked: bool,
    cut: &mut Cut,
)
    requires graph { HasEntries (length excess.now) graph.now }
    requires flow { IsPseudoflow (length excess.now) graph.now.rows flow.now.entries }
    requires cut_in { length cut.old.entries ≡ length excess.now }
    requires scratch_in { length scratch.old.tree.labels ≡ length excess.now }
    requires marked { TellsMarks are_marked graph.now flow.now excess.now scratch.old }
    ensures side { IsSideOfCut graph.now.rows flow.now.entries excess.now cut.new.entries }
    ensures written { IsWritten cut.old cut.new }
    ensures scratch { scratch.new ≡ record scratch.old { marks = scratch.new.marks } }
{
    if !excess.has_root(Side::Ahead) {
        scratch.mark_side(Side::Behind, graph, flow.entries(), excess);
    } else if !are_marked {
        scratch.mark_side(Side::Ahead, graph, flow.entries(), excess);
    }
    cut.take(&mut scratch.marked);
}

/// Marks the cut where the first proposal finds early that no flow is legal, and gives what no flow can send out or bring in; the
/// flow stays as it was. A greatest flow, as if no arc cost anything, tells the cut in a part of the time that one of least cost
/// would take.
pub fn show_cut(
    graph: &Graph,
    flow: &mut Tracked<i64>,
    potentials: &[i64],
    excess: &mut Excess,
    scratch: &mut Scratch,
    cut: &mut Cut,
) -> Option<u64>
    requires ready { IsReady graph.now flow.old.entries potentials.now excess.old }
    requires scratch_in { length scratch.old.tree.labels ≡ length potentials.now }
    requires cut_in { length cut.old.entries ≡ length excess.old }
    ensures flow_written { IsWritten flow.old flow.new }
    ensures same_flow { flow.new.entries ≡ flow.old.entries }
    ensures same_excess { excess.new ≡ excess.old }
    ensures cut_written { IsWritten cut.old cut.new }
    ensures scratch { scratch.new ≡ record scratch.old { marks = scratch.new.marks } }
    ensures shown { IfSome result (λ shortage. IsShownBy graph.now.rows
        flow.old.entries excess.old shortage cut.new.entries) }
{
    if !excess.has_both() {
        return None;
    }
    let attempt = &mut scratch.attempt;
    if !attempt.propose_or_part(graph, flow.entries(), excess, potentials) {
        return None;
    }
    lead(graph, flow, excess, attempt)?;
    let on = OnSide {
        side: Side::Ahead,
        graph,
        flow: flow.entries(),
        ends: attempt.proposals.ends(),
    };
    let shown = mark_cut_of(on, excess, &mut scratch.marked, &mut scratch.hops, cut);
    take_back(flow, excess, attempt);
    shown
}

/// Marks the cut of a flow in which no node in excess reaches a node in deficit, and gives what is left in excess, or else what
/// is lacking; nothing where a node in excess reaches one in deficit, or all is in balance.
fn mark_cut_of(
    on: OnSide<'_>,
    excess: &Excess,
    marked: &mut Touched,
    hops: &mut Vec<u32>,
    cut: &mut Cut,
) -> Option<u64>
    requires ahead { on.side ≡ Ahead }
    requires graph { HasEntries (length excess.now) on.graph.now }
    requires flow { IsPseudoflow (length excess.now) on.graph.now.rows on.flow.now }
    requires small { AreSmall excess.now }
    requires marked_in { length marked.old ≡ length excess.now }
    requires cut_in { length cut.old.entries ≡ length excess.now }
    ensures same_size { length marked.new ≡ length marked.old }
    ensures written { IsWritten cut.old cut.new }
    ensures cut { IfSome result (λ shortage. IsCutOf on.entry.graph.now.rows
        on.entry.flow.now excess.now shortage cut.new.entries) }
{
    mark_side(on, excess, marked, hops);
    if excess.has_deficit_among(marked) {
        return None;
    }
    let left = excess.amount(Side::Ahead);
    if left > 0 {
        cut.take(marked);
        return Some(left);
    }
    let lack = excess.amount(Side::Behind);
    if lack == 0 {
        return None;
    }
    let behind = OnSide {
        side: Side::Behind,
        ..on
    };
    mark_side(behind, excess, marked, hops);
    cut.take(marked);
    Some(lack)
}
