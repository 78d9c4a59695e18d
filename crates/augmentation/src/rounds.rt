//! Searches and pushes in turn, until no node in excess reaches a node in deficit.

ghost use Rattle.std.specs.Prelude.{◌≡◌, ◌≤◌, length};
ghost use Rattle.shortest_paths.specs.Tree.{AreInStep};
ghost use Rattle.tracked.specs.Tracked.{IsWritten};
ghost use Rattle.cuts.specs.Cut.{IsParted};
ghost use Rattle.augmentation.specs.Found.{HasFoundIn, IsFoundOrParted};
ghost use Rattle.augmentation.specs.Held.{IsHeldIn};
ghost use Rattle.augmentation.specs.Pseudoflow.{IsCertifiedIn, IsCertifiedPseudoflow};
ghost use Rattle.flow_changes.specs.Push.{ArePushesOf};
ghost use Rattle.augmentation.specs.Pushes.{HavePushed};

use crate::potentials::write_all;
use crate::pushes::{push_to, push_to_all};
use crate::scratch::Scratch;
use cuts::Excess;
use residual_graph::Graph;
use tracked::Tracked;

/// A search with so few pushes is worth another look at the arcs that cost nothing.
const FEW_PUSHES: u64 = 8;

/// Searches from all nodes in excess, pushes to the nodes in deficit that they reach, and again, until no node in excess
/// reaches a node in deficit; counts the pushes. The potentials certify the flow still. Where a proposal was right, one
/// look at what is reached is all that it does; else the tree forgets the labels that it holds.
#[inline(never)] // a name of its own in the program: `bench/count` counts its calls
pub fn finish(
    graph: &Graph,
    flow: &mut Tracked<i64>,
    excess: &mut Excess,
    potentials: &mut Tracked<i64>,
    scratch: &mut Scratch,
) -> u64
    requires state { IsCertifiedPseudoflow graph.now
        flow.old.entries potentials.old.entries excess.old }
    requires scratch_in { length scratch.old.tree.labels ≡ length potentials.old.entries }
    requires held { IsHeldIn graph.now.rows flow.old.whole scratch.old.tree }
    requires step { AreInStep scratch.old.tree potentials.old.entries }
    ensures flow_written { IsWritten flow.old flow.new }
    ensures potentials_written { IsWritten potentials.old potentials.new }
    ensures state { IsCertifiedPseudoflow graph.now
        flow.new.entries potentials.new.entries excess.new }
    ensures pushes { ArePushesOf graph.now result flow.old excess.old flow.new excess.new }
    ensures parted { IsParted graph.now.rows flow.new.entries excess.new }
    ensures scratch_in { length scratch.new.tree.labels ≡ length scratch.old.tree.labels }
    ensures held { IsHeldIn graph.now.rows flow.new.whole scratch.new.tree }
    ensures step { AreInStep scratch.new.tree potentials.new.entries }
{
    if !excess.has_both() {
        return 0;
    }
    if scratch.is_parted(graph, flow.entries(), excess) {
        return 0;
    }
    scratch.tree.take_potentials(potentials.entries());
    let mut pushes = 0;
    while let Some(target) = search_on(graph, flow, excess, scratch) {
        pushes += push_round(graph, flow, excess, scratch, target);
    }
    write_all(potentials, scratch.labels());
    pushes
}

/// Searches from the nodes in excess, where there are nodes in deficit too, and gives the first one to which it came; nothing
/// where no node in excess reaches a node in deficit.
#[inline(never)] // a name of its own in the program: `bench/count` counts its calls
fn search_on(
    graph: &Graph,
    flow: &Tracked<i64>,
    excess: &Excess,
    scratch: &mut Scratch,
) -> Option<usize>
    requires state { IsCertifiedIn graph.now flow.now excess.now scratch.old }
    ensures state { IsCertifiedIn graph.now flow.now excess.now scratch.new }
    ensures found { IsFoundOrParted graph.now flow.now excess.now scratch.new result }
{
    if !excess.has_both() {
        return None;
    }
    scratch.bring_in_range(graph, flow.entries());
    scratch.queue.open(scratch.tree.labels().len());
    scratch.tree.search_from_excess(graph, flow.entries(), excess.entries(), &mut scratch.queue)
}

/// Pushes to the nodes in deficit to which a search came, to this one first; where these pushes were few, looks for other
/// paths that cost nothing.
fn push_round(
    graph: &Graph,
    flow: &mut Tracked<i64>,
    excess: &mut Excess,
    scratch: &mut Scratch,
    target: usize,
) -> u64
    requires state { IsCertifiedIn graph.now flow.old excess.old scratch.old }
    requires found { HasFoundIn graph.now flow.old excess.old scratch.old target }
    ensures pushed { HavePushed graph.now result
        flow.old flow.new excess.old excess.new scratch.new }
    ensures some { 1 ≤ result }
{
    push_to(graph, flow, excess, scratch, target);
    scratch.trails.clear();
    let pushes = 1 + push_to_all(graph, flow, excess, scratch);
    pushes + push_by_levels(graph, flow, excess, scratch, pushes)
}

/// Where a search led to few pushes, pushes along arcs that cost nothing, over as few of them as can be, until they lead to
/// no node in deficit; counts these pushes.
fn push_by_levels(
    graph: &Graph,
    flow: &mut Tracked<i64>,
    excess: &mut Excess,
    scratch: &mut Scratch,
    before: u64,
) -> u64
    requires state { IsCertifiedIn graph.now flow.old excess.old scratch.old }
    ensures pushed { HavePushed graph.now result
        flow.old flow.new excess.old excess.new scratch.new }
{
    if before >= FEW_PUSHES || !scratch.trails.are_levels_due() {
        return 0;
    }
    let mut pushes = 0;
    while scratch.search_levels(graph, flow.entries(), excess) {
        scratch.trails.begin(graph);
        let more = push_to_all(graph, flow, excess, scratch);
        if more == 0 {
            break;
        }
        pushes += more;
    }
    scratch.trails.note_levels(pushes);
    pushes
}
