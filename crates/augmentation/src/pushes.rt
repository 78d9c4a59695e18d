//! Pushes to the nodes in deficit of a forest of arcs that cost nothing.

ghost use Rattle.std.specs.Prelude.{◌<◌, ◌<ℤ◌, IsTrue, length, pos};
ghost use Rattle.residual_graph.specs.Residual.{number_at};
ghost use Rattle.augmentation.specs.Found.{HasFoundIn};
ghost use Rattle.augmentation.specs.Pseudoflow.{IsCertifiedIn};
ghost use Rattle.flow_changes.specs.Push.{one_if};
ghost use Rattle.augmentation.specs.Pushes.{HavePushed};
ghost use Rattle.shortest_paths.specs.Search.{IsReached};
ghost use Rattle.shortest_paths.specs.Tree.{IsForestOf};

use crate::augment::{Path, augment};
use crate::scratch::Scratch;
use crate::trails::{Ground, find_way};
use cuts::Excess;
use residual_graph::Graph;
use tracked::Tracked;

/// Pushes to each node in deficit of a forest, for as long as a way to it is left; counts the pushes.
pub(crate) fn push_to_all(
    graph: &Graph,
    flow: &mut Tracked<i64>,
    excess: &mut Excess,
    scratch: &mut Scratch,
) -> u64
    requires state { IsCertifiedIn graph.now flow.old excess.old scratch.old }
    requires forest { IsForestOf graph.now.rows scratch.old.tree }
    ensures pushed { HavePushed graph.now result
        flow.old flow.new excess.old excess.new scratch.new }
{
    let mut pushes = 0;
    for target in 0..scratch.labels().len() {
        pushes += push_all_to(graph, flow, excess, scratch, target);
    }
    pushes
}

/// The same to one node.
fn push_all_to(
    graph: &Graph,
    flow: &mut Tracked<i64>,
    excess: &mut Excess,
    scratch: &mut Scratch,
    target: usize,
) -> u64
    requires state { IsCertifiedIn graph.now flow.old excess.old scratch.old }
    requires forest { IsForestOf graph.now.rows scratch.old.tree }
    requires target { target < length scratch.old.tree.labels }
    ensures pushed { HavePushed graph.now result
        flow.old flow.new excess.old excess.new scratch.new }
    ensures forest { IsForestOf graph.now.rows scratch.new.tree }
{
    let mut pushes = 0;
    while push_once(graph, flow, excess, scratch, target) {
        pushes += 1;
    }
    pushes
}

/// Looks for a way to a node in deficit, and pushes along it. Says whether it did.
fn push_once(
    graph: &Graph,
    flow: &mut Tracked<i64>,
    excess: &mut Excess,
    scratch: &mut Scratch,
    target: usize,
) -> bool
    requires state { IsCertifiedIn graph.now flow.old excess.old scratch.old }
    requires forest { IsForestOf graph.now.rows scratch.old.tree }
    requires target { target < length scratch.old.tree.labels }
    ensures pushed { HavePushed graph.now (one_if result)
        flow.old flow.new excess.old excess.new scratch.new }
    ensures forest { IsForestOf graph.now.rows scratch.new.tree }
{
    if excess.entries[target] >= 0 {
        return false;
    }
    let ground = Ground {
        graph,
        flow: flow.entries(),
        excess: excess.entries(),
    };
    if !find_way(ground, &mut scratch.tree, &mut scratch.trails, target)
        || scratch.tree.predecessors()[target].is_open
    {
        return false;
    }
    push_to(graph, flow, excess, scratch, target)
}

/// Pushes along the path of a forest to a node in deficit what fits, and says whether that was something.
pub(crate) fn push_to(
    graph: &Graph,
    flow: &mut Tracked<i64>,
    excess: &mut Excess,
    scratch: &Scratch,
    target: usize,
) -> bool
    requires state { IsCertifiedIn graph.now flow.old excess.old scratch.now }
    requires forest { IsForestOf graph.now.rows scratch.now.tree }
    requires reached { IsReached scratch.now.tree.predecessors target }
    requires deficit { number_at excess.old target <ℤ pos 0 }
    ensures pushed { HavePushed graph.now (one_if result)
        flow.old flow.new excess.old excess.new scratch.now }
    ensures some { HasFoundIn graph.now flow.old excess.old scratch.now target → IsTrue result }
{
    let path = Path {
        graph,
        predecessors: scratch.tree.predecessors(),
        target,
    };
    augment(path, flow, &mut excess.entries)
}
