//! Flow pushed along the path by which a search came to a node in deficit: what fits along it now, which is nothing where
//! another push since has filled one of its arcs.

ghost use Rattle.std.specs.Int.{w64};
ghost use Rattle.std.specs.Prelude.{◌≡◌, ◌≢◌, FitsSigned, IsTrue, false, length, pos, neg_ℤ, ◌≤ℤ◌, ◌<ℤ◌, ◌<◌};
ghost use Rattle.residual_graph.specs.Residual.{number_at};
ghost use Rattle.augmentation.specs.Path.{AugmentsOn, CanGiveOn, HasRoomOn, HavePathsOn, IsFlowFor, IsHungPath, IsMovedOn, root_on};
ghost use Rattle.flow_changes.specs.Push.{AreSmall, IsTransfer, moved};
ghost use Rattle.tracked.specs.Tracked.{IsWritten};

use predecessors::Predecessor;
use residual_graph::{Graph, Way};
use tracked::Tracked;

/// The path by which a search came to a node.
#[derive(Clone, Copy)]
pub(crate) struct Path<'a> {
    pub graph: &'a Graph,
    pub predecessors: &'a [Predecessor],
    pub target: usize,
}

/// Where a path begins, and how much fits along it, at most `limit`: something, if each residual arc of the path is there.
fn bottleneck(path: Path<'_>, flow: &[i64], limit: i64) -> (usize, i64)
    requires path { IsHungPath path }
    requires flow { IsFlowFor path flow.now }
    requires limit { pos 1 ≤ℤ limit }
    ensures root { result.0 ≡ root_on path.entry }
    ensures root_in { result.0 < length path.entry.predecessors.now }
    ensures at_least_0 { pos 0 ≤ℤ result.1 }
    ensures some { HavePathsOn path.entry flow.now → pos 1 ≤ℤ result.1 }
    ensures at_most { result.1 ≤ℤ limit }
    ensures room { HasRoomOn path.entry flow.now result.1 }
{
    let mut node = path.target;
    let mut room = limit;
    while path.predecessors[node].rank > 0 {
        let hop = path.predecessors[node].arc();
        let k = hop.arc as usize;
        let row = path.graph.row(k);
        room = room.min(hop.way.room(&row, flow[k]));
        node = hop.way.start(&row) as usize;
    }
    (node, room)
}

/// Where the path to a node in deficit begins, and how much can be pushed along it: 0 or less where that is nothing.
fn amount_along(path: Path<'_>, flow: &[i64], excess: &[i64]) -> (usize, i64)
    requires path { IsHungPath path }
    requires flow { IsFlowFor path flow.now }
    requires excess_in { length excess.now ≡ length path.predecessors.now }
    requires small { AreSmall excess.now }
    requires some_deficit { number_at excess.now path.target <ℤ pos 0 }
    ensures root { result.0 ≡ root_on path.entry }
    ensures some { CanGiveOn path.entry flow.now excess.now → pos 1 ≤ℤ result.1 }
    ensures in_excess { result.1 ≤ℤ number_at excess.now result.0 }
    ensures in_deficit { number_at excess.now path.entry.target ≤ℤ neg_ℤ result.1 }
    ensures room { HasRoomOn path.entry flow.now result.1 }
{
    let (root, room) = bottleneck(path, flow, -excess[path.target]);
    (root, room.min(excess[root]))
}

/// A flow with `amount` more in this way.
fn shifted(flow: i64, way: Way, amount: i64) -> i64
    requires { FitsSigned w64 (moved way flow amount) }
    ensures { result ≡ moved way flow amount }
{
    match way {
        Way::Forward => flow + amount,
        Way::Backward => flow - amount,
    }
}

/// Moves `amount` along a path.
#[inline(never)] // a name of its own in the program: `bench/count` counts its calls
fn shift(path: Path<'_>, flow: &mut Tracked<i64>, amount: i64)
    requires path { IsHungPath path }
    requires flow { IsFlowFor path flow.old.entries }
    requires amount { pos 1 ≤ℤ amount }
    requires room { HasRoomOn path flow.old.entries amount }
    ensures { IsMovedOn path.entry amount flow.old flow.new }
{
    let mut node = path.target;
    while path.predecessors[node].rank > 0 {
        let hop = path.predecessors[node].arc();
        let k = hop.arc as usize;
        let moved = shifted(flow.get(k), hop.way, amount);
        flow.set(k, moved);
        node = path.graph.start(k, hop.way);
    }
}

/// Moves `amount` from the excess of `source` to the deficit of `target`.
fn transfer(excess: &mut [i64], source: usize, target: usize, amount: i64)
    requires source_in { source < length excess.old }
    requires target_in { target < length excess.old }
    requires small { AreSmall excess.old }
    requires apart { source ≢ target }
    requires amount { pos 1 ≤ℤ amount }
    requires in_excess { amount ≤ℤ number_at excess.old source }
    requires in_deficit { number_at excess.old target ≤ℤ neg_ℤ amount }
    ensures { IsTransfer source target amount excess.old excess.new }
{
    excess[source] -= amount;
    excess[target] += amount;
}

/// Pushes as much as can be pushed along the path to a node in deficit, if anything, and says whether it did.
pub(crate) fn augment(path: Path<'_>, flow: &mut Tracked<i64>, excess: &mut [i64]) -> bool
    requires path { IsHungPath path }
    requires flow { IsFlowFor path flow.old.entries }
    requires excess_in { length excess.old ≡ length path.predecessors.now }
    requires small { AreSmall excess.old }
    requires some_deficit { number_at excess.old path.target <ℤ pos 0 }
    ensures written { IsWritten flow.old flow.new }
    ensures pushed { IsTrue result → AugmentsOn path.entry flow.old excess.old flow.new excess.new }
    ensures same_flow { result ≡ false → flow.new.entries ≡ flow.old.entries }
    ensures same_excess { result ≡ false → excess.new ≡ excess.old }
    ensures some { CanGiveOn path.entry flow.old.entries excess.old → IsTrue result }
{
    let (root, amount) = amount_along(path, flow.entries(), excess);
    if amount <= 0 {
        return false;
    }
    shift(path, flow, amount);
    transfer(excess, root, path.target, amount);
    true
}
