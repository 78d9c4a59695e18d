//! All pushes that can be made, and the greatest potentials that certify the flow after them.

ghost use Rattle.std.specs.Prelude.{◌≡◌, IsTrue, drop, false, length};
ghost use Rattle.network.specs.Flow.{IsGreatestPotential};
ghost use Rattle.network.specs.Instance.{at_node, reduced};
ghost use Rattle.augmentation.specs.Pseudoflow.{IsReady};
ghost use Rattle.flow_changes.specs.Push.{ArePushes};
ghost use Rattle.tracked.specs.Tracked.{IsWritten};
ghost use Rattle.flow_solver.specs.Potentials.{AreAsTold, KeepStep};
ghost use Rattle.cuts.specs.Cut.{IsParted, AreOnSide};
ghost use Rattle.augmentation.specs.Held.{IsHeldIn};
ghost use Rattle.residual_graph.specs.Walk.{AreRowsOf};
ghost use Rattle.residual_graph.specs.declared.side.Side.TheVariants.{Ahead};

use crate::potentials::Potentials;
use augmentation::{Scratch, push_all, push_proposed};
use cuts::Excess;
use residual_graph::Graph;
use tracked::Tracked;

/// What pushes came to.
#[derive(Clone, Copy)]
pub struct Pushed {
    /// How many were made.
    pub count: u64,
    /// Whether the marks of the scratch are known to be those of the nodes in excess, and of all that they reach.
    pub are_marked: bool,
}

impl Pushed {
    /// So many pushes, after which nothing more is known.
    fn counted(count: u64) -> Pushed
        ensures { result ≡ record { count = count; are_marked = false } }
    {
        Pushed {
            count,
            are_marked: false,
        }
    }
}

/// Pushes what can be pushed, and says what that came to; the potentials become the greatest that certify the flow. All
/// nodes are gone over only where a proposal was refused, or left something to push.
pub fn push_and_raise(
    graph: &Graph,
    flow: &mut Tracked<i64>,
    potentials: &mut Potentials,
    excess: &mut Excess,
    scratch: &mut Scratch,
) -> Pushed
    requires rows { AreRowsOf graph.now.net graph.now.rows }
    requires ready { IsReady graph.now flow.old.entries potentials.old.table.entries excess.old }
    requires told { AreAsTold graph.now.net flow.old.entries potentials.old }
    requires scratch_in { length scratch.old.tree.labels ≡ length excess.old }
    requires held { IsHeldIn graph.now.rows flow.old.whole scratch.old.tree }
    requires step { KeepStep potentials.old scratch.old }
    ensures flow_written { IsWritten flow.old flow.new }
    ensures potentials_written { IsWritten potentials.old.table potentials.new.table }
    ensures ready { IsReady graph.now flow.new.entries potentials.new.table.entries excess.new }
    ensures greatest { IsGreatestPotential (reduced graph.now.net) flow.new.entries
        (at_node (drop 1 potentials.new.table.entries)) }
    ensures pushed { ArePushes graph.now.rows result.count
        flow.old.entries excess.old flow.new.entries excess.new }
    ensures parted { IsParted graph.now.rows flow.new.entries excess.new }
    ensures marked { IsTrue result.are_marked
        → AreOnSide Ahead graph.now.rows flow.new.entries excess.new scratch.new.marks }
    ensures scratch_in { length scratch.new.tree.labels ≡ length excess.new }
    ensures held { IsHeldIn graph.now.rows flow.new.whole scratch.new.tree }
    ensures step { KeepStep potentials.new scratch.new }
{
    if potentials.greatest && !excess.has_both() {
        return Pushed::counted(0);
    }
    let table = &mut potentials.table;
    let Some(count) = push_proposed(graph, flow, excess, table, scratch) else {
        let count = push_all(graph, flow, excess, table, scratch);
        return Pushed::counted(count);
    };
    // After a cold solve the list still holds all nodes that had a supply.
    excess.tidy();
    if !excess.has_both() {
        return Pushed::counted(count);
    }
    if scratch.is_parted(graph, flow.entries(), excess) {
        return Pushed {
            count,
            are_marked: true,
        };
    }
    let more = push_all(graph, flow, excess, table, scratch);
    Pushed {
        count: count + more,
        are_marked: false,
    }
}
