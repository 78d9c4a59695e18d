//! The greatest potentials that certify a flow: the shortest labels.

ghost use Rattle.std.specs.Prelude.{◌≡◌, ℤ, List, length, IsTrue, true};
ghost use Rattle.std.specs.Bool.{OnFalse};
ghost use Rattle.residual_graph.specs.Graph.{HasEntries};
ghost use Rattle.residual_graph.specs.Residual.{IsPseudoflow};
ghost use Rattle.shortest_paths.specs.Tree.{AreInStep, IsRelabelled};
ghost use Rattle.augmentation.specs.Held.{AreTestedIn, IsHeldIn};
ghost use Rattle.tracked.specs.Tracked.{IsWritten};

use crate::held::{holds, holds_whole};
use residual_ends::ResidualEnds;
use residual_graph::Graph;
use shortest_paths::{Residual, Tree};
use tracked::Tracked;

/// Where more than one node in so many was touched, the labels of all nodes are tested.
const MOST_TOUCHED: usize = 16;

/// Makes a table the same as these numbers.
pub(crate) fn write_all(table: &mut Tracked<i64>, numbers: &[i64])
    requires same_length { length numbers.now ≡ length table.old.entries }
    ensures written { IsWritten table.old table.new }
    ensures entries { table.new.entries ≡ numbers.now }
{
    for v in 0..numbers.len() {
        if numbers[v] != table.get(v) {
            table.set(v, numbers[v]);
        }
    }
}

/// Has a tree mend its labels, and says whether they are the greatest potentials that certify the flow. `potentials` are
/// likely to certify it.
fn mend(
    graph: &Graph,
    flow: &Tracked<i64>,
    potentials: &[i64],
    ends: &ResidualEnds,
    tree: &mut Tree,
) -> bool
    requires graph { HasEntries (length potentials.now) graph.now }
    requires flow { IsPseudoflow (length potentials.now) graph.now.rows flow.now.entries }
    requires sized { length tree.old.labels ≡ length potentials.now }
    requires held { IsHeldIn graph.now.rows flow.now.whole tree.old }
    ensures tested { IsTrue result → AreTestedIn graph.now.rows flow.now.entries tree.new }
    ensures sized { length tree.new.labels ≡ length tree.old.labels }
    ensures marked { IsRelabelled tree.old tree.new }
{
    let residual = Residual {
        graph,
        flow: flow.entries(),
        ends,
        potentials,
    };
    if !tree.mend(residual, flow.places()) {
        return false;
    }
    // Where many nodes were touched, a pass over all in turn is quicker than a walk at each.
    if tree.is_lost() || tree.touched().places().len() > tree.labels().len() / MOST_TOUCHED {
        return holds_whole(graph, flow.entries(), tree);
    }
    holds(graph, flow, ends, tree)
}

/// Has a tree mend its labels, or else find them anew, and says whether they are the greatest potentials that certify the
/// flow. If not, they are forgotten.
pub(crate) fn is_renewed(
    graph: &Graph,
    flow: &Tracked<i64>,
    potentials: &[i64],
    ends: &ResidualEnds,
    tree: &mut Tree,
) -> bool
    requires graph { HasEntries (length potentials.now) graph.now }
    requires flow { IsPseudoflow (length potentials.now) graph.now.rows flow.now.entries }
    requires sized { length tree.old.labels ≡ length potentials.now }
    requires held { IsHeldIn graph.now.rows flow.now.whole tree.old }
    ensures tested { IsTrue result → AreTestedIn graph.now.rows flow.now.entries tree.new }
    ensures lost { OnFalse result (tree.new.is_lost ≡ true) }
    ensures sized { length tree.new.labels ≡ length tree.old.labels }
    ensures step { (p : List ℤ) → AreInStep tree.old p → AreInStep tree.new p }
{
    if mend(graph, flow, potentials, ends, tree) {
        return true;
    }
    let residual = Residual {
        graph,
        flow: flow.entries(),
        ends,
        potentials,
    };
    if tree.search(residual) && holds_whole(graph, flow.entries(), tree) {
        return true;
    }
    tree.forget();
    false
}
