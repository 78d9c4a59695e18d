//! The greatest potentials in the table that holds them, which keeps step with the labels of a tree: after an edit no
//! table is gone over.

ghost use Rattle.std.specs.Prelude.{◌≡◌, IsTrue, false, length};
ghost use Rattle.std.specs.Bool.{OnFalse};
ghost use Rattle.residual_graph.specs.Graph.{HasEntries};
ghost use Rattle.residual_graph.specs.Residual.{IsPseudoflow, IsReducedCostOptimal};
ghost use Rattle.shortest_paths.specs.Tree.{AreInStep};
ghost use Rattle.tracked.specs.Touched.{NameChanges};
ghost use Rattle.tracked.specs.Tracked.{IsWritten};
ghost use Rattle.augmentation.specs.Held.{IsHeldIn};
ghost use Rattle.augmentation.specs.Settle.{AreShortest};

use crate::potentials::{is_renewed, write_all};
use crate::scratch::Scratch;
use cuts::Excess;
use proposals::Proposals;
use residual_graph::Graph;
use shortest_paths::Tree;
use tracked::Tracked;

/// Where more than one node in so many may have another potential, all are compared: in order, which is quicker.
const MOST_APART: usize = 8;

/// Makes a table the same as these numbers, where the places name each one at which they differ.
fn write_at(table: &mut Tracked<i64>, numbers: &[i64], places: &[u32])
    requires same_length { length numbers.now ≡ length table.old.entries }
    requires named { NameChanges 0 places.now table.old.entries numbers.now }
    ensures written { IsWritten table.old table.new }
    ensures entries { table.new.entries ≡ numbers.now }
{
    for place in places {
        let v = *place as usize;
        if v >= numbers.len() {
            continue;
        }
        if numbers[v] != table.get(v) {
            table.set(v, numbers[v]);
        }
    }
}

/// Whether the labels of a tree may be other potentials at many nodes.
fn are_many(tree: &Tree) -> bool
    ensures { OnFalse result (tree.now.are_apart ≡ false) }
{
    tree.are_apart() || tree.touched().places().len() > tree.labels().len() / MOST_APART
}

/// Has the next proposal look at the nodes whose potential may be another than the label.
pub(crate) fn note_apart(proposals: &mut Proposals, tree: &Tree)
    ensures { proposals.new ≡ proposals.old }
{
    if are_many(tree) {
        proposals.forget_nodes();
        return;
    }
    for v in tree.touched().places() {
        proposals.note_node(*v);
    }
}

/// Lists the nodes whose potential is another than the label.
fn list_apart(tree: &mut Tree, potentials: &[i64])
    requires same_length { length tree.old.labels ≡ length potentials.now }
    ensures same { tree.new ≡ record tree.old { touched = tree.new.touched } }
    ensures step { AreInStep tree.new potentials.now }
{
    for v in 0..potentials.len() {
        if tree.labels()[v] != potentials[v] {
            tree.note_label(v);
        }
    }
}

/// Makes a table the labels of a tree, and has the next proposal look where they changed.
#[inline(never)] // a name of its own in the program: `bench/count` counts its calls
pub(crate) fn write_labels(table: &mut Tracked<i64>, tree: &Tree, proposals: &mut Proposals)
    requires sized { length tree.now.labels ≡ length table.old.entries }
    requires step { AreInStep tree.now table.old.entries }
    ensures written { IsWritten table.old table.new }
    ensures entries { table.new.entries ≡ tree.now.labels }
    ensures proposals { proposals.new ≡ proposals.old }
{
    note_apart(proposals, tree);
    if are_many(tree) {
        write_all(table, tree.labels());
    } else {
        write_at(table, tree.labels(), tree.touched().places());
    }
}

/// Makes potentials that certify a flow the greatest that do, if the tree of labels finds these, and says whether it does.
pub(crate) fn raise(
    graph: &Graph,
    flow: &Tracked<i64>,
    potentials: &mut Tracked<i64>,
    scratch: &mut Scratch,
) -> bool
    requires graph { HasEntries (length potentials.old.entries) graph.now }
    requires flow { IsPseudoflow (length potentials.old.entries) graph.now.rows flow.now.entries }
    requires scratch_in { length scratch.old.tree.labels ≡ length potentials.old.entries }
    requires held { IsHeldIn graph.now.rows flow.now.whole scratch.old.tree }
    requires step { AreInStep scratch.old.tree potentials.old.entries }
    ensures written { IsWritten potentials.old potentials.new }
    ensures shortest { IsTrue result
        → AreShortest graph.now.rows flow.now.entries potentials.new.entries }
    ensures kept { OnFalse result (potentials.new ≡ potentials.old) }
    ensures scratch_in { length scratch.new.tree.labels ≡ length scratch.old.tree.labels }
    ensures held { IsHeldIn graph.now.rows flow.now.whole scratch.new.tree }
    ensures step { AreInStep scratch.new.tree potentials.new.entries }
{
    let attempt = &mut scratch.attempt;
    attempt.keep_step(graph, flow.entries());
    let tree = &mut scratch.tree;
    tree.lower(0);
    if !is_renewed(
        graph,
        flow,
        potentials.entries(),
        attempt.proposals.ends(),
        tree,
    ) {
        return false;
    }
    write_labels(potentials, tree, &mut attempt.proposals);
    tree.accept(graph, flow.places());
    true
}

/// Makes potentials that certify a flow the greatest that do.
pub(crate) fn write_raised(
    graph: &Graph,
    flow: &Tracked<i64>,
    potentials: &mut Tracked<i64>,
    scratch: &mut Scratch,
)
    requires graph { HasEntries (length potentials.old.entries) graph.now }
    requires certified { IsReducedCostOptimal graph.now.rows
        flow.now.entries potentials.old.entries }
    requires scratch_in { length scratch.old.tree.labels ≡ length potentials.old.entries }
    requires held { IsHeldIn graph.now.rows flow.now.whole scratch.old.tree }
    requires step { AreInStep scratch.old.tree potentials.old.entries }
    ensures written { IsWritten potentials.old potentials.new }
    ensures shortest { AreShortest graph.now.rows flow.now.entries potentials.new.entries }
    ensures scratch_in { length scratch.new.tree.labels ≡ length scratch.old.tree.labels }
    ensures held { IsHeldIn graph.now.rows flow.now.whole scratch.new.tree }
    ensures step { AreInStep scratch.new.tree potentials.new.entries }
{
    if raise(graph, flow, potentials, scratch) {
        return;
    }
    scratch.tree.take_potentials(potentials.entries());
    scratch.raise(graph, flow.entries());
    write_all(potentials, scratch.labels());
}

/// Gets ready for edits, where some proposal was made, so that the first one need not go over all nodes and arcs:
/// brings the tables of its searches in step, and has the tree hold the labels of the flow.
pub fn prepare(
    graph: &Graph,
    flow: &Tracked<i64>,
    excess: &Excess,
    potentials: &[i64],
    scratch: &mut Scratch,
)
    requires graph { HasEntries (length potentials.now) graph.now }
    requires flow { IsPseudoflow (length potentials.now) graph.now.rows flow.now.entries }
    requires excess { length excess.now ≡ length potentials.now }
    requires scratch_in { length scratch.old.tree.labels ≡ length potentials.now }
    requires held { IsHeldIn graph.now.rows flow.now.whole scratch.old.tree }
    requires step { AreInStep scratch.old.tree potentials.now }
    ensures scratch_in { length scratch.new.tree.labels ≡ length scratch.old.tree.labels }
    ensures held { IsHeldIn graph.now.rows flow.now.whole scratch.new.tree }
    ensures step { AreInStep scratch.new.tree potentials.now }
{
    let attempt = &mut scratch.attempt;
    if attempt.proposals.is_fresh() {
        return;
    }
    note_apart(&mut attempt.proposals, &scratch.tree);
    attempt.prepare(graph, flow.entries(), excess, potentials);
    let tree = &mut scratch.tree;
    tree.lower(0);
    if !is_renewed(graph, flow, potentials, attempt.proposals.ends(), tree) {
        return;
    }
    tree.accept(graph, flow.places());
    list_apart(tree, potentials);
}
