//! Proposals that are taken where they are certified, and pushes from there.

ghost use Rattle.std.specs.Prelude.{◌≡◌, ℤ, List, length, IfNone, IfSome};
ghost use Rattle.residual_graph.specs.Residual.{IsPseudoflow};
ghost use Rattle.shortest_paths.specs.Tree.{AreInStep};
ghost use Rattle.tracked.specs.Journal.{IsSince};
ghost use Rattle.tracked.specs.Tracked.{IsWritten};
ghost use Rattle.augmentation.specs.Adoption.{IsCertifiedBy, IsRaisedBy, IsRaisedOrAsBefore};
ghost use Rattle.augmentation.specs.Attempt.{AreLed, IsAttemptFor};
ghost use Rattle.cuts.specs.Cut.{IsParted};
ghost use Rattle.flow_changes.specs.Exchange.{IsBefore, IsJournalFor, flow_before};
ghost use Rattle.augmentation.specs.Held.{IsHeldIn};
ghost use Rattle.augmentation.specs.Pseudoflow.{IsReady};
ghost use Rattle.flow_changes.specs.Push.{AreSmall};

use crate::attempt::Attempt;
use crate::near::{note_apart, raise, write_labels, write_raised};
use crate::potentials::is_renewed;
use crate::rounds::finish;
use crate::scratch::Scratch;
use cuts::{Excess, note_unbalanced};
use flow_changes::exchange::{exchange, write_back};
use residual_graph::Graph;
use tracked::Tracked;

/// Makes the flow the proposed one, with the excess that it leaves, and counts the units that this moves: nothing where the
/// changes do not serve, and then both are as they were.
pub(crate) fn lead(
    graph: &Graph,
    flow: &mut Tracked<i64>,
    excess: &mut Excess,
    attempt: &mut Attempt,
) -> Option<u64>
    requires flow { IsPseudoflow (length excess.old) graph.now.rows flow.old.entries }
    requires small { AreSmall excess.old }
    requires attempt { IsAttemptFor (length excess.old) attempt.old }
    ensures written { IsWritten flow.old flow.new }
    ensures same_flow { IfNone result (flow.new.entries ≡ flow.old.entries) }
    ensures same_excess { IfNone result (excess.new ≡ excess.old) }
    ensures led { IfSome result (AreLed graph.now attempt.new
        flow.old.entries excess.old flow.new.entries excess.new) }
    ensures attempt { IsAttemptFor (length excess.old) attempt.new }
{
    let changes = &mut attempt.wanted.changes;
    let trial = &mut attempt.trial;
    let Some(units) = exchange(graph, flow, &mut excess.entries, changes, trial) else {
        write_back(flow, changes);
        trial.excess.bring_back(&mut excess.entries);
        return None;
    };
    // Each node came nearer to balance, so those out of balance are listed still.
    attempt.follow(graph, flow.entries());
    Some(units)
}

/// Brings flow and excess back from what an attempt led them to.
pub(crate) fn take_back(flow: &mut Tracked<i64>, excess: &mut Excess, attempt: &Attempt)
    requires excess { IsJournalFor (length excess.old) attempt.now.trial.excess }
    requires since { (es : List ℤ) × IsSince attempt.now.trial.excess es excess.old }
    ensures written { IsWritten flow.old flow.new }
    ensures flow { flow.new.entries
        ≡ flow_before attempt.now.wanted.changes.items flow.old.entries }
    ensures excess { IsBefore attempt.now.trial.excess excess.old excess.new }
{
    write_back(flow, &attempt.wanted.changes);
    let journal = &attempt.trial.excess;
    journal.bring_back(&mut excess.entries);
    note_unbalanced(
        journal.written.places(),
        &excess.entries,
        &mut excess.unbalanced,
    );
}

/// Takes what the proposal at hand leads to where the tree of labels certifies that, and counts the pushes that lead
/// there; the potentials become the greatest that certify the flow. Else all is as it was.
#[inline(never)] // a name of its own in the program: `bench/count` counts its calls
pub fn adopt(
    graph: &Graph,
    flow: &mut Tracked<i64>,
    excess: &mut Excess,
    potentials: &mut Tracked<i64>,
    scratch: &mut Scratch,
) -> Option<u64>
    requires ready { IsReady graph.now flow.old.entries potentials.old.entries excess.old }
    requires scratch_in { length scratch.old.tree.labels ≡ length potentials.old.entries }
    requires held { IsHeldIn graph.now.rows flow.old.whole scratch.old.tree }
    requires step { AreInStep scratch.old.tree potentials.old.entries }
    ensures flow_written { IsWritten flow.old flow.new }
    ensures potentials_written { IsWritten potentials.old potentials.new }
    ensures adopted { IsRaisedOrAsBefore graph.now result
        flow.old flow.new excess.old excess.new potentials.old potentials.new }
    ensures scratch_in { length scratch.new.tree.labels ≡ length scratch.old.tree.labels }
    ensures held { IsHeldIn graph.now.rows flow.new.whole scratch.new.tree }
    ensures step { AreInStep scratch.new.tree potentials.new.entries }
{
    let attempt = &mut scratch.attempt;
    let count = lead(graph, flow, excess, attempt)?;
    let tree = &mut scratch.tree;
    let proposals = &attempt.proposals;
    tree.lower(proposals.greatest());
    if !is_renewed(graph, flow, proposals.potentials(), proposals.ends(), tree) {
        take_back(flow, excess, attempt);
        return None;
    }
    attempt.proposals.adopted();
    write_labels(potentials, tree, &mut attempt.proposals);
    tree.accept(graph, flow.places());
    Some(count)
}

/// Pushes as a proposal has it, and counts the pushes: the first time, and then where there are nodes in excess and
/// nodes in deficit. The potentials become the greatest that certify the flow. None where the tree of labels does not
/// find these, and then all is as it was.
pub fn push_proposed(
    graph: &Graph,
    flow: &mut Tracked<i64>,
    excess: &mut Excess,
    potentials: &mut Tracked<i64>,
    scratch: &mut Scratch,
) -> Option<u64>
    requires ready { IsReady graph.now flow.old.entries potentials.old.entries excess.old }
    requires scratch_in { length scratch.old.tree.labels ≡ length potentials.old.entries }
    requires held { IsHeldIn graph.now.rows flow.old.whole scratch.old.tree }
    requires step { AreInStep scratch.old.tree potentials.old.entries }
    ensures flow_written { IsWritten flow.old flow.new }
    ensures potentials_written { IsWritten potentials.old potentials.new }
    ensures pushed { IsRaisedOrAsBefore graph.now result
        flow.old flow.new excess.old excess.new potentials.old potentials.new }
    ensures scratch_in { length scratch.new.tree.labels ≡ length scratch.old.tree.labels }
    ensures held { IsHeldIn graph.now.rows flow.new.whole scratch.new.tree }
    ensures step { AreInStep scratch.new.tree potentials.new.entries }
{
    if scratch.attempt.proposals.is_fresh() || excess.has_both() {
        note_apart(&mut scratch.attempt.proposals, &scratch.tree);
        scratch.propose(graph, flow.entries(), excess, potentials.entries());
        return adopt(graph, flow, excess, potentials, scratch);
    }
    if raise(graph, flow, potentials, scratch) {
        Some(0)
    } else {
        None
    }
}

/// Pushes as a proposal from afar has it, and counts the pushes; none where it is not adopted.
fn push_from_afar(
    graph: &Graph,
    flow: &mut Tracked<i64>,
    excess: &mut Excess,
    potentials: &mut Tracked<i64>,
    scratch: &mut Scratch,
) -> u64
    requires ready { IsReady graph.now flow.old.entries potentials.old.entries excess.old }
    requires scratch_in { length scratch.old.tree.labels ≡ length potentials.old.entries }
    requires held { IsHeldIn graph.now.rows flow.old.whole scratch.old.tree }
    requires step { AreInStep scratch.old.tree potentials.old.entries }
    ensures flow_written { IsWritten flow.old flow.new }
    ensures potentials_written { IsWritten potentials.old potentials.new }
    ensures pushed { IsCertifiedBy graph.now result
        flow.old.entries excess.old flow.new.entries excess.new potentials.new.entries }
    ensures scratch_in { length scratch.new.tree.labels ≡ length scratch.old.tree.labels }
    ensures held { IsHeldIn graph.now.rows flow.new.whole scratch.new.tree }
    ensures step { AreInStep scratch.new.tree potentials.new.entries }
{
    let attempt = &mut scratch.attempt;
    attempt.propose_from_afar(graph, flow.entries(), excess, potentials.entries());
    match adopt(graph, flow, excess, potentials, scratch) {
        Some(count) => count,
        None => 0,
    }
}

/// Searches and pushes until no node in excess reaches a node in deficit, and counts the pushes; the potentials become
/// the greatest that certify the flow.
fn push_rest(
    graph: &Graph,
    flow: &mut Tracked<i64>,
    excess: &mut Excess,
    potentials: &mut Tracked<i64>,
    scratch: &mut Scratch,
) -> u64
    requires ready { IsReady graph.now flow.old.entries potentials.old.entries excess.old }
    requires scratch_in { length scratch.old.tree.labels ≡ length potentials.old.entries }
    requires held { IsHeldIn graph.now.rows flow.old.whole scratch.old.tree }
    requires step { AreInStep scratch.old.tree potentials.old.entries }
    ensures flow_written { IsWritten flow.old flow.new }
    ensures potentials_written { IsWritten potentials.old potentials.new }
    ensures pushed { IsRaisedBy graph.now result
        flow.old.entries excess.old flow.new.entries excess.new potentials.new.entries }
    ensures parted { IsParted graph.now.rows flow.new.entries excess.new }
    ensures scratch_in { length scratch.new.tree.labels ≡ length scratch.old.tree.labels }
    ensures held { IsHeldIn graph.now.rows flow.new.whole scratch.new.tree }
    ensures step { AreInStep scratch.new.tree potentials.new.entries }
{
    let count = finish(graph, flow, excess, potentials, scratch);
    if count > 0 {
        scratch.attempt.proposals.forget_arcs();
    }
    write_raised(graph, flow, potentials, scratch);
    count
}

/// Pushes flow until no node in excess reaches a node in deficit, and counts the pushes: as a proposal from afar has
/// it, which looks at all nodes, and then by searches. The potentials become the greatest that certify the flow.
#[inline(never)] // a name of its own in the program: `bench/count` counts its calls
pub fn push_all(
    graph: &Graph,
    flow: &mut Tracked<i64>,
    excess: &mut Excess,
    potentials: &mut Tracked<i64>,
    scratch: &mut Scratch,
) -> u64
    requires ready { IsReady graph.now flow.old.entries potentials.old.entries excess.old }
    requires scratch_in { length scratch.old.tree.labels ≡ length potentials.old.entries }
    requires held { IsHeldIn graph.now.rows flow.old.whole scratch.old.tree }
    requires step { AreInStep scratch.old.tree potentials.old.entries }
    ensures flow_written { IsWritten flow.old flow.new }
    ensures potentials_written { IsWritten potentials.old potentials.new }
    ensures pushed { IsRaisedBy graph.now result
        flow.old.entries excess.old flow.new.entries excess.new potentials.new.entries }
    ensures parted { IsParted graph.now.rows flow.new.entries excess.new }
    ensures scratch_in { length scratch.new.tree.labels ≡ length scratch.old.tree.labels }
    ensures held { IsHeldIn graph.now.rows flow.new.whole scratch.new.tree }
    ensures step { AreInStep scratch.new.tree potentials.new.entries }
{
    let count = push_from_afar(graph, flow, excess, potentials, scratch);
    let more = push_rest(graph, flow, excess, potentials, scratch);
    count + more
}
