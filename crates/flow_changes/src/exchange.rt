//! A flow that becomes the wanted one at once, with the excess at the ends of each changed arc, and how many units that
//! moves. Each wanted flow changes places with the one that stood there, so the list of changes leads back.

ghost use Rattle.std.specs.Prelude.{◌≡◌, ℕ, ◌<◌, ◌≤◌, IfSome, IsTrue, false, length, slice_set, true};
ghost use Rattle.residual_graph.specs.Residual.{IsPseudoflow, IsRow};
ghost use Rattle.flow_changes.specs.Exchange.{AreChanged, AreExchanged, HasGiven, HaveGiven, IsJournalFor, IsLed, IsMovedAlong, IsTrialFor, RisesBetween, flow_before};
ghost use Rattle.tracked.specs.Journal.{IsSince};
ghost use Rattle.tracked.specs.Marks.{in_set};
ghost use Rattle.tracked.specs.Tracked.{IsWritten};
ghost use Rattle.flow_changes.specs.Push.{AreSmall};

use crate::trial::Trial;
use dimacs_text::ArcRow;
use proposals::FlowChange;
use residual_graph::Graph;
use tracked::{Journal, Tracked};

/// Writes an entry of a table, and has a journal note before what stood there.
fn write(table: &mut [i64], journal: &mut Journal, place: usize, value: i64)
    requires place { place < length table.old }
    requires journal { IsJournalFor (length table.old) journal.old }
    ensures table { table.new ≡ slice_set table.old place value }
    ensures led { IsLed journal.old journal.new table.old table.new }
{
    journal.note(table, place);
    table[place] = value;
}

/// Moves `amount` from the excess of an arc's tail to that of its head, and says whether the sums are in range.
fn move_excess(excess: &mut [i64], journal: &mut Journal, row: &ArcRow, amount: i64) -> bool
    requires row { IsRow (length excess.old) row.now }
    requires journal { IsJournalFor (length excess.old) journal.old }
    ensures led { IsLed journal.old journal.new excess.old excess.new }
    ensures moved { IsTrue result → IsMovedAlong row.now amount excess.old excess.new }
{
    let tail = row.tail as usize;
    let head = row.head as usize;
    let Some(left) = excess[tail].checked_sub(amount) else {
        return false;
    };
    write(excess, journal, tail, left);
    let Some(come) = excess[head].checked_add(amount) else {
        return false;
    };
    write(excess, journal, head, come);
    true
}

/// Whether an arc that is to carry more has its head at a higher rank, and one that is to carry less its tail.
fn rises_at(row: &ArcRow, before: i64, flow: i64, ranks: &[u32]) -> bool
    requires row { IsRow (length ranks.now) row.now }
    ensures { IsTrue result → RisesBetween row.now before flow ranks.now }
{
    let tail = ranks[row.tail as usize];
    let head = ranks[row.head as usize];
    if before < flow {
        tail < head
    } else {
        before == flow || head < tail
    }
}

/// Gives an arc the flow that is wanted of it, or the nearest within its bounds, and moves the excess at its ends; the change
/// then has the flow that stood there. Says whether it could: not where the change leads to no node of higher rank, or where
/// the sums are out of range, and then the flow is as before.
fn change_arc(
    graph: &Graph,
    ranks: &[u32],
    flow: &mut Tracked<i64>,
    excess: &mut [i64],
    journal: &mut Journal,
    change: &mut FlowChange,
) -> bool
    requires flow { IsPseudoflow (length excess.old) graph.now.rows flow.old.entries }
    requires ranks { length ranks.now ≡ length excess.old }
    requires journal { IsJournalFor (length excess.old) journal.old }
    ensures written { IsWritten flow.old flow.new }
    ensures led { IsLed journal.old journal.new excess.old excess.new }
    ensures same { result ≡ false → flow.new.entries ≡ flow.old.entries }
    ensures before { IsTrue result
        → slice_set flow.new.entries change.new.arc change.new.flow ≡ flow.old.entries }
    ensures changed { IsTrue result → AreChanged graph.now.rows ranks.now
        flow.old.entries excess.old flow.new.entries excess.new }
{
    let k = change.arc as usize;
    if k >= flow.entries().len() {
        return true;
    }
    let row = graph.row(k);
    let before = flow.get(k);
    let goal = change.flow.max(row.low).min(row.cap);
    let amount = goal - before;
    change.flow = goal;
    if amount == 0 {
        return true;
    }
    if !rises_at(&row, before, goal, ranks) {
        return false;
    }
    if !move_excess(excess, journal, &row, amount) {
        return false;
    }
    flow.exchange(k, &mut change.flow);
    true
}

/// Makes changes in turn, and says whether all could be made: those that were are left in the list.
fn change_arcs(
    graph: &Graph,
    ranks: &[u32],
    flow: &mut Tracked<i64>,
    excess: &mut [i64],
    journal: &mut Journal,
    changes: &mut Vec<FlowChange>,
) -> bool
    requires flow { IsPseudoflow (length excess.old) graph.now.rows flow.old.entries }
    requires ranks { length ranks.now ≡ length excess.old }
    requires journal { IsJournalFor (length excess.old) journal.old }
    ensures written { IsWritten flow.old flow.new }
    ensures led { IsLed journal.old journal.new excess.old excess.new }
    ensures before { flow_before changes.new.items flow.new.entries ≡ flow.old.entries }
    ensures changed { IsTrue result → AreChanged graph.now.rows ranks.now
        flow.old.entries excess.old flow.new.entries excess.new }
{
    for j in 0..changes.len() {
        let mut change = changes[j];
        let is_made = change_arc(graph, ranks, flow, excess, journal, &mut change);
        if !is_made {
            changes.truncate(j);
            return false;
        }
        changes[j] = change;
    }
    true
}

/// Brings back the flow before the changes, the last of them first.
pub fn write_back(flow: &mut Tracked<i64>, changes: &[FlowChange])
    ensures written { IsWritten flow.old flow.new }
    ensures flow { flow.new.entries ≡ flow_before changes.now flow.old.entries }
{
    let last = changes.len();
    for done in 0..changes.len() {
        let change = &changes[last - 1 - done];
        let k = change.arc as usize;
        if k < flow.entries().len() {
            flow.set(k, change.flow);
        }
    }
}

/// How much a node gave; none where its excess or deficit did not come nearer to 0.
fn given(before: i64, after: i64) -> Option<u64>
    ensures { IfSome result (HasGiven before after) }
{
    if 0 <= after && after <= before {
        Some((before - after) as u64)
    } else if before <= after && after <= 0 {
        Some(0)
    } else {
        None
    }
}

/// How many units all nodes gave that a journal notes: nothing is told unless each comes nearer to balance.
fn units_given(journal: &Journal, excess: &[i64]) -> Option<u64>
    requires places { (v : ℕ) → in_set journal.now.written v ≡ true → v < length excess.now }
    requires room { length excess.now ≤ length journal.now.before.items }
    ensures { IfSome result (HaveGiven journal.now excess.now) }
{
    let mut units: u64 = 0;
    for place in journal.written.places() {
        let v = *place as usize;
        units = units.checked_add(given(journal.before[v], excess[v])?)?;
    }
    Some(units)
}

/// Makes the flow the wanted one, with the excess that it leaves, where its changes go round in no circle and bring each
/// node nearer to balance, and counts the units that this moves. Else both are to be brought back: the flow from the changes
/// that are left in the list, and the excess from the journal that begins here.
pub fn exchange(
    graph: &Graph,
    flow: &mut Tracked<i64>,
    excess: &mut [i64],
    changes: &mut Vec<FlowChange>,
    trial: &mut Trial,
) -> Option<u64>
    requires flow { IsPseudoflow (length excess.old) graph.now.rows flow.old.entries }
    requires small { AreSmall excess.old }
    requires trial { IsTrialFor (length excess.old) trial.old }
    ensures some { IfSome result
        (AreExchanged graph.now flow.old.entries excess.old flow.new.entries excess.new) }
    ensures written { IsWritten flow.old flow.new }
    ensures before { flow_before changes.new.items flow.new.entries ≡ flow.old.entries }
    ensures trial { IsTrialFor (length excess.old) trial.new }
    ensures since { IsSince trial.new.excess excess.old excess.new }
{
    trial.excess.clear();
    if !trial.order.lay_out(graph, flow.entries(), changes) {
        changes.clear();
        return None;
    }
    let ranks = trial.order.ranks();
    let journal = &mut trial.excess;
    if !change_arcs(graph, ranks, flow, excess, journal, changes) {
        return None;
    }
    units_given(&trial.excess, excess)
}
