//! The excess of each node and the cost of a flow, carried over from one flow to the next.

ghost use Rattle.std.specs.Prelude.{◌≡◌, ℕ, ℤ, ◌+◌, ◌*ℤ◌, ◌+ℤ◌, ◌-ℤ◌, ◌<◌, ◌≤◌, IfOk, length};
ghost use Rattle.std.specs.Int.{int_wrap, w128};
ghost use Rattle.residual_graph.specs.Limits.{entry_limit};
ghost use Rattle.flow_solver.specs.Balance.{AreEndsIn, AreWrapped, FollowsFlow, IsCarried, IsRaised, IsWrappedCost, IsWrappedExcess, node_supply};

use crate::answer::supply_at;
use cuts::Excess;
use dimacs_text::ArcRow;
use network::Network;
use std::alloc::{AllocError, Global};
use tracked::Tracked;

/// The excess of each node under the present flow of a `Tracked` table, and the cost of the flow in its last snapshot.
/// Both are sums that wrap: each is carried over as one arc or supply changes, whatever the flows are in between, and
/// of a flow within its bounds it is exact, since it fits. `cost_now` gives the cost of the present flow.
#[derive(Drop)]
pub struct Balance {
    pub excess: Excess,
    pub cost: i128,
}

impl Balance {
    /// The balance of a flow of the network, all of it.
    pub fn new(
        alloc: Global,
        net: &Network,
        rows: &[ArcRow],
        flow: &[i64],
    ) -> Result<Balance, AllocError>
        requires same_length { length flow.now ≡ length rows.now }
        requires ends { AreEndsIn (net.now.nodes + 1) rows.now }
        requires few { net.now.nodes + 1 ≤ entry_limit }
        ensures sized { IfOk result (λ b. length b.excess ≡ net.now.nodes + 1) }
        ensures excess { IfOk result
            (λ b. IsWrappedExcess rows.now (node_supply net.now) flow.now b.excess) }
        ensures cost { IfOk result (λ b. IsWrappedCost rows.now flow.now b.cost) }
    {
        let mut entries = vec![in alloc; 0; net.nodes() as usize + 1]?;
        fill_supplies(net, &mut entries);
        let mut excess = Excess::new(alloc, entries)?;
        send(rows, flow, &mut excess);
        Ok(Balance {
            excess,
            cost: cost_of(rows, flow),
        })
    }
}

/// Adds `after` less `before` to the entry of a node, as where its supply changes so.
pub fn add_difference(excess: &mut Excess, v: usize, before: i64, after: i64)
    requires { v < length excess.old }
    ensures { IsRaised v before after excess.old excess.new }
{
    let raised = excess.entries()[v].wrapping_add(after.wrapping_sub(before));
    excess.set(v, raised);
}

/// Carries the excess over as the flow of an arc goes from `before` to `after`.
pub fn carry_over(excess: &mut Excess, row: &ArcRow, before: i64, after: i64)
    requires tail_in { row.now.tail < length excess.old }
    requires head_in { row.now.head < length excess.old }
    ensures { IsCarried row.now before after excess.old excess.new }
{
    add_difference(excess, row.tail as usize, after, before);
    add_difference(excess, row.head as usize, before, after);
}

/// Carries a cost over as one factor of an arc's share, its cost or its flow, goes from `before` to `after`.
pub fn reprice(cost: i128, before: i64, after: i64, factor: i64) -> i128
    ensures { result ≡ int_wrap w128 (cost +ℤ (after -ℤ before) *ℤ factor) }
{
    let more = i128::from(after) - i128::from(before);
    cost.wrapping_add(more.wrapping_mul(i128::from(factor)))
}

/// The cost of what stands in the table, from that of what was kept.
pub fn cost_now(rows: &[ArcRow], flow: &Tracked<i64>, cost: i128) -> i128
    requires as_many { length rows.now ≡ length flow.now.entries }
    requires cost { IsWrappedCost rows.now flow.now.whole cost }
    ensures { IsWrappedCost rows.now flow.now.entries result }
{
    let mut now = cost;
    let places = flow.places();
    let kept = flow.whole();
    for j in 0..places.len() {
        let k = places[j] as usize;
        // The last arcs may have been taken off since.
        if k < rows.len() {
            now = reprice(now, kept[k], flow.get(k), rows[k].cost);
        }
    }
    now
}

/// Carries the excess of what stands in the table back to that of what was kept.
pub fn carry_back(rows: &[ArcRow], flow: &Tracked<i64>, excess: &mut Excess)
    requires as_many { length rows.now ≡ length flow.now.entries }
    requires ends { AreEndsIn (length excess.old) rows.now }
    ensures same_length { length excess.new ≡ length excess.old }
    ensures excess { FollowsFlow rows.now flow.now.entries excess.old flow.now.whole excess.new }
{
    let places = flow.places();
    let kept = flow.whole();
    for j in 0..places.len() {
        let k = places[j] as usize;
        if k < rows.len() {
            carry_over(excess, &rows[k], flow.get(k), kept[k]);
        }
    }
}

/// Fills the table with what each node has to send out.
fn fill_supplies(net: &Network, excess: &mut [i64])
    requires sized { length excess.old ≡ net.now.nodes + 1 }
    requires few { length excess.old ≤ entry_limit }
    ensures { AreWrapped (node_supply net.now) excess.new }
{
    for v in 0..excess.len() {
        excess[v] = supply_at(net, v as u32);
    }
}

/// Takes what a flow sends off what each node has to send out.
fn send(rows: &[ArcRow], flow: &[i64], excess: &mut Excess)
    requires same_length { length flow.now ≡ length rows.now }
    requires ends { AreEndsIn (length excess.old) rows.now }
    ensures same_length { length excess.new ≡ length excess.old }
    ensures excess { (supply : ℕ → ℤ) → AreWrapped supply excess.old
        → IsWrappedExcess rows.now supply flow.now excess.new }
{
    for k in 0..rows.len() {
        carry_over(excess, &rows[k], 0, flow[k]);
    }
}

/// The cost of a flow.
fn cost_of(rows: &[ArcRow], flow: &[i64]) -> i128
    requires { length flow.now ≡ length rows.now }
    ensures { IsWrappedCost rows.now flow.now result }
{
    let mut cost = 0;
    for k in 0..rows.len() {
        cost = reprice(cost, 0, flow[k], rows[k].cost);
    }
    cost
}
