//! The verdict on an instance whose flow is settled.

ghost use Rattle.std.specs.Prelude.{◌≡◌, ◌^◌, ◌<◌, ◌≤◌, length};
ghost use Rattle.network.specs.Flow.{AllWithinBounds};
ghost use Rattle.network.specs.Instance.{reduced, IsLawful};
ghost use Rattle.residual_graph.specs.Limits.{entry_limit};
ghost use Rattle.flow_changes.specs.Push.{AreSmall, left};
ghost use Rattle.cuts.specs.Cut.{lack};
ghost use Rattle.flow_solver.specs.Balance.{IsWrappedCost, node_supply};
ghost use Rattle.flow_solver.specs.Answer.{IsJudged, reduced_worth};

use crate::balance::{Balance, cost_now};
use crate::verdict::Verdict;
use dimacs_text::ArcRow;
use network::Network;
use residual_graph::Side;
use tracked::Tracked;

/// What a node has to send out in the reduced instance; 0 where there is no such node.
pub fn supply_at(net: &Network, id: u32) -> i64
    ensures { result ≡ node_supply net.now id }
{
    match net.reduced_supply(id) {
        Some(supply) => supply,
        None => 0,
    }
}

/// The cost of the present flow of a `Tracked` table, or what its return arc carries.
fn worth(net: &Network, rows: &[ArcRow], flow: &Tracked<i64>, balance: &Balance) -> i128
    requires lawful { IsLawful net.now }
    requires rows { rows.now ≡ (reduced net.now).arcs }
    requires bounds { AllWithinBounds rows.now flow.now.entries }
    requires cost { IsWrappedCost rows.now flow.now.whole balance.now.cost }
    ensures { result ≡ reduced_worth net.now.demand rows.now flow.now.entries }
{
    match net.return_arc() {
        Some(_) => i128::from(flow.get(0)),
        None => cost_now(rows, flow, balance.cost),
    }
}

/// The verdict by what is left in excess or in deficit.
pub fn judge(net: &Network, rows: &[ArcRow], flow: &Tracked<i64>, balance: &Balance) -> Verdict
    requires lawful { IsLawful net.now }
    requires rows { rows.now ≡ (reduced net.now).arcs }
    requires bounds { AllWithinBounds rows.now flow.now.entries }
    requires cost { IsWrappedCost rows.now flow.now.whole balance.now.cost }
    requires small { AreSmall balance.now.excess }
    requires few { length balance.now.excess ≤ entry_limit }
    requires left_fits { left balance.now.excess < 2 ^ 63 }
    requires lack_fits { left balance.now.excess ≡ 0 → lack balance.now.excess < 2 ^ 63 }
    ensures { IsJudged (reduced_worth net.now.demand rows.now flow.now.entries)
        balance.now.excess result }
{
    let left = balance.excess.amount(Side::Ahead);
    if left > 0 {
        return Verdict::Infeasible(left as i64);
    }
    let lack = balance.excess.amount(Side::Behind);
    if lack > 0 {
        return Verdict::Infeasible(lack as i64);
    }
    Verdict::Best(worth(net, rows, flow, balance))
}
