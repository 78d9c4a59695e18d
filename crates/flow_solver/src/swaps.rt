//! Single entries of a table that are exchanged or set.

ghost use Rattle.std.specs.Prelude.{◌≡◌, ◌-◌, ◌<◌, ◌≤◌, drop, length, slice_index_or, slice_set, ◌+◌};
ghost use Rattle.network.specs.Instance.{IsLawful, reduced};
ghost use Rattle.flow_solver.specs.Balance.{IsBalanceOf};
ghost use Rattle.flow_solver.specs.Moment.{VerdictFits, with_return};
ghost use Rattle.tracked.specs.Tracked.{IsWritten};

use crate::balance::{Balance, carry_over};
use crate::verdict::Verdict;
use dimacs_text::ArcRow;
use network::Network;
use tracked::Tracked;

/// Exchanges the entry of a node, in a table with an entry for no node in front.
pub fn exchange_node<T: Copy>(table: &mut Tracked<T>, id: u32, value: &mut T)
    requires node { (1 ≤ id) × (id < length table.old.entries) }
    ensures written { IsWritten table.old table.new }
    ensures entries { table.new.entries ≡ slice_set table.old.entries id value.old }
    ensures table { drop 1 table.new.entries
        ≡ slice_set (drop 1 table.old.entries) (id - 1) value.old }
    ensures value { value.new ≡ slice_index_or (drop 1 table.old.entries) (id - 1) value.old }
    ensures no_node { (d : T)
        → slice_index_or table.new.entries 0 d ≡ slice_index_or table.old.entries 0 d }
{
    table.exchange(id as usize, value);
}

/// Has the return arc, where there is one, carry the worth that is told.
pub fn carry_worth(
    net: &Network,
    rows: &[ArcRow],
    flow: &mut Tracked<i64>,
    balance: &mut Balance,
    verdict: Verdict,
)
    requires lawful { IsLawful net.now }
    requires rows { rows.now ≡ (reduced net.now).arcs }
    requires balance { IsBalanceOf net.now rows.now flow.old balance.old }
    requires fits { VerdictFits net.now.demand verdict }
    requires flow_in { length flow.old.entries ≡ length (reduced net.now).arcs }
    ensures balance { IsBalanceOf net.now rows.now flow.new balance.new }
    ensures written { IsWritten flow.old flow.new }
    ensures flow { flow.new.entries ≡ with_return net.now.demand verdict flow.old.entries }
{
    if let Some(_) = net.return_arc() {
        let Verdict::Best(worth) = verdict else {
            unreachable!()
        };
        let carried = worth as i64;
        carry_over(&mut balance.excess, &rows[0], flow.get(0), carried);
        flow.set(0, carried);
    }
}
