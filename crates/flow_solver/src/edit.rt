//! What an accepted edit asks for, and the flow nearest to one.

ghost use Rattle.std.specs.Prelude.{◌≡◌, ◌≤ℤ◌, IsOk, Some};
ghost use Rattle.dimacs_text.specs.declared.problem.ArcRow.{ArcRow};
ghost use Rattle.network.specs.Edited.{arc_of, edited};
ghost use Rattle.network.specs.Instance.{IsLawful, arc_at};
ghost use Rattle.flow_solver.specs.Edit.{row_after_edit, IsNearest, IsAddEdit, IsOfAdd, IsOfArc, IsOfSupply, IsSupplyEdit, IsRowEdit};

use dimacs_text::{ArcRow, Edit};
use network::{Network, edits_keep_lawful};

/// The flow nearest to this one that the bounds of the arc and the sign of its reduced cost allow.
pub fn nearest(row: &ArcRow, reduced: i64, flow: i64) -> i64
    requires bounds { row.now.low ≤ℤ row.now.cap }
    ensures { IsNearest row.now reduced flow result }
{
    if reduced > 0 || (reduced == 0 && flow < row.low) {
        row.low
    } else if reduced < 0 || flow > row.cap {
        row.cap
    } else {
        flow
    }
}

/// The arc with this number, which is there.
pub fn arc_of(net: &Network, k: u64) -> ArcRow
    requires lawful { IsLawful net.now }
    requires there { (row : ArcRow) × (arc_at net.now.arcs k ≡ Some row) }
    ensures { arc_at net.now.arcs k ≡ Some result }
{
    let Some(row) = net.arc(k as u32) else {
        unreachable!()
    };
    row
}

/// The number of the arc that an edit names, or 0 where it names none.
fn arc_number(edit: &Edit) -> u64
    ensures { result ≡ arc_of edit.now }
{
    match *edit {
        Edit::Cap { arc, .. } => arc,
        Edit::Low { arc, .. } => arc,
        Edit::Cost { arc, .. } => arc,
        Edit::Close { arc } => arc,
        _ => 0,
    }
}

/// What an edit makes of the arc that it names.
fn row_after_edit(row: ArcRow, edit: &Edit) -> ArcRow
    ensures { result ≡ row_after_edit edit.now row }
{
    match *edit {
        Edit::Cap { cap, .. } => ArcRow { cap, ..row },
        Edit::Low { low, .. } => ArcRow { low, ..row },
        Edit::Cost { cost, .. } => ArcRow { cost, ..row },
        Edit::Close { .. } => ArcRow {
            low: 0,
            cap: 0,
            ..row
        },
        _ => row,
    }
}

/// The number of the arc that an accepted edit changes, and what the arc becomes.
pub fn edited_row(net: &Network, edit: &Edit) -> (u32, ArcRow)
    requires lawful { IsLawful net.now }
    requires accepted { IsOk (edited net.now edit.now) }
    requires of_arc { IsOfArc edit.now }
    ensures { IsRowEdit net.now edit.now result.0 result.1 }
{
    edits_keep_lawful();
    let k = arc_number(edit);
    (k as u32, row_after_edit(arc_of(net, k), edit))
}

/// The node whose supply an accepted edit changes, and its new supply.
pub fn edited_supply(net: &Network, edit: &Edit) -> (u32, i64)
    requires lawful { IsLawful net.now }
    requires accepted { IsOk (edited net.now edit.now) }
    requires of_supply { IsOfSupply edit.now }
    ensures { IsSupplyEdit net.now edit.now result.0 result.1 }
{
    match *edit {
        Edit::Supply { node, value } => (node as u32, value),
        _ => unreachable!(),
    }
}

/// The arc with these ends, bounds and cost.
fn new_row(tail: u32, head: u32, low: i64, cap: i64, cost: i64) -> ArcRow
    ensures { result ≡ record { tail = tail; head = head; low = low; cap = cap; cost = cost } }
{
    ArcRow {
        tail,
        head,
        low,
        cap,
        cost,
    }
}

/// The arc that an accepted edit adds.
pub fn added_row(net: &Network, edit: &Edit) -> ArcRow
    requires lawful { IsLawful net.now }
    requires accepted { IsOk (edited net.now edit.now) }
    requires of_add { IsOfAdd edit.now }
    ensures { IsAddEdit net.now edit.now result }
{
    edits_keep_lawful();
    match *edit {
        Edit::Add {
            tail,
            head,
            low,
            cap,
            cost,
        } => new_row(tail as u32, head as u32, low, cap, cost),
        _ => unreachable!(),
    }
}
