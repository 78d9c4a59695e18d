//! How an instance is made, and how it grows.
ghost use Rattle.std.specs.Prelude.{◌≡◌, ◌+◌, ◌-◌, ◌*◌, ◌<◌, ◌≤◌, ◌++◌, All, IfOk, length, slice_index_or, vec_capacity, vec_len};
ghost use Rattle.network.specs.Ends.{AddsEnd, AreEndLists, RemovesEnd};
ghost use Rattle.dimacs_lines.specs.Fields.{IsNode};
ghost use Rattle.dimacs_text.specs.Lawful.{IsLawfulRow, IsWithin};
ghost use Rattle.network.specs.Edited.{with_arc, with_last, with_node_supply};
ghost use Rattle.network.specs.Instance.{ArcFits, kind_of};
ghost use Rattle.network.specs.Representation.{ends_in, front, instance_of, return_rows, CanBegin};

use crate::start::Frame;
use crate::views::return_arc;
use crate::{Goal, Network};
use dimacs_text::{ARC_LIMIT, ArcRow, Kind, SUPPLY_LIMIT};
use std::alloc::{AllocError, Global};

/// Makes an end the greatest one of its node.
fn link_end(first: &mut [u32], next: &mut Vec<u32>, node: u32, end: u32)
    requires node { (1 ≤ node) × (node ≤ length first.old) }
    requires few { end < 2 * ARC_LIMIT }
    requires room { vec_len next.old < vec_capacity next.old }
    ensures added { AddsEnd (ends_in first.old) (ends_in next.old.items) node end
        (ends_in first.new) (ends_in next.new.items) }
    ensures capacity { vec_capacity next.old ≤ vec_capacity next.new }
{
    let before = first[node as usize - 1];
    let Ok(()) = next.push(before) else {
        unreachable!()
    };
    first[node as usize - 1] = end + 1;
}

/// Takes the greatest end of all off its node's list.
fn unlink_end(first: &mut [u32], next: &mut Vec<u32>, node: u32)
    requires node { (1 ≤ node) × (node ≤ length first.old) }
    requires some { 0 < vec_len next.old }
    ensures removed { RemovesEnd (ends_in first.old) (ends_in next.old.items) node
        (ends_in first.new) (ends_in next.new.items) }
    ensures capacity { vec_capacity next.old ≤ vec_capacity next.new }
{
    let Some(before) = next.pop() else {
        unreachable!()
    };
    first[node as usize - 1] = before;
}

/// The lists of the ends of arcs at so many nodes, with room for so many arcs.
fn list_ends(
    alloc: Global,
    arcs: &[ArcRow],
    nodes: usize,
    room: usize,
) -> Result<(Vec<u32>, Vec<u32>), AllocError>
    requires lawful { All (IsLawfulRow nodes) arcs.now }
    requires count { length arcs.now ≤ room }
    requires few { room ≤ ARC_LIMIT }
    ensures lists { IfOk result
        (λ lists. AreEndLists nodes arcs.now (ends_in lists.0.items) (ends_in lists.1.items)) }
    ensures room { IfOk result (λ lists. 2 * room ≤ vec_capacity lists.1) }
{
    let mut first = vec![in alloc; 0; nodes]?;
    let mut next = Vec::with_capacity(alloc, 2 * room)?;
    for arc in arcs {
        let end = next.len() as u32;
        link_end(&mut first, &mut next, arc.tail, end);
        link_end(&mut first, &mut next, arc.head, end + 1);
    }
    Ok((first, next))
}

/// The rows of these arcs: the return arc, where there is one, before them; with room for so many arcs.
fn rows_of(goal: Goal, arcs: Vec<ArcRow>, room: usize) -> Result<Vec<ArcRow>, AllocError>
    requires count { vec_len arcs ≤ room }
    requires few { room ≤ ARC_LIMIT }
    ensures rows { IfOk result (λ rows. rows.items ≡ return_rows goal ++ arcs.items) }
    ensures room { IfOk result (λ rows. front goal + room ≤ vec_capacity rows) }
{
    let mut rows = arcs;
    rows.reserve_exact(goal.return_arcs() + room - rows.len())?;
    if let Goal::GreatestFlow { source, sink } = goal {
        rows.insert(0, return_arc(source, sink))?;
    }
    Ok(rows)
}

impl Network {
    /// An instance of these arcs. Their table becomes the network's.
    pub(crate) fn new(alloc: Global, frame: Frame, arcs: Vec<ArcRow>) -> Result<Network, AllocError>
        requires { CanBegin frame.goal frame.supplies.items arcs.items frame.room }
        ensures { IfOk result
            (λ n. n ≡ instance_of (vec_len frame.supplies) frame.goal frame.supplies.items
            arcs.items frame.room) }
    {
        let Frame {
            goal,
            supplies,
            room,
        } = frame;
        let (first, next) = list_ends(alloc, &arcs, supplies.len(), room)?;
        let rows = rows_of(goal, arcs, room)?;
        Ok(Network {
            nodes: supplies.len() as u32,
            goal,
            supplies,
            rows,
            room,
            first,
            next,
        })
    }

    /// Adds an arc at the end. The room for it was taken when the instance was built.
    pub fn push_arc(&mut self, row: ArcRow)
        requires room { length self.old.arcs < self.old.room }
        requires limits { IsLawfulRow self.old.nodes row }
        requires fits { ArcFits self.old.demand row }
        ensures { self.new ≡ with_last self.old row }
    {
        let end = 2 * self.arcs();
        link_end(&mut self.first, &mut self.next, row.tail, end);
        link_end(&mut self.first, &mut self.next, row.head, end + 1);
        let Ok(()) = self.rows.push(row) else {
            unreachable!()
        };
    }

    /// Takes the last arc off, and gives its room back.
    pub fn pop_arc(&mut self) -> ArcRow
        requires { 0 < length self.old.arcs }
        ensures { self.old ≡ with_last self.new result }
    {
        let Some(row) = self.rows.pop() else {
            unreachable!()
        };
        unlink_end(&mut self.first, &mut self.next, row.head);
        unlink_end(&mut self.first, &mut self.next, row.tail);
        row
    }

    /// Changes the bounds and the cost of the arc with this number, counted from 1.
    pub fn set_row(&mut self, k: u32, row: ArcRow)
        requires arc { (1 ≤ k) × (k ≤ length self.old.arcs) }
        requires tail { row.tail ≡ (slice_index_or self.old.arcs (k - 1) row).tail }
        requires head { row.head ≡ (slice_index_or self.old.arcs (k - 1) row).head }
        requires limits { IsLawfulRow self.old.nodes row }
        requires fits { ArcFits self.old.demand row }
        ensures { self.new ≡ with_arc self.old k row }
    {
        let place = self.goal.return_arcs() + (k as usize - 1);
        self.rows[place] = row;
    }

    /// Changes what a node of a least-cost problem has to send out.
    pub fn set_supply(&mut self, id: u32, value: i64)
        requires kind { kind_of self.old.demand ≡ Kind.Min }
        requires node { IsNode self.old.nodes id }
        requires limit { IsWithin SUPPLY_LIMIT value }
        ensures { self.new ≡ with_node_supply self.old id value }
    {
        self.supplies[id as usize - 1] = value;
    }
}
