//! What a node sends out in all, by the list of its ends.
ghost use Rattle.std.specs.Prelude.{◌≡◌, ◌*◌, ◌<◌, ◌≤◌, ℕ, List, All, length, unsigned_abs};
ghost use Rattle.dimacs_text.specs.declared.problem.ArcRow.{ArcRow};
ghost use Rattle.dimacs_text.specs.declared.problem.TheConstants.{CAP_LIMIT};
ghost use Rattle.network.specs.Ends.{end_flow, end_node, last_end_below, WalksEnds};
ghost use Rattle.network.specs.Flow.{AllWithinBounds, IsNode, net};
ghost use Rattle.network.specs.Instance.{reduced};
ghost use Rattle.network.specs.Representation.{listed_end};

use crate::Network;

/// What an end adds to its node's net.
fn end_flow(flow: &[i64], end: u32) -> i64
    requires end { end < 2 * length flow.now }
    requires size { All (λ x. unsigned_abs x ≤ CAP_LIMIT) flow.now }
    ensures { result ≡ end_flow flow.now end }
{
    let amount = flow[end as usize / 2];
    if end % 2 == 0 { amount } else { -amount }
}

/// The end in an entry of a list.
#[inline(always)]
fn listed_end(entry: u32) -> Option<u32>
    ensures { result ≡ listed_end entry }
{
    entry.checked_sub(1)
}

impl Network {
    /// The greatest end at a node, if there is one. With arcs counted from 0, end 2k is the tail of arc k and end
    /// 2k + 1 its head.
    pub fn first_end(&self, id: u32) -> Option<u32>
        ensures node { IsNode (reduced self.now) id
            → result ≡ last_end_below self.now.arcs id (2 * length self.now.arcs) }
        ensures no_node { ¬ IsNode (reduced self.now) id → result ≡ None }
    {
        if id == 0 || id > self.nodes {
            return None;
        }
        listed_end(self.first[id as usize - 1])
    }

    /// The greatest end below this one at its node, if there is one.
    pub fn next_end(&self, end: u32) -> Option<u32>
        ensures end { end < 2 * length self.now.arcs
            → result ≡ last_end_below self.now.arcs (end_node self.now.arcs end) end }
        ensures no_end { 2 * length self.now.arcs ≤ end → result ≡ None }
    {
        if end as usize >= self.next.len() {
            return None;
        }
        listed_end(self.next[end as usize])
    }

    /// The net outflow of a node: the flow on its arcs out less that on its arcs in; a self-loop adds 0. `flow` has one
    /// entry an arc, within its bounds.
    pub(crate) fn net_at(&self, flow: &[i64], id: u32) -> i64
        requires node { IsNode (reduced self.now) id }
        requires bounds { AllWithinBounds self.now.arcs flow.now }
        ensures { result ≡ net self.now.arcs flow.now id }
    {
        let mut sum = 0;
        let mut current = listed_end(self.first[id as usize - 1]);
        while let Some(end) = current {
            sum += end_flow(flow, end);
            current = listed_end(self.next[end as usize]);
        }
        sum
    }
}

/// A law, with nothing to run: `first_end` and then `next_end`, up to `None`, give each end at a node once.
pub fn ends_come_once()
    ensures { (arcs : List ArcRow) (v : ℕ) → (ends : List ℕ) × WalksEnds arcs v ends }
{}
