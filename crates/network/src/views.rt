//! What an instance is made of, and its reduction to minimum cost.
ghost use Rattle.std.specs.Prelude.{◌≡◌, ◌+◌, ◌≤◌, Some, None, length};
ghost use Rattle.network.specs.Flow.{AllEndsAreNodes, IsNode};
ghost use Rattle.network.specs.Instance.{IsLawful, arc_at, kind_of, reduced, reduced_supply, return_arc};
ghost use Rattle.network.specs.Rows.{return_arcs};
ghost use Rattle.network.specs.Representation.{front};

use crate::{Goal, Network, RETURN_CAP};
use dimacs_text::{ArcRow, Kind};

/// The return arc of a maximum flow.
pub(crate) fn return_arc(source: u32, sink: u32) -> ArcRow
    ensures { result ≡ return_arc source sink }
{
    ArcRow {
        tail: sink,
        head: source,
        low: 0,
        cap: RETURN_CAP,
        cost: -1,
    }
}

impl Goal {
    /// How many return arcs there are.
    #[inline(always)]
    pub(crate) fn return_arcs(self) -> usize
        ensures { result ≡ front self }
    {
        match self {
            Goal::GreatestFlow { .. } => 1,
            _ => 0,
        }
    }
}

impl Network {
    /// The kind of problem.
    pub fn kind(&self) -> Kind
        ensures { result ≡ kind_of self.now.demand }
    {
        match self.goal {
            Goal::LeastCost => Kind::Min,
            Goal::GreatestFlow { .. } => Kind::Max,
            Goal::Assignment => Kind::Asn,
        }
    }

    /// The number of nodes, which are numbered from 1.
    pub fn nodes(&self) -> u32
        ensures value { result ≡ self.now.nodes }
        ensures lawful { IsLawful self.now }
        ensures ends { AllEndsAreNodes (reduced self.now) }
    {
        self.nodes
    }

    /// The number of arcs, which are numbered from 1.
    pub fn arcs(&self) -> u32
        ensures { result ≡ length self.now.arcs }
    {
        (self.rows.len() - self.goal.return_arcs()) as u32
    }

    /// How many rows stand before that of the first arc: that of the return arc, where there is one.
    #[inline(always)]
    pub fn return_arcs(&self) -> usize
        ensures count { result ≡ return_arcs self.now.demand }
        ensures split { result + length self.now.arcs ≡ length (reduced self.now).arcs }
        ensures few { result ≤ 1 }
    {
        self.goal.return_arcs()
    }

    /// The arcs of the instance's reduction to minimum cost: the return arc, where there is one, then the arcs.
    #[inline(always)]
    pub fn rows(&self) -> &[ArcRow]
        ensures { result.now ≡ (reduced self.now).arcs }
    {
        &self.rows
    }

    /// The arcs, in order.
    pub(crate) fn numbered(&self) -> &[ArcRow]
        ensures value { result.now ≡ self.now.arcs }
        ensures lawful { IsLawful self.now }
    {
        &self.rows[self.goal.return_arcs()..]
    }

    /// How many arcs there may be.
    pub fn room(&self) -> u32
        ensures { result ≡ self.now.room }
    {
        self.room as u32
    }

    /// The arc with this number, if it is there.
    pub fn arc(&self, k: u32) -> Option<ArcRow>
        ensures { result ≡ arc_at self.now.arcs k }
    {
        self.numbered_arc(u64::from(k))
    }

    /// The arc with this number in the instance's reduction to minimum cost, if it is there. It is the arc itself:
    /// the return arc has no number.
    pub fn reduced_arc(&self, k: u32) -> Option<ArcRow>
        ensures { result ≡ arc_at self.now.arcs k }
    {
        self.arc(k)
    }

    /// What a node has to send out in the instance's reduction to minimum cost, if it is a node.
    pub fn reduced_supply(&self, id: u32) -> Option<i64>
        ensures node { IsNode (reduced self.now) id
            → result ≡ Some (reduced_supply self.now.demand id) }
        ensures no_node { ¬ IsNode (reduced self.now) id → result ≡ None }
    {
        if id == 0 {
            return None;
        }
        self.supplies.get(id as usize - 1).copied()
    }
}
