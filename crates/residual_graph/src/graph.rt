//! The network in the forms that searches read.

ghost use Rattle.std.specs.Prelude.{◌≡◌, ℕ, ◌+◌, ◌-◌, ◌*◌, ◌<◌, ◌≤◌, ◌↔◌, ◌++◌, ◌∷◌, [], IfSome, IsTrue, length, slice_index_or};
ghost use Rattle.dimacs_lines.specs.Fields.{IsNode};
ghost use Rattle.dimacs_text.specs.Lawful.{IsLawfulRow, IsWithin};
ghost use Rattle.dimacs_text.specs.declared.problem.Kind.TheVariants.{Min};
ghost use Rattle.dimacs_text.specs.declared.problem.TheConstants.{SUPPLY_LIMIT};
ghost use Rattle.network.specs.Edited.{with_arc, with_last, with_node_supply};
ghost use Rattle.network.specs.Instance.{ArcFits, kind_of};
ghost use Rattle.residual_graph.specs.Graph.{IsGraph};
ghost use Rattle.residual_graph.specs.Residual.{IsPseudoflow, IsResidual, row_at, end_at, start_at};
ghost use Rattle.residual_graph.specs.Walk.{IsNextEnd, StandsAt, ends_before};

use crate::residual::{ResidualArc, Way};
use dimacs_text::ArcRow;
use network::Network;
use std::marker::Model;

/// A network, as searches read it.
#[derive(Drop)]
pub struct Graph {
    net: Network,
}

impl Model for Graph {
    ghost use Rattle.network.specs.Instance.{IsLawful};
    ghost use Rattle.residual_graph.specs.Graph.{GraphView, graph_of};

    ghost Value = { GraphView };

    ghost view = { λ g. graph_of g.net };

    ghost invariant = { λ g. IsLawful g.net };
}

impl Graph {
    /// The graph of a network.
    pub fn new(net: Network) -> Graph
        ensures net { result.net ≡ net }
        ensures graph { IsGraph result }
    {
        Graph { net }
    }

    /// The network.
    #[inline(always)]
    pub fn network(&self) -> &Network
        ensures { result.now ≡ self.now.net }
    {
        &self.net
    }

    /// The rows: one entry an arc of the reduced instance, the return arc, where there is one, then the arcs of the network.
    #[inline(always)]
    pub fn rows(&self) -> &[ArcRow]
        ensures { result.now ≡ self.now.rows }
    {
        self.net.rows()
    }

    /// The row of the first arc of the network: how many rows stand before it.
    pub fn return_arcs(&self) -> usize
        ensures { result + length self.now.net.arcs ≡ length self.now.rows }
    {
        self.net.return_arcs()
    }

    /// How many ends the return arc has.
    #[inline(always)]
    fn return_ends(&self) -> u32
        ensures { result ≡ ends_before self.now }
    {
        2 * self.net.return_arcs() as u32
    }

    /// The end at which the walk over the ends at a node begins: it goes from the greatest down. End 2k is the tail of the arc
    /// in row k, and end 2k + 1 its head. The ends of the return arc come last, whichever the node.
    pub fn first_end(&self, node: u32) -> Option<u32>
        ensures { IsNextEnd self.now node (2 * length self.now.rows) result }
    {
        let before = self.return_ends();
        match self.net.first_end(node) {
            Some(end) => Some(end + before),
            None => before.checked_sub(1),
        }
    }

    /// The end to which the walk goes on from this one.
    pub fn next_end(&self, end: u32) -> Option<u32>
        requires { end < 2 * length self.now.rows }
        ensures next { (v : ℕ) → StandsAt self.now v end → IsNextEnd self.now v end result }
        ensures below { IfSome result (λ next. next < end) }
    {
        let before = self.return_ends();
        if end < before {
            return end.checked_sub(1);
        }
        match self.net.next_end(end - before) {
            Some(next) => Some(next + before),
            None => before.checked_sub(1),
        }
    }

    /// Changes the bounds and the cost of the arc of the network with this number, counted from 1.
    pub fn set_row(&mut self, k: u32, row: ArcRow)
        requires arc { (1 ≤ k) × (k ≤ length self.old.net.arcs) }
        requires tail { row.tail ≡ (slice_index_or self.old.net.arcs (k - 1) row).tail }
        requires head { row.head ≡ (slice_index_or self.old.net.arcs (k - 1) row).head }
        requires limits { IsLawfulRow self.old.net.nodes row }
        requires fits { ArcFits self.old.net.demand row }
        ensures net { self.new.net ≡ with_arc self.old.net k row }
        ensures one_a_row { length self.new.rows ≡ length self.old.rows }
        ensures graph { IsGraph self.new }
    {
        self.net.set_row(k, row);
    }

    /// Changes what a node of a least-cost problem has to send out.
    pub fn set_supply(&mut self, id: u32, value: i64)
        requires kind { kind_of self.old.net.demand ≡ Min }
        requires node { IsNode self.old.net.nodes id }
        requires limit { IsWithin SUPPLY_LIMIT value }
        ensures net { self.new.net ≡ with_node_supply self.old.net id value }
        ensures rows { self.new.rows ≡ self.old.rows }
        ensures graph { IsGraph self.new }
    {
        self.net.set_supply(id, value);
    }

    /// Adds an arc at the end, for which there is room.
    pub fn push_arc(&mut self, row: ArcRow)
        requires room { length self.old.net.arcs < self.old.net.room }
        requires limits { IsLawfulRow self.old.net.nodes row }
        requires fits { ArcFits self.old.net.demand row }
        ensures net { self.new.net ≡ with_last self.old.net row }
        ensures rows { self.new.rows ≡ self.old.rows ++ row ∷ [] }
        ensures graph { IsGraph self.new }
    {
        self.net.push_arc(row);
    }

    /// Takes the last arc off.
    pub fn pop_arc(&mut self) -> ArcRow
        requires { 0 < length self.old.net.arcs }
        ensures net { self.old.net ≡ with_last self.new.net result }
        ensures rows { self.old.rows ≡ self.new.rows ++ result ∷ [] }
        ensures graph { IsGraph self.new }
    {
        self.net.pop_arc()
    }

    /// The row of an arc.
    pub fn row(&self, k: usize) -> ArcRow
        requires { k < length self.now.rows }
        ensures { result ≡ row_at self.now.rows k }
    {
        self.rows()[k]
    }

    /// Whether this residual arc is there under the flow.
    pub fn has_room(&self, flow: &[i64], arc: ResidualArc) -> bool
        requires flow { (nodes : ℕ) × IsPseudoflow nodes self.now.rows flow.now }
        requires arc_in { arc.arc < length self.now.rows }
        ensures { IsTrue result ↔ IsResidual self.now.rows flow.now arc.arc arc.way }
    {
        let k = arc.arc as usize;
        arc.way.room(&self.rows()[k], flow[k]) > 0
    }

    /// The node from which the residual arc in this way along the arc in row `k` leads.
    pub fn start(&self, k: usize, way: Way) -> usize
        requires { k < length self.now.rows }
        ensures { result ≡ start_at self.now.rows k way }
    {
        way.start(&self.rows()[k]) as usize
    }

    /// The node to which the residual arc in this way along the arc in row `k` leads.
    pub fn end(&self, k: usize, way: Way) -> usize
        requires { k < length self.now.rows }
        ensures { result ≡ end_at self.now.rows k way }
    {
        way.end(&self.rows()[k]) as usize
    }
}
