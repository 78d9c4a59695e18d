//! The checkers of answers.
ghost use Rattle.std.specs.Prelude.{◌≡◌, ◌≢◌, ◌↔◌, ◌≤◌, ℤ, List, All, IfSome, IsTrue, length};
ghost use Rattle.network.specs.Flow.{AllWithinBounds, IsNode, IsPotential};
ghost use Rattle.network.specs.Instance.{reduced, IsInner, IsBalancedAt, IsBalanced, IsReturnCertified, IsLegal, IsCertified, IsBest, IsBestAnswer, IsCutAnswer, return_arc_of, at_node, worth};

use crate::bounds::{is_within_bounds, keeps_bounds};
use crate::cost::total_cost;
use crate::signs::{are_potentials, follows_sign, follows_signs};
use crate::views::return_arc;
use crate::{CutForm, Goal, Network};
use dimacs_text::ArcRow;

impl Network {
    /// Is what this node sends out fixed by the instance?
    fn is_inner(&self, id: u32) -> bool
        ensures { IsTrue result ↔ IsInner self.now.demand id }
    {
        match self.goal {
            Goal::GreatestFlow { source, sink } => id != source && id != sink,
            _ => true,
        }
    }

    /// Does this node send out its supply, where that is fixed?
    fn is_balanced_at(&self, flow: &[i64], id: u32) -> bool
        requires node { IsNode (reduced self.now) id }
        requires bounds { AllWithinBounds self.now.arcs flow.now }
        ensures { IsTrue result ↔ IsBalancedAt self.now flow.now id }
    {
        !self.is_inner(id) || self.net_at(flow, id) == self.supplies[id as usize - 1]
    }

    /// Does each inner node send out its supply?
    fn is_balanced(&self, flow: &[i64]) -> bool
        requires bounds { AllWithinBounds self.now.arcs flow.now }
        ensures { IsTrue result ↔ IsBalanced self.now flow.now }
    {
        for id in 1..=self.nodes {
            if !self.is_balanced_at(flow, id) {
                return false;
            }
        }
        true
    }

    /// The return arc of a maximum flow.
    pub fn return_arc(&self) -> Option<ArcRow>
        ensures arc { result ≡ return_arc_of self.now.demand }
        ensures ends { IfSome result
            (λ arc. IsNode (reduced self.now) arc.tail × IsNode (reduced self.now) arc.head) }
    {
        match self.goal {
            Goal::GreatestFlow { source, sink } => Some(return_arc(source, sink)),
            _ => None,
        }
    }

    /// Does the return arc, where there is one, keep its bounds and the sign rule?
    fn is_return_certified(&self, flow: &[i64], potentials: &[i64]) -> bool
        requires nodes { length potentials.now ≡ self.now.nodes }
        requires range { All IsPotential potentials.now }
        requires bounds { AllWithinBounds self.now.arcs flow.now }
        ensures { IsTrue result
            ↔ IsReturnCertified self.now.demand self.now.arcs flow.now (at_node potentials.now) }
    {
        let Some(arc) = self.return_arc() else {
            return true;
        };
        let value = self.net_at(flow, arc.head);
        keeps_bounds(&arc, value) && follows_sign(&arc, value, potentials)
    }

    /// The cost of a flow, or what the source sends out.
    fn worth(&self, flow: &[i64]) -> i128
        requires bounds { AllWithinBounds self.now.arcs flow.now }
        ensures { result ≡ worth self.now flow.now }
    {
        match self.goal {
            Goal::GreatestFlow { source, .. } => i128::from(self.net_at(flow, source)),
            _ => total_cost(self.numbered(), flow),
        }
    }

    /// Is the flow legal?
    fn is_legal(&self, flow: &[i64]) -> bool
        ensures exact { IsTrue result ↔ IsLegal self.now flow.now }
        ensures bounds { IsTrue result → AllWithinBounds self.now.arcs flow.now }
    {
        is_within_bounds(self.numbered(), flow) && self.is_balanced(flow)
    }

    /// Do the potentials certify a flow that keeps the bounds?
    fn is_certified(&self, flow: &[i64], potentials: &[i64]) -> bool
        requires nodes { length potentials.now ≡ self.now.nodes }
        requires bounds { AllWithinBounds self.now.arcs flow.now }
        ensures { IsTrue result ↔ IsCertified self.now flow.now (at_node potentials.now) }
    {
        if !are_potentials(potentials) {
            return false;
        }
        follows_signs(self.numbered(), flow, potentials)
            && self.is_return_certified(flow, potentials)
    }
}

/// Whether the slices have one flow an arc and one potential a node, in order, the flow is legal, `value` is its worth,
/// and the potentials certify it.
pub fn check_best(net: &Network, flow: &[i64], pot: &[i64], value: i128) -> bool
    ensures exact { IsTrue result ↔ IsBestAnswer net.now flow.now pot.now value }
    ensures best { IsTrue result → IsBest net.now flow.now }
{
    if pot.len() != net.nodes as usize {
        return false;
    }
    if !net.is_legal(flow) {
        return false;
    }
    net.is_certified(flow, pot) && net.worth(flow) == value
}

/// Whether `cut` has one mark a node and `short` is above 0 and the set's value by either form.
pub fn check_cut(net: &Network, cut: &[bool], short: i64) -> bool
    ensures exact { IsTrue result ↔ IsCutAnswer net.now cut.now short }
    ensures none { IsTrue result → (flow : List ℤ) → IsLegal net.now flow → ⊥ }
{
    if cut.len() != net.nodes as usize || short <= 0 {
        return false;
    }
    short == net.cut_value(CutForm::Surplus, cut) || short == net.cut_value(CutForm::Shortfall, cut)
}
