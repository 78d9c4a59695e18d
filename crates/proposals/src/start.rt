//! Potentials to begin with, where the best flow is near to none.

ghost use Rattle.std.specs.Prelude.{◌≡◌, ◌<◌, ◌^◌};
ghost use Rattle.relaxation.specs.Limits.{IsWithin, potential_limit};

use crate::scaling::begin_stage;
use crate::search::Search;
use containers::Nodes;
use relaxation::Proposal;
use residual_ends::Link;

/// How often potentials are lowered along all arcs at most. With the nodes in order, networks without circles take one pass.
/// Journeys that pay, over 1,000 periods, gain by each of 100 passes.
const PASSES: usize = 100;

/// Each pass has to leave fewer arcs of a negative reduced cost than the one before, by one in so many at least: circles of
/// negative cost go on as they began. With 16 such journeys ended after three passes, and took 25 times as long.
const FEWER: usize = 64;

/// Lowered potentials are kept where they leave at most so many percent of the arcs of a negative reduced cost. Projects, gains,
/// cash, journeys and time tables of flights came to 0 to 20, two-way grids to 23 to 55. A torus with costs of both signs each
/// way came to 103, and took 30 times as long with them; NETGEN's networks with circles came to 98.
const MOST_PERCENT: usize = 75;

impl Search {
    /// Lowers potentials until no arc has a negative reduced cost, as where no circle of arcs costs less than nothing, or clearly
    /// fewer have, as where few circles do, and begins with these arcs alone full; otherwise with all of negative cost. A grid of
    /// negative costs without circles took a hundred times as long where all those were full, and a project with one return arc
    /// three hundred times or more.
    pub fn start_empty(&mut self, proposal: &mut Proposal)
        requires { proposal.old ≡ self.old }
        ensures kept { self.new ≡ self.old }
        ensures proposal { proposal.new ≡ proposal.old }
    {
        let has_potentials = proposal.potentials().iter().any(|p| *p != 0);
        if has_potentials || !empty_all(proposal) {
            return;
        }
        self.put_in_order(proposal);
        if !lower_in_turn(&self.order, proposal) {
            proposal.level();
        }
        begin_stage(proposal, 1);
    }

    /// Lists the nodes, each behind those from which arcs lead to it; those on circles of arcs and behind them come last.
    fn put_in_order(&mut self, proposal: &Proposal)
        requires { proposal.now ≡ self.old }
        ensures { self.new ≡ self.old }
    {
        self.order.clear();
        for v in 0..self.entries() {
            self.set_count(v, arcs_to(proposal, v));
        }
        for _ in 0..self.entries() {
            let Some(u) = self.order.take() else {
                break;
            };
            self.pass(proposal, u);
        }
        for v in 0..self.entries() {
            if self.records[v].current > 0 {
                self.set_count(v, 0);
            }
        }
    }

    /// Writes down how many arcs lead to a node from others that are not listed, and lists it where none does.
    fn set_count(&mut self, v: usize, count: u32)
        requires { v < self.old }
        ensures { self.new ≡ self.old }
    {
        self.records[v].current = count;
        if count == 0 {
            self.order.add(v);
        }
    }

    /// Counts the residual arcs from a node no more, and lists the nodes to which no other one leads.
    fn pass(&mut self, proposal: &Proposal, u: usize)
        requires proposal { proposal.now ≡ self.old }
        requires node { u < self.old }
        ensures { self.new ≡ self.old }
    {
        for link in proposal.ends().at(u).links {
            let v = link.other as usize;
            if link.room::<true>() > 0 && v != u {
                let count = self.records[v].current.saturating_sub(1);
                self.set_count(v, count);
            }
        }
    }
}

/// Takes the flow of each arc of negative cost back to its lower bound, but of arcs from a node to itself; says whether it
/// took any.
fn empty_all(proposal: &mut Proposal) -> bool
    ensures { proposal.new ≡ proposal.old }
{
    let mut some = false;
    for k in 0..proposal.ends().entered() {
        let Some(ends) = proposal.ends().ends_of(k) else {
            continue;
        };
        let flow = ends.tail.room::<false>();
        if ends.tail.cost < 0 && flow > 0 && ends.tail.other != ends.head.other {
            proposal.push::<false>(ends.place, flow);
            some = true;
        }
    }
    some
}

/// How many residual arcs lead to a node from others.
fn arcs_to(proposal: &Proposal, v: usize) -> u32
    requires { v < proposal.now }
{
    let mut count: u32 = 0;
    for link in proposal.ends().at(v).links {
        if link.room::<false>() > 0 && link.other as usize != v {
            count = count.saturating_add(1);
        }
    }
    count
}

/// Lowers potentials along the residual arcs, node by node in this order, as long as each pass leaves clearly fewer of a negative
/// reduced cost; says whether they are worth while.
fn lower_in_turn(order: &Nodes, proposal: &mut Proposal) -> bool
    requires { order.now ≡ proposal.old }
    ensures { proposal.new ≡ proposal.old }
{
    let first = count_negative(proposal);
    let mut left = first;
    for _ in 0..PASSES {
        for v in order.listed() {
            lower_beyond(proposal, *v as usize);
        }
        let before = left;
        left = count_negative(proposal);
        if left == 0 || left >= before.saturating_sub(before / FEWER) {
            break;
        }
    }
    left.saturating_mul(100) <= first.saturating_mul(MOST_PERCENT)
}

/// How many residual arcs, but for those from a node to itself, have a negative reduced cost.
fn count_negative(proposal: &Proposal) -> usize {
    let mut count: usize = 0;
    for v in 0..proposal.entries() {
        let potential = proposal.potential(v);
        for link in proposal.ends().at(v).links {
            if is_negative(proposal, potential, link, v) {
                count = count.saturating_add(1);
            }
        }
    }
    count
}

/// Whether a residual arc leads from a node of this potential to another one, at a negative reduced cost.
#[inline(always)]
fn is_negative(proposal: &Proposal, potential: i64, link: &Link, v: usize) -> bool
    requires other { link.now.other < proposal.now }
    requires potential { IsWithin potential_limit potential }
{
    link.room::<true>() > 0
        && proposal.reduced_cost::<true>(potential, link) < 0
        && link.other as usize != v
}

/// Lowers the potentials of the nodes to which residual arcs of a negative reduced cost lead from a node.
fn lower_beyond(proposal: &mut Proposal, v: usize)
    requires { v < proposal.old }
    ensures { proposal.new ≡ proposal.old }
{
    let potential = proposal.potential(v);
    let first = proposal.ends().at(v).first;
    for k in 0..proposal.ends().at(v).links.len() {
        let place = first.saturating_add(k as u32);
        let Some(link) = proposal.ends().link(place) else {
            return;
        };
        if is_negative(proposal, potential, &link, v) {
            let reduced_cost = proposal.reduced_cost::<true>(potential, &link);
            let _within = proposal.lower::<true>(link.other as usize, -reduced_cost);
        }
    }
}
