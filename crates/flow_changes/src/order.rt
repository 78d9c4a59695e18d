//! The changes of a flow, laid out so that none go round in circles, and a rank of each node that they touch.

ghost use Rattle.std.specs.Prelude.{◌≡◌, IfOk, length};

use proposals::FlowChange;
use residual_graph::Graph;
use std::alloc::{AllocError, Global};
use std::marker::Model;

/// The end of a list of changes.
const NO_CHANGE: u32 = u32::MAX;

/// How many steps may be taken for each node and each change, hops of circles counted in.
const STEPS: u64 = 400;

/// How far a walk back along changes is with a node.
#[derive(Clone, Copy, PartialEq, Eq)]
enum Visit {
    /// It has not come there, or has gone back from there.
    Open,
    OnWalk,
    /// Nothing more comes to the node, which has its rank.
    Ranked,
}

/// Walks back along the changes of a flow, depth first, in which a node gets its rank when nothing more comes to it: so a
/// change comes from a node of lower rank. The tables have one entry a node, and are seen as how many these are.
#[derive(Drop)]
pub struct Order {
    states: Vec<Visit>,
    /// The rank of each node that has one; of any other the place of the first change that may still bring something to
    /// it, which the others follow by `next`.
    ranks: Vec<u32>,
    /// The nodes of the walk: the first change of each brings something from the next one.
    walk: Vec<u32>,
    /// How many nodes have a rank.
    ranked: u32,
    /// How many steps may still be taken.
    fuel: u64,
    /// Whether some of the changes that were laid out went round in circles, which were taken off.
    pub has_circles: bool,
}

impl Model for Order {
    ghost use Rattle.std.specs.Prelude.{ℕ, length};

    ghost Value = { ℕ };

    ghost view = { λ o. length o.ranks.items };
}

/// Where a change comes from and where it leads; nothing where its arc is not there or carries what is wanted.
fn ends_of(graph: &Graph, flow: &[i64], change: &FlowChange) -> Option<(u32, u32)> {
    let row = graph.rows().get(change.arc as usize)?;
    let now = *flow.get(change.arc as usize)?;
    if change.flow > now {
        Some((row.tail, row.head))
    } else if change.flow < now {
        Some((row.head, row.tail))
    } else {
        None
    }
}

/// How far the change at a place is from the flow that stands: 0 where there is none.
fn distance_at(flow: &[i64], changes: &[FlowChange], place: u32) -> i64 {
    let Some(change) = changes.get(place as usize) else {
        return 0;
    };
    let Some(now) = flow.get(change.arc as usize) else {
        return 0;
    };
    if change.flow > *now {
        change.flow.saturating_sub(*now)
    } else {
        now.saturating_sub(change.flow)
    }
}

/// Takes `amount` off what a change wants.
fn lessen(flow: &[i64], changes: &mut [FlowChange], place: u32, amount: i64) {
    let Some(change) = changes.get_mut(place as usize) else {
        return;
    };
    let Some(now) = flow.get(change.arc as usize) else {
        return;
    };
    change.flow = if change.flow > *now {
        change.flow.saturating_sub(amount)
    } else {
        change.flow.saturating_add(amount)
    };
}

impl Order {
    /// Tables for so many entries.
    ///
    /// # Errors
    /// Memory for a table was refused.
    pub fn new(alloc: Global, entries: usize) -> Result<Order, AllocError>
        ensures { IfOk result (λ o. o ≡ entries) }
    {
        let states = vec![in alloc; Visit::Open; entries]?;
        let ranks = vec![in alloc; NO_CHANGE; entries]?;
        let walk = Vec::with_capacity(alloc, entries)?;
        Ok(Order {
            states,
            ranks,
            walk,
            ranked: 0,
            fuel: 0,
            has_circles: false,
        })
    }

    /// The rank of each node. Where the changes were laid out, each leads to a node of higher rank.
    pub(crate) fn ranks(&self) -> &[u32]
        ensures { length result.now ≡ self.now }
    {
        &self.ranks
    }

    /// Lays the changes out: brings what is wanted within the bounds, takes off what goes round in circles, and ranks the
    /// nodes. Where that takes too many steps it is given up.
    pub(crate) fn lay_out(
        &mut self,
        graph: &Graph,
        flow: &[i64],
        changes: &mut [FlowChange],
    ) -> bool
        ensures { self.new ≡ self.old }
    {
        self.begin(graph, flow, changes);
        self.list(graph, flow, changes);
        for j in 0..changes.len() {
            if let Some((_, node)) = ends_of(graph, flow, &changes[j]) {
                if !self.rank_back(graph, flow, changes, node) {
                    return false;
                }
            }
        }
        true
    }

    /// Brings what is wanted within the bounds, forgets what is known of the ends of the changes, and allows as many steps as
    /// they may take.
    fn begin(&mut self, graph: &Graph, flow: &[i64], changes: &mut [FlowChange])
        ensures { self.new ≡ self.old }
    {
        let places = (self.ranks.len() as u64).saturating_add(changes.len() as u64);
        self.fuel = places.saturating_mul(STEPS);
        self.ranked = 0;
        self.has_circles = false;
        for change in changes.iter_mut() {
            if let Some(row) = graph.rows().get(change.arc as usize) {
                change.flow = change.flow.max(row.low).min(row.cap);
            }
            if let Some((from, to)) = ends_of(graph, flow, change) {
                self.forget(from);
                self.forget(to);
            }
        }
    }

    /// Lists each change at the node to which it leads.
    fn list(&mut self, graph: &Graph, flow: &[i64], changes: &mut [FlowChange])
        ensures { self.new ≡ self.old }
    {
        for j in 0..changes.len() {
            let Ok(place) = u32::try_from(j) else {
                return;
            };
            if let Some((_, node)) = ends_of(graph, flow, &changes[j]) {
                changes[j].next = self.first(node);
                self.set_number(node, place);
            }
        }
    }

    /// Ranks a node and all nodes before it, unless that was done. Says whether the steps that are left were enough.
    fn rank_back(
        &mut self,
        graph: &Graph,
        flow: &[i64],
        changes: &mut [FlowChange],
        node: u32,
    ) -> bool
        ensures { self.new ≡ self.old }
    {
        if self.state(node) == Visit::Ranked {
            return true;
        }
        self.walk.clear();
        self.enter(node);
        for _ in 0..self.fuel {
            self.step(graph, flow, changes);
            if self.walk.is_empty() {
                return true;
            }
            if self.fuel == 0 {
                return false;
            }
        }
        false
    }

    /// One step of the walk: back along a change to a node without a rank; or, where that is on the walk, the circle is
    /// taken off; or, where nothing comes to the last node any more, the walk leaves that node, which gets its rank.
    fn step(&mut self, graph: &Graph, flow: &[i64], changes: &mut [FlowChange])
        ensures { self.new ≡ self.old }
    {
        self.fuel = self.fuel.saturating_sub(1);
        let Some(last) = self.walk.last() else {
            return;
        };
        let node = *last;
        match self.next_from(graph, flow, changes, node) {
            Some(from) => match self.state(from) {
                Visit::OnWalk => self.take_off_circle(flow, changes, from),
                _ => self.enter(from),
            },
            None => {
                self.set_number(node, self.ranked);
                self.ranked = self.ranked.saturating_add(1);
                self.set_state(node, Visit::Ranked);
                let _ = self.walk.pop();
            }
        }
    }

    /// Where the first change comes from that brings something to a node from one that has no rank. Those before it are taken
    /// off the node's list.
    fn next_from(
        &mut self,
        graph: &Graph,
        flow: &[i64],
        changes: &[FlowChange],
        node: u32,
    ) -> Option<u32>
        ensures { self.new ≡ self.old }
    {
        for _ in 0..changes.len() {
            let change = changes.get(self.first(node) as usize)?;
            if let Some((from, _)) = ends_of(graph, flow, change) {
                if self.state(from) != Visit::Ranked {
                    return Some(from);
                }
            }
            self.set_number(node, change.next);
        }
        None
    }

    /// Goes on to a node.
    fn enter(&mut self, node: u32)
        ensures { self.new ≡ self.old }
    {
        if self.walk.len() < self.walk.capacity() {
            self.walk.push_reserved(node);
            self.set_state(node, Visit::OnWalk);
        }
    }

    /// Takes what goes round the circle that the walk's nodes from this one on form off the changes, and goes back to the
    /// first of them whose change is done with that.
    fn take_off_circle(&mut self, flow: &[i64], changes: &mut [FlowChange], node: u32)
        ensures { self.new ≡ self.old }
    {
        self.has_circles = true;
        let begin = self.place_of(node);
        let (narrowest, amount) = self.narrowest_from(flow, changes, begin);
        for j in begin..self.walk.len() {
            lessen(flow, changes, self.change_at(j), amount);
            self.fuel = self.fuel.saturating_sub(1);
        }
        self.go_back(narrowest.saturating_add(1));
    }

    /// The place of a node on the walk, which is looked for from its end: no further than the circle is long.
    fn place_of(&self, node: u32) -> usize {
        let last = self.walk.len();
        for behind in 0..last {
            let place = last - 1 - behind;
            if self.walk[place] == node {
                return place;
            }
        }
        last
    }

    /// The place on the walk, from one on, of the change that is the nearest to the flow that stands, and how far that is.
    fn narrowest_from(&self, flow: &[i64], changes: &[FlowChange], begin: usize) -> (usize, i64) {
        let mut narrowest = begin;
        let mut least = i64::MAX;
        for j in begin..self.walk.len() {
            let distance = distance_at(flow, changes, self.change_at(j));
            if distance < least {
                narrowest = j;
                least = distance;
            }
        }
        (narrowest, least)
    }

    /// Goes back until the walk has `keep` nodes.
    fn go_back(&mut self, keep: usize)
        ensures { self.new ≡ self.old }
    {
        for _ in keep..self.walk.len() {
            if let Some(node) = self.walk.pop() {
                self.set_state(node, Visit::Open);
            }
        }
    }

    /// The change that brings something to the walk's node at a place.
    fn change_at(&self, j: usize) -> u32 {
        match self.walk.get(j) {
            Some(node) => self.first(*node),
            None => NO_CHANGE,
        }
    }

    /// How far the walk is with a node; with one that is not there it is done.
    fn state(&self, node: u32) -> Visit {
        match self.states.get(node as usize) {
            Some(state) => *state,
            None => Visit::Ranked,
        }
    }

    /// The place of the first change that may still bring something to a node without a rank.
    fn first(&self, node: u32) -> u32 {
        match self.ranks.get(node as usize) {
            Some(first) => *first,
            None => NO_CHANGE,
        }
    }

    /// Forgets what is known of a node.
    fn forget(&mut self, node: u32)
        ensures { self.new ≡ self.old }
    {
        self.set_state(node, Visit::Open);
        self.set_number(node, NO_CHANGE);
    }

    /// Notes the rank of a node, or else the first change that may still bring something to it.
    fn set_number(&mut self, node: u32, number: u32)
        ensures { self.new ≡ self.old }
    {
        if let Some(stands) = self.ranks.get_mut(node as usize) {
            *stands = number;
        }
    }

    /// Notes how far the walk is with a node.
    fn set_state(&mut self, node: u32, state: Visit)
        ensures { self.new ≡ self.old }
    {
        if let Some(stands) = self.states.get_mut(node as usize) {
            *stands = state;
        }
    }
}
