//! The tables in which proposals are made.

ghost use Rattle.std.specs.Prelude.{◌≡◌, ◌<◌, ◌^◌, ◌*◌, IfOk, length};

use crate::greatest::{make_greatest, solve_from};
use crate::parted::{close_cut, least_left, mark_sides};
use crate::search::Search;
use crate::solving::solve;
use crate::trial::Trial;
use crate::wanted::{FlowChange, Wanted};
use containers::{Noted, both};
use dimacs_text::ArcRow;
use pseudoflow::Pseudoflow;
use relaxation::{Proposal, Ring, Sets};
use residual_ends::{Arc, ResidualEnds};
use std::alloc::{AllocError, Global};
use std::marker::Model;
use two_sided::Between;

/// What a proposal is to reach.
#[derive(Clone, Copy, PartialEq, Eq)]
pub enum Aim {
    /// A flow of least cost.
    LeastCost,
    /// A greatest flow: the first arc is the return arc.
    GreatestFlow,
}

/// Where more than one arc in so many was noted, all are taken over anew: in order, which is quicker.
const FEWER: usize = 4;

/// More than one arc in so many are many: after an adoption these are not noted.
const MANY: usize = 16;

/// A solve for least cost, most of which is relaxation that settles no node, counts as searches that settle each node once for
/// so many nodes, at least: the more nodes there are, the more often each is gone over. With 20 times among 50,000 nodes the
/// slowest edit of a transport took half as long again.
const NODES_A_READING: u64 = 250;

/// How the arcs of a proposal stand to those of the flow.
#[derive(Clone, Copy, PartialEq, Eq)]
enum Standing {
    /// Nothing was proposed yet.
    Fresh,
    /// Nothing is known.
    Apart,
    /// They are the same but for noted ones, and for those where not all that was wanted was adopted.
    Adopted,
    /// They are the same but for noted ones.
    InStep,
}

/// A proposal, and what the methods write in that lead it on. It is seen as the number of entries that a table of nodes
/// has.
#[derive(Drop)]
pub struct Proposals {
    proposal: Proposal,
    ring: Ring,
    sets: Sets,
    search: Search,
    /// What leads to a greatest flow: its room is not touched for a flow of least cost.
    trees: Pseudoflow,
    between: Between,
    /// The arcs whose row or flow may be another than in the proposal.
    noted: Noted,
    standing: Standing,
    /// What the return arc is to carry, where the proposal has it closed: so it has while a greatest flow is looked for.
    returned: Option<i64>,
    /// Whether the potentials keep step too, but at the nodes that the proposal has noted.
    keeps_nodes: bool,
    /// How often the last searches from afar settled each node.
    settled: u64,
    /// What the last proposal from afar was to reach.
    aim: Aim,
}

impl Model for Proposals {
    ghost use Rattle.std.specs.Prelude.{ℕ, ◌≡◌, ◌<◌, ◌^◌};

    ghost Value = { ℕ };

    ghost view = { λ p. p.proposal };

    ghost invariant = { λ p. (p.ring ≡ p.proposal)
        × (p.sets.reach ≡ p.proposal)
        × (p.search ≡ p.proposal)
        × (p.proposal < 2 ^ 31) };
}

impl Proposals {
    /// Tables for so many entries of nodes, and for so many arcs.
    ///
    /// # Errors
    /// Memory for a table was refused.
    pub fn new(alloc: Global, entries: usize, arcs: usize) -> Result<Proposals, AllocError>
        requires entries { entries < 2 ^ 31 }
        requires arcs { arcs < 2 ^ 31 }
        ensures { IfOk result (λ p. p ≡ entries) }
    {
        let proposal = Proposal::new(alloc, entries, arcs);
        let relaxing = both(Ring::new(alloc, entries), Sets::new(alloc, entries, arcs));
        let searching = both(Search::new(alloc, entries), Pseudoflow::new(alloc, entries));
        let near = both(Between::new(alloc, entries), Noted::new(alloc, arcs));
        let ((proposal, (ring, sets)), ((search, trees), (between, noted))) = both(
            both(proposal, relaxing),
            both(searching, near),
        )?;
        Ok(Proposals {
            proposal,
            ring,
            sets,
            search,
            trees,
            between,
            noted,
            standing: Standing::Fresh,
            returned: None,
            keeps_nodes: false,
            settled: 0,
            aim: Aim::LeastCost,
        })
    }

    /// The number of entries of a table of nodes.
    pub fn entries(&self) -> usize
        ensures { result ≡ self.now }
    {
        self.proposal.entries()
    }

    /// Whether nothing was proposed yet.
    pub fn is_fresh(&self) -> bool {
        self.standing == Standing::Fresh
    }

    /// Leads a flow, what it leaves at each node and potentials on towards the aim. It can't fail for want of memory: an arc
    /// for which there is no room is left out.
    #[inline(never)] // a name of its own in the program: `bench/count` counts its calls
    pub fn propose(
        &mut self,
        rows: &[ArcRow],
        flow: &[i64],
        excess: &[i64],
        potentials: &[i64],
        aim: Aim,
    )
        requires flow { length flow.now ≡ length rows.now }
        requires excess { length excess.now ≡ self.old }
        requires potentials { length potentials.now ≡ self.old }
        ensures { self.new ≡ self.old }
    {
        self.standing = Standing::Apart;
        self.aim = aim;
        self.proposal.load_nodes(excess, potentials);
        load_arcs::<false>(&mut self.proposal.ends, rows, flow);
        self.returned = None;
        self.search.may_ascend = true;
        self.search.ascended = false;
        self.solve(rows, flow, excess, aim);
        self.search.may_ascend = self.search.ascended;
    }

    /// Leads a flow on to one of least cost as `propose` does, or, where it comes out early that no flow is legal, the same flow
    /// to a greatest one, as if no arc cost anything: that takes a tenth of the time, and tells the cut. Says whether it is that.
    pub fn propose_or_part(
        &mut self,
        rows: &[ArcRow],
        flow: &[i64],
        excess: &[i64],
        potentials: &[i64],
    ) -> bool
        requires flow { length flow.now ≡ length rows.now }
        requires excess { length excess.now ≡ self.old }
        requires potentials { length potentials.now ≡ self.old }
        ensures { self.new ≡ self.old }
    {
        self.search.looks_for_surplus = true;
        self.propose(rows, flow, excess, potentials, Aim::LeastCost);
        self.search.looks_for_surplus = false;
        if !self.search.has_surplus {
            return false;
        }
        self.search.has_surplus = false;
        self.proposal.load_nodes(excess, potentials);
        load_arcs::<true>(&mut self.proposal.ends, rows, flow);
        make_greatest(&mut self.proposal, &mut self.search);
        true
    }

    /// Leads the proposal on towards the aim, and looks at all nodes for that.
    fn solve(&mut self, rows: &[ArcRow], flow: &[i64], excess: &[i64], aim: Aim)
        requires flow { length flow.now ≡ length rows.now }
        requires excess { length excess.now ≡ self.old }
        ensures { self.new ≡ self.old }
    {
        let search = &mut self.search;
        search.settled_nodes = 0;
        search.looks = 0;
        search.trial = Trial::NONE;
        match aim {
            Aim::LeastCost => solve(
                &mut self.proposal,
                &mut self.ring,
                &mut self.sets,
                search,
                rows,
                excess,
            ),
            Aim::GreatestFlow => self.solve_greatest(rows, flow),
        }
        let entries = self.entries() as u64;
        self.settled = self.search.settled_nodes / entries.max(1);
    }

    /// Leads the proposal on to a greatest flow, while the return arc, which is the first one, is closed: what goes back over
    /// it is what then stays away from the source.
    fn solve_greatest(&mut self, rows: &[ArcRow], flow: &[i64])
        requires flow { length flow.now ≡ length rows.now }
        ensures { self.new ≡ self.old }
    {
        let Some(row) = rows.first() else {
            return;
        };
        let (source, sink) = (row.head as usize, row.tail as usize);
        if source >= self.proposal.entries() || sink >= self.proposal.entries() {
            return;
        }
        let stands = flow_of(&self.proposal, 0, row, flow[0]);
        let closed = Arc {
            low: stands,
            cap: stands,
            ..arc_of(row, stands)
        };
        let _closed = self.proposal.ends.renew(0, &closed);
        let more = row.cap.saturating_sub(stands);
        solve_from(
            &mut self.proposal,
            &mut self.search,
            &mut self.trees,
            source,
            sink,
            more,
        );
        let rest = self.proposal.rest(source);
        self.proposal.set_rest(source, 0);
        self.proposal.set_rest(sink, 0);
        self.returned = Some(row.cap.saturating_sub(rest));
        self.keeps_nodes = false;
    }

    /// Leads a flow on to one of least cost, where it is likely that few nodes are out of balance: by searches from
    /// both sides, and where these take long as from afar, in a network that is parted where it is likely that much can't be
    /// served. In searches from both sides the return arc is an arc as others are, so that a greatest flow is one of
    /// least cost; it has room there for a part of what a group may ask of it. Potentials are those of the last call but at
    /// the nodes that were noted since, and no other node than these is out of balance; where `forget_nodes` was
    /// called since, all nodes are looked at.
    #[inline(never)] // a name of its own in the program: `bench/count` counts its calls
    pub fn propose_near(
        &mut self,
        rows: &[ArcRow],
        flow: &[i64],
        excess: &[i64],
        potentials: &[i64],
        unbalanced: &[u32],
        aim: Aim,
    )
        requires flow { length flow.now ≡ length rows.now }
        requires excess { length excess.now ≡ self.old }
        requires potentials { length potentials.now ≡ self.old }
        ensures { self.new ≡ self.old }
    {
        // How many of these were out of balance when the last proposal ended.
        let mut before: usize = 0;
        for v in unbalanced {
            let v = *v as usize;
            if v < self.entries() && self.proposal.is_to_serve(v) {
                before = before.saturating_add(1);
            }
        }
        self.take_over(rows, flow, excess, potentials, unbalanced);
        let is_done = self.push_near(aim);
        let lacks_room = aim == Aim::GreatestFlow && self.lacks_room(rows, flow);
        if !is_done || lacks_room {
            self.standing = Standing::Apart;
            if aim == Aim::LeastCost {
                let least = least_left(&self.proposal, before);
                if least > 0 {
                    self.part(rows, flow, excess, potentials, least);
                }
            }
            self.solve(rows, flow, excess, aim);
        }
    }

    /// Begins anew with a flow, what it leaves at each node and potentials, and parts the network where a greatest flow, as if no
    /// arc cost anything, leaves something at so many nodes: what can't be served does not hold up the others then.
    fn part(
        &mut self,
        rows: &[ArcRow],
        flow: &[i64],
        excess: &[i64],
        potentials: &[i64],
        least_left: usize,
    )
        requires flow { length flow.now ≡ length rows.now }
        requires excess { length excess.now ≡ self.old }
        requires potentials { length potentials.now ≡ self.old }
        ensures { self.new ≡ self.old }
    {
        let proposal = &mut self.proposal;
        proposal.load_nodes(excess, potentials);
        load_arcs::<true>(&mut proposal.ends, rows, flow);
        mark_sides(proposal, &mut self.search, least_left);
        proposal.load_nodes(excess, potentials);
        load_arcs::<false>(&mut proposal.ends, rows, flow);
        close_cut(proposal, rows, flow);
    }

    /// Whether the return arc, which is the first one, lacks room in the proposal that it has.
    fn lacks_room(&self, rows: &[ArcRow], flow: &[i64]) -> bool
        requires flow { length flow.now ≡ length rows.now }
    {
        let Some(row) = rows.first() else {
            return false;
        };
        let Some(link) = self.proposal.ends().link(self.proposal.ends().tail_of(0)) else {
            return false;
        };
        let stands = flow_of(&self.proposal, 0, row, flow[0]);
        link.room::<true>() == 0 && stands < row.cap
            || link.room::<false>() == 0 && stands > row.low
    }

    /// Pushes by searches from both sides, where what these know is of the same nodes; says whether they came to an end.
    fn push_near(&mut self, aim: Aim) -> bool
        ensures { self.new ≡ self.old }
    {
        if self.between.entries() != self.proposal.entries() {
            return false;
        }
        let settled = match aim {
            Aim::LeastCost => self.settled.max(self.entries() as u64 / NODES_A_READING),
            Aim::GreatestFlow => self.settled,
        };
        self.between
            .push_between(&mut self.proposal, &mut self.noted, settled)
    }

    /// Notes that these arcs may have got another row or another flow. If a proposal was adopted and they are many,
    /// none is noted: mostly the proposal changed them, so it has them already.
    pub fn note_all(&mut self, places: &[u32])
        ensures { self.new ≡ self.old }
    {
        if self.standing == Standing::Adopted
            && places.len() > self.proposal.ends().entered() / MANY
        {
            return;
        }
        self.noted.open();
        for k in places {
            self.noted.note(*k);
        }
    }

    /// The ends of arcs at all nodes, with the room that the proposed flow leaves.
    #[inline(always)]
    pub fn ends(&self) -> &ResidualEnds
        ensures { result.now ≡ self.now }
    {
        self.proposal.ends()
    }

    /// Brings the ends in step with a flow that was led to what is wanted, as the tree of labels reads them then: the flow can
    /// be another than the proposed one only at these arcs, of which some went round in circles, and at the return arc.
    pub fn follow(&mut self, rows: &[ArcRow], flow: &[i64], changes: &[FlowChange])
        requires { length flow.now ≡ length rows.now }
        ensures { self.new ≡ self.old }
    {
        if self.standing == Standing::Fresh {
            // What is wanted is not of this proposal: all arcs are taken over.
            load_arcs::<false>(&mut self.proposal.ends, rows, flow);
            return;
        }
        if self.returned.is_some() && !rows.is_empty() {
            let _opened = self.proposal.ends.renew(0, &arc_of(&rows[0], flow[0]));
        }
        self.returned = None;
        for change in changes {
            let k = change.arc as usize;
            if k >= rows.len() || flow_of(&self.proposal, k, &rows[k], flow[k]) == flow[k] {
                continue;
            }
            if !self.proposal.ends.renew(k, &arc_of(&rows[k], flow[k])) {
                // Another arc has its number now.
                self.noted.note(change.arc);
            }
        }
    }

    /// Notes that the flow became what was proposed, but for what goes round in circles.
    pub fn adopted(&mut self)
        ensures { self.new ≡ self.old }
    {
        if self.standing == Standing::Apart {
            self.standing = Standing::Adopted;
        }
    }

    /// Notes that all arcs may have got another flow.
    pub fn forget_arcs(&mut self)
        ensures { self.new ≡ self.old }
    {
        self.standing = Standing::Apart;
    }

    /// Brings the proposal in step with the flow where it was adopted. The flow can be another than the proposed one
    /// only at an arc of the changes: what went round in circles was left out.
    pub fn catch_up(&mut self, rows: &[ArcRow], flow: &[i64], changes: &[FlowChange])
        requires { length flow.now ≡ length rows.now }
        ensures { self.new ≡ self.old }
    {
        if self.standing != Standing::Adopted {
            return;
        }
        self.proposal.moved.open();
        self.standing = Standing::InStep;
        self.noted.open();
        self.follow(rows, flow, changes);
        self.load_between();
    }

    /// Gets ready for searches from both sides.
    fn load_between(&mut self)
        ensures { self.new ≡ self.old }
    {
        let entries = self.entries();
        self.between.load(entries);
        self.proposal.ends.put_in_order(self.aim == Aim::LeastCost);
    }

    /// Notes that a node may have got another potential.
    pub fn note_node(&mut self, v: u32)
        ensures { self.new ≡ self.old }
    {
        self.proposal.moved.note(v);
    }

    /// Notes that all nodes may have got other potentials.
    pub fn forget_nodes(&mut self)
        ensures { self.new ≡ self.old }
    {
        self.keeps_nodes = false;
    }

    /// The potentials of the proposal.
    pub fn potentials(&self) -> &[i64]
        ensures { length result.now ≡ self.now }
    {
        self.proposal.potentials()
    }

    /// The greatest of them, or 0 if that is greater. Where few nodes were moved, as is known near an edit, these alone are
    /// looked at, since all were at most 0 before.
    pub fn greatest(&self) -> i64 {
        let potentials = self.proposal.potentials();
        let mut greatest = 0;
        match self.proposal.moved() {
            Some(moved) if self.keeps_nodes => {
                for v in moved {
                    if let Some(potential) = potentials.get(*v as usize) {
                        greatest = greatest.max(*potential);
                    }
                }
            }
            _ => {
                for potential in potentials {
                    greatest = greatest.max(*potential);
                }
            }
        }
        greatest
    }

    /// Takes over a flow, what it leaves at each node and potentials, as a proposal near an edit begins: of the arcs and the
    /// nodes those alone that were noted, where the proposal keeps step with all others and they are few.
    pub fn take_over(
        &mut self,
        rows: &[ArcRow],
        flow: &[i64],
        excess: &[i64],
        potentials: &[i64],
        unbalanced: &[u32],
    )
        requires flow { length flow.now ≡ length rows.now }
        requires excess { length excess.now ≡ self.old }
        requires potentials { length potentials.now ≡ self.old }
        ensures { self.new ≡ self.old }
    {
        self.take_over_arcs(rows, flow);
        self.take_over_nodes(excess, potentials, unbalanced);
        self.keeps_nodes = true;
    }

    /// Takes over a flow, also for the tree of labels: of the arcs those alone that were noted, where the proposal keeps step
    /// with all others and they are few.
    pub fn take_over_arcs(&mut self, rows: &[ArcRow], flow: &[i64])
        requires { length flow.now ≡ length rows.now }
        ensures { self.new ≡ self.old }
    {
        let is_renewed = self.standing == Standing::InStep
            && self.noted.listed().len() <= rows.len() / FEWER
            && renew_all(&mut self.proposal.ends, &self.noted, rows, flow);
        if !is_renewed {
            self.returned = None;
            self.proposal.moved.open();
            load_arcs::<false>(&mut self.proposal.ends, rows, flow);
            self.load_between();
            self.noted.open();
            self.standing = Standing::InStep;
            self.keeps_nodes = false;
        }
        self.noted.clear();
    }

    /// Takes over what a flow leaves at each node and potentials, and lists the nodes out of balance, where what searches from
    /// both sides know is of the same nodes.
    pub fn take_over_nodes(&mut self, excess: &[i64], potentials: &[i64], unbalanced: &[u32])
        requires excess { length excess.now ≡ self.old }
        requires potentials { length potentials.now ≡ self.old }
        ensures { self.new ≡ self.old }
    {
        let is_loaded = self.between.entries() == self.proposal.entries();
        if !is_loaded || !self.keeps_nodes || self.proposal.moved().is_none() {
            self.proposal.load_nodes(excess, potentials);
        } else {
            let (sources, sinks) = self.between.listed_roots();
            self.proposal.load_rests(excess, sources);
            self.proposal.load_rests(excess, sinks);
            self.proposal.load_rests(excess, unbalanced);
            self.proposal.load_moved(potentials);
        }
        if is_loaded {
            self.between.list_roots(&self.proposal, unbalanced);
        }
    }

    /// Whether arcs were noted, or there are more or fewer than the proposal has.
    pub fn lacks_arcs(&self, rows: &[ArcRow]) -> bool {
        !self.noted.listed().is_empty() || self.proposal.ends().entered() != rows.len()
    }

    /// Writes down which arcs are to have another flow, less than all where there is no room for them.
    pub fn write(&self, rows: &[ArcRow], flow: &[i64], wanted: &mut Wanted) {
        wanted.changes.clear();
        let arcs = rows.len().min(flow.len());
        // In step, the proposal has another flow at noted arcs alone.
        if self.standing == Standing::InStep && self.proposal.ends().entered() == rows.len() {
            for k in self.noted.listed() {
                let k = *k as usize;
                if k < arcs {
                    wanted.list(k, flow[k], flow_of(&self.proposal, k, &rows[k], flow[k]));
                }
            }
            return;
        }
        let mut first = 0;
        if let Some(returned) = self.returned {
            if arcs > 0 {
                wanted.list(0, flow[0], returned.max(rows[0].low).min(rows[0].cap));
            }
            first = 1;
        }
        for k in first..arcs {
            wanted.list(k, flow[k], flow_of(&self.proposal, k, &rows[k], flow[k]));
        }
    }
}

/// An arc of such a row, which carries such a flow.
#[inline(always)]
pub(crate) fn arc_of(row: &ArcRow, flow: i64) -> Arc {
    Arc {
        tail: row.tail,
        head: row.head,
        low: row.low,
        cap: row.cap,
        cost: row.cost,
        flow,
    }
}

/// Takes over the rows and the flow of the arcs; where these are to be free, as if none cost anything.
#[inline(never)] // a name of its own in the program: `bench/count` counts its calls
fn load_arcs<const FREE: bool>(ends: &mut ResidualEnds, rows: &[ArcRow], flow: &[i64])
    requires { length flow.now ≡ length rows.now }
    ensures { ends.new ≡ ends.old }
{
    ends.begin(rows.len());
    for row in rows {
        ends.count_end(row.tail as usize);
        ends.count_end(row.head as usize);
    }
    ends.make_room();
    let arcs = ends.entered().min(rows.len());
    for j in 0..arcs {
        let k = arcs - 1 - j;
        let arc = arc_of(&rows[k], flow[k]);
        let cost = if FREE { 0 } else { arc.cost };
        ends.enter(k, &Arc { cost, ..arc });
    }
}

/// Takes over the rows and the flow of the arcs that are noted, that were added or that are gone; says whether it could. It gives
/// up where the links of as many nodes would move as there are arcs: to enter all arcs anew is quicker then, and leaves free
/// places where they were used up.
fn renew_all(ends: &mut ResidualEnds, noted: &Noted, rows: &[ArcRow], flow: &[i64]) -> bool
    requires { length flow.now ≡ length rows.now }
    ensures { ends.new ≡ ends.old }
{
    let before = ends.entered();
    for k in rows.len()..before {
        ends.take_out(k);
    }
    let mut left = rows.len();
    for k in before..rows.len() {
        let arc = arc_of(&rows[k], flow[k]);
        if !ends.add(k, &arc, &mut left) {
            return false;
        }
    }
    for k in noted.listed() {
        let k = *k as usize;
        if k >= before.min(rows.len()) {
            continue;
        }
        let arc = arc_of(&rows[k], flow[k]);
        if ends.renew(k, &arc) {
            continue;
        }
        // Another arc was in its place.
        ends.take_out(k);
        if !ends.add(k, &arc, &mut left) {
            return false;
        }
    }
    true
}

/// The flow that is wanted of an arc that has this flow.
fn flow_of(proposal: &Proposal, k: usize, row: &ArcRow, flow: i64) -> i64 {
    if row.low <= row.cap {
        let stands = proposal.ends().flow_of(k, &arc_of(row, flow));
        stands.clamp(row.low, row.cap)
    } else {
        row.low
    }
}
