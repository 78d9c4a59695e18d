//! As many pushes along tight paths as there are after a search.

ghost use Rattle.std.specs.Prelude.{◌≡◌, ◌<◌, IfSome, length};

use crate::record::NodeRecord;
use crate::search::Search;
use containers::{NO_PLACE, Nodes, State};
use relaxation::{Proposal, seen};

impl Search {
    /// Lowers the potentials of the nodes that were settled, so that paths of this length or less to them are tight.
    pub fn tighten<const AHEAD: bool>(&self, proposal: &mut Proposal, length: i64)
        requires { proposal.old ≡ self.now }
        ensures { proposal.new ≡ proposal.old }
    {
        for v in self.frontier.settled().listed() {
            let v = *v as usize;
            let potential = seen::<AHEAD>(proposal.potential(v));
            let key = self.reaches[v].wrapping_sub(potential); // far within the range, and so is the shift
            let shift = length.wrapping_sub(key);
            if shift > 0 {
                let _lowered = proposal.lower::<AHEAD>(v, shift);
            }
        }
    }

    /// Pushes on from nodes in excess to those in deficit that were settled, along any tight arcs. Where each path is longer
    /// than the last one, there are few on the levels of one search.
    pub fn block_freely<const AHEAD: bool>(&mut self, proposal: &mut Proposal)
        requires { proposal.old ≡ self.old }
        ensures kept { self.new ≡ self.old }
        ensures proposal { proposal.new ≡ proposal.old }
    {
        self.frontier.forget_walks();
        self.free = true;
        self.serve_all::<AHEAD>(proposal, 0);
        self.free = false;
    }

    /// Pushes from nodes in excess to each node in deficit that was looked for and settled. To more of them, which the search
    /// came upon at its end, most walks are in vain: they took three times as long in Machol and Wien's assignment.
    pub fn serve_all<const AHEAD: bool>(&mut self, proposal: &mut Proposal, renewals: u8)
        requires { proposal.old ≡ self.old }
        ensures kept { self.new ≡ self.old }
        ensures proposal { proposal.new ≡ proposal.old }
    {
        begin_walks(&mut self.records, self.frontier.settled());
        let mut left = self.goals;
        for k in 0..self.entries() {
            let Some(t) = self.frontier.settled().at(k) else {
                return;
            };
            if proposal.is_goal::<AHEAD>(t) && self.frontier.state(t) == State::Settled {
                self.serve::<AHEAD>(proposal, t, renewals);
                left = left.saturating_sub(1);
            }
            if left == 0 {
                return;
            }
        }
    }

    /// Walks back from a node in deficit to nodes in excess and pushes along the walks, until nothing lacks or no walk is left.
    fn serve<const AHEAD: bool>(&mut self, proposal: &mut Proposal, t: usize, renewals: u8)
        requires proposal { proposal.old ≡ self.old }
        requires node { t < self.old }
        ensures kept { self.new ≡ self.old }
        ensures proposal { proposal.new ≡ proposal.old }
    {
        self.walk.clear();
        self.frontier.set_state(t, State::Walked);
        let mut u = t;
        for _ in 0..STEPS.saturating_mul(proposal.ends().count() as u64) {
            let next = if self.frontier.state(u) == State::Kept {
                self.push::<AHEAD>(proposal, t, u)
            } else if proposal.is_root::<AHEAD>(u) {
                self.drop_kept::<AHEAD>(proposal);
                self.walk.set_root(u as u32);
                self.push::<AHEAD>(proposal, t, u)
            } else if let Some(step) = self.step_back::<AHEAD>(proposal, u) {
                self.walk.add(u as u32, step.place, step.room);
                self.come_upon::<AHEAD>(proposal, step.other);
                Some(step.other)
            } else {
                self.turn_back::<AHEAD>(proposal, u, renewals)
            };
            let Some(next) = next else {
                break;
            };
            u = next;
        }
        self.drop_kept::<AHEAD>(proposal);
        for _ in 0..self.entries() {
            let Some(before) = self.leave_last::<AHEAD>(proposal, u) else {
                return;
            };
            u = before;
        }
    }

    /// Comes upon a node: the walk stands there, or goes on along what is kept from there on.
    #[inline(always)]
    fn come_upon<const AHEAD: bool>(&mut self, proposal: &mut Proposal, v: usize)
        requires proposal { proposal.old ≡ self.old }
        requires node { v < self.old }
        ensures kept { self.new ≡ self.old }
        ensures proposal { proposal.new ≡ proposal.old }
    {
        if self.frontier.state(v) == State::Kept {
            self.drop_before::<AHEAD>(proposal, v);
        } else {
            self.frontier.set_state(v, State::Walked);
        }
    }

    /// Steps back from a node from which the walk gets no further, and gives the node before it; where the walk began
    /// there, the node itself if it got a new level.
    fn turn_back<const AHEAD: bool>(
        &mut self,
        proposal: &mut Proposal,
        u: usize,
        renewals: u8,
    ) -> Option<usize>
        requires proposal { proposal.old ≡ self.old }
        requires node { u < self.old }
        ensures kept { self.new ≡ self.old }
        ensures proposal { proposal.new ≡ proposal.old }
        ensures node { IfSome result (λ v. v < self.old) }
    {
        let renewed = self.renew::<AHEAD>(proposal, u, renewals);
        let before = self.leave_last::<AHEAD>(proposal, u);
        if !renewed {
            self.frontier.set_state(u, State::Dead);
        }
        match before {
            Some(v) => {
                self.records[v].parent = NO_PLACE;
                Some(v)
            }
            None if renewed => Some(u),
            None => None,
        }
    }

    /// Pushes from the root along what is kept and the walk, which meet at `u`, to `t`. Gives the node from which the walk goes
    /// on: that before the first arc that was filled; none where nothing lacks any more.
    fn push<const AHEAD: bool>(
        &mut self,
        proposal: &mut Proposal,
        t: usize,
        u: usize,
    ) -> Option<usize>
        requires proposal { proposal.old ≡ self.old }
        requires t { t < self.old }
        requires u { u < self.old }
        ensures kept { self.new ≡ self.old }
        ensures proposal { proposal.new ≡ proposal.old }
        ensures node { IfSome result (λ v. v < self.old) }
    {
        let root = self.walk.root();
        if root >= self.entries() {
            return None;
        }
        self.pushes = self.pushes.saturating_add(1);
        let lack = -proposal.excess::<AHEAD>(t);
        let amount = self.walk.room(lack.min(proposal.excess::<AHEAD>(root)));
        proposal.carry::<AHEAD>(root, t, amount);
        self.walk.push(amount);
        if !proposal.is_goal::<AHEAD>(t) {
            self.frontier.set_state(t, State::Settled);
            return None;
        }
        let least = i64::from(proposal.least);
        let u = if !self.walk.is_open(least) {
            self.go_back::<AHEAD>(proposal, u)
        } else if !self.walk.is_kept_open(least) {
            self.go_up::<AHEAD>(proposal)
        } else {
            u
        };
        if u >= self.entries() {
            return None;
        }
        if !proposal.is_root::<AHEAD>(root) {
            self.drop_kept::<AHEAD>(proposal);
            self.frontier.set_state(u, State::Walked);
        }
        Some(u)
    }

    /// Takes the last arc off the walk, which stands at a node, and moves along it what was pushed. Gives the node that the walk
    /// had come from; none where it has no arc.
    #[inline(always)]
    fn leave_last<const AHEAD: bool>(&mut self, proposal: &mut Proposal, u: usize) -> Option<usize>
        requires proposal { proposal.old ≡ self.old }
        requires node { u < self.old }
        ensures kept { self.new ≡ self.old }
        ensures proposal { proposal.new ≡ proposal.old }
        ensures node { IfSome result (λ v. v < self.old) }
    {
        let left = self.walk.take()?;
        self.frontier.set_state(u, State::Settled);
        if left.amount > 0 {
            proposal.draw::<AHEAD>(left.place, left.amount);
        }
        if left.from < self.entries() {
            Some(left.from)
        } else {
            None
        }
    }
}

/// Lets walks begin anew at these nodes.
fn begin_walks(records: &mut [NodeRecord], settled: &Nodes)
    requires { settled.now ≡ length records.old }
    ensures { length records.new ≡ length records.old }
{
    for v in settled.listed() {
        let v = *v as usize;
        records[v].current = 0;
        records[v].renewed = 0;
    }
}

/// The most steps of the walks to one node, for each end of an arc. Where paths are long and each has its own end, walks from
/// the other side take few steps. 8 and 32 were as quick, and what is filled on the way mostly ends a walk sooner.
const STEPS: u64 = 16;
