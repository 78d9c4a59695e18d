//! What is kept of a walk: from an arc that a push filled to the root the way is as good as before, and a walk that comes upon
//! it goes on along it.

ghost use Rattle.std.specs.Prelude.{◌≡◌};

use crate::search::Search;
use containers::{Left, State};
use relaxation::Proposal;

impl Search {
    /// Goes back from a node to before the first arc of the walk that is filled, and keeps what lies beyond the last one that is.
    /// Gives the node where the walk stands then.
    pub fn go_back<const AHEAD: bool>(&mut self, proposal: &mut Proposal, u: usize) -> usize
        requires { proposal.old ≡ self.old }
        ensures kept { self.new ≡ self.old }
        ensures proposal { proposal.new ≡ proposal.old }
    {
        let least = i64::from(proposal.least);
        self.mark(u, State::Kept);
        self.keep_open(least);
        let u = self.leave_filled::<AHEAD>(proposal, u, least);
        self.mark(u, State::Walked);
        u
    }

    /// Keeps the last arcs of the walk along which so much fits.
    fn keep_open(&mut self, least: i64)
        ensures { self.new ≡ self.old }
    {
        for _ in 0..self.entries() {
            if !self.walk.is_last_open(least) {
                return;
            }
            let Some(from) = self.walk.keep() else {
                return;
            };
            self.mark(from, State::Kept);
        }
    }

    /// Takes arcs off the walk, which stands at a node, until so much fits along all that are left; gives the node where it
    /// stands then.
    fn leave_filled<const AHEAD: bool>(
        &mut self,
        proposal: &mut Proposal,
        u: usize,
        least: i64,
    ) -> usize
        requires { proposal.old ≡ self.old }
        ensures kept { self.new ≡ self.old }
        ensures proposal { proposal.new ≡ proposal.old }
    {
        let mut u = u;
        for _ in 0..self.entries() {
            if self.walk.is_open(least) {
                break;
            }
            let Some(left) = self.walk.take() else {
                break;
            };
            u = left.from;
            self.leave::<AHEAD>(proposal, left);
        }
        u
    }

    /// Goes on along what is kept to before the first arc of it that is filled, and keeps what lies beyond the last one that is.
    /// Gives the node where the walk stands then.
    pub fn go_up<const AHEAD: bool>(&mut self, proposal: &mut Proposal) -> usize
        requires { proposal.old ≡ self.old }
        ensures kept { self.new ≡ self.old }
        ensures proposal { proposal.new ≡ proposal.old }
    {
        let least = i64::from(proposal.least);
        self.go_on_open(least);
        let u = self.walk.kept_from();
        self.drop_filled::<AHEAD>(proposal, least);
        self.mark(u, State::Walked);
        u
    }

    /// Goes on along the next arcs that are kept along which so much fits.
    fn go_on_open(&mut self, least: i64)
        ensures { self.new ≡ self.old }
    {
        for _ in 0..self.entries() {
            if !self.walk.is_next_open(least) {
                return;
            }
            let Some(from) = self.walk.go_on() else {
                return;
            };
            self.mark(from, State::Walked);
        }
    }

    /// Drops arcs that are kept until so much fits along all that are left.
    fn drop_filled<const AHEAD: bool>(&mut self, proposal: &mut Proposal, least: i64)
        requires { proposal.old ≡ self.old }
        ensures kept { self.new ≡ self.old }
        ensures proposal { proposal.new ≡ proposal.old }
    {
        for _ in 0..self.entries() {
            if self.walk.is_kept_open(least) {
                return;
            }
            let Some(left) = self.walk.take_kept() else {
                return;
            };
            self.leave::<AHEAD>(proposal, left);
        }
    }

    /// Drops what is kept before a node.
    pub fn drop_before<const AHEAD: bool>(&mut self, proposal: &mut Proposal, v: usize)
        requires { proposal.old ≡ self.old }
        ensures kept { self.new ≡ self.old }
        ensures proposal { proposal.new ≡ proposal.old }
    {
        for _ in 0..self.entries() {
            if self.walk.kept_from() == v {
                return;
            }
            let Some(left) = self.walk.take_kept() else {
                return;
            };
            self.leave::<AHEAD>(proposal, left);
        }
    }

    /// Drops all that is kept.
    pub fn drop_kept<const AHEAD: bool>(&mut self, proposal: &mut Proposal)
        requires { proposal.old ≡ self.old }
        ensures kept { self.new ≡ self.old }
        ensures proposal { proposal.new ≡ proposal.old }
    {
        for _ in 0..self.entries() {
            let Some(left) = self.walk.take_kept() else {
                break;
            };
            self.leave::<AHEAD>(proposal, left);
        }
        let root = self.walk.root();
        if root < self.entries() && self.frontier.state(root) == State::Kept {
            self.frontier.set_state(root, State::Settled);
        }
    }

    /// Leaves the node from which an arc went on that is taken off, and moves along the arc what was pushed.
    #[inline(always)]
    fn leave<const AHEAD: bool>(&mut self, proposal: &mut Proposal, left: Left)
        requires { proposal.old ≡ self.old }
        ensures kept { self.new ≡ self.old }
        ensures proposal { proposal.new ≡ proposal.old }
    {
        self.mark(left.from, State::Settled);
        if left.amount > 0 {
            proposal.draw::<AHEAD>(left.place, left.amount);
        }
    }

    /// Writes down how far a walk has come with a node, if there is one.
    #[inline(always)]
    fn mark(&mut self, v: usize, state: State)
        ensures { self.new ≡ self.old }
    {
        if v < self.entries() {
            self.frontier.set_state(v, state);
        }
    }
}
