//! Pushes along one shortest path after the other, by a forest of shortest paths that is mended after each.

ghost use Rattle.std.specs.Prelude.{◌≡◌, ◌<◌, IfSome};

use crate::search::{Search, nearer_from, reach_over};
use containers::{FAR, NO_PLACE, State};
use relaxation::{Proposal, seen};
use residual_ends::Link;

/// The key of no node: what is lined up beside it waits.
const NO_KEY: i64 = i64::MIN;

impl Search {
    /// Pushes along shortest paths from nodes in excess, one after the other, until none leads to a node in deficit or searches
    /// looked at so many ends of arcs. The forest of shortest paths is kept. A push cuts off it the nodes behind the arcs that it
    /// filled. Each of them hangs on with all below it where another path to it is as short; only where none is, it and then what
    /// hung on it look for longer ones. Where a search would go over most of the network for one push or two, this looks at few
    /// nodes (successive shortest paths; adoption as in Goldberg, Hed, Kaplan, Tarjan and Werneck, "Maximum flows by incremental
    /// breadth-first search", ESA 2011, and longer paths as in Ramalingam and Reps, "An incremental algorithm for a generalization
    /// of the shortest-path problem", Journal of Algorithms 21, 1996).
    #[inline(never)] // a name of its own in the program: `bench/count` counts its calls
    pub fn push_in_turn<const AHEAD: bool>(&mut self, proposal: &mut Proposal, most: u64)
        requires { proposal.old ≡ self.old }
        ensures kept { self.new ≡ self.old }
        ensures proposal { proposal.new ≡ proposal.old }
    {
        self.start();
        self.begin::<AHEAD>(proposal, usize::MAX);
        self.forest.begin();
        self.look_from_roots::<AHEAD>(proposal);
        let length = self.serve_nearest::<AHEAD>(proposal, most);
        self.lower_settled::<AHEAD>(proposal, length);
    }

    /// Looks at the residual arcs that lead on from all nodes in excess.
    fn look_from_roots<const AHEAD: bool>(&mut self, proposal: &Proposal)
        requires { proposal.now ≡ self.old }
        ensures { self.new ≡ self.old }
    {
        for k in 0..self.entries() {
            let Some(root) = self.frontier.settled().at(k) else {
                return;
            };
            self.look_beyond::<AHEAD>(proposal, root);
        }
    }

    /// Pushes to one node in deficit after the other, the nearest first, for so many looks, and gives the length of the last path.
    fn serve_nearest<const AHEAD: bool>(&mut self, proposal: &mut Proposal, most: u64) -> i64
        requires { proposal.old ≡ self.old }
        ensures kept { self.new ≡ self.old }
        ensures proposal { proposal.new ≡ proposal.old }
    {
        let begun = self.looks;
        let mut length: i64 = 0;
        for _ in 0..u64::MAX {
            if self.looks.wrapping_sub(begun) > most {
                break;
            }
            let Some(u) = self.frontier.settle_nearest(FAR) else {
                break;
            };
            if !self.hang::<AHEAD>(proposal, u) {
                self.find_path::<AHEAD>(proposal, u);
                continue;
            }
            self.look_beyond::<AHEAD>(proposal, u);
            if proposal.is_goal::<AHEAD>(u) {
                length = self.key::<AHEAD>(proposal, u);
                if !self.augment::<AHEAD>(proposal, u, length) {
                    break;
                }
            }
        }
        length
    }

    /// Lowers the potentials of the settled nodes, so that paths of this length or less to them are tight.
    fn lower_settled<const AHEAD: bool>(&self, proposal: &mut Proposal, length: i64)
        requires { proposal.old ≡ self.now }
        ensures { proposal.new ≡ proposal.old }
    {
        for v in 0..self.entries() {
            if self.frontier.state(v) == State::Settled {
                self.lower_to::<AHEAD>(proposal, v, length);
            }
        }
    }

    /// The length of the best path to a node.
    #[inline(always)]
    fn key<const AHEAD: bool>(&self, proposal: &Proposal, v: usize) -> i64
        requires proposal { proposal.now ≡ self.now }
        requires node { v < self.now }
    {
        let potential = seen::<AHEAD>(proposal.potential(v));
        self.reaches[v].wrapping_sub(potential) // far within the range
    }

    /// Lowers the potential of a node to which a path of at most this length leads, so that a path of this length is tight.
    #[inline(always)]
    fn lower_to<const AHEAD: bool>(&self, proposal: &mut Proposal, v: usize, length: i64)
        requires proposal { proposal.old ≡ self.now }
        requires node { v < self.now }
        ensures { proposal.new ≡ proposal.old }
    {
        let shift = length.wrapping_sub(self.key::<AHEAD>(proposal, v)); // far within the range
        if shift > 0 {
            let _lowered = proposal.lower::<AHEAD>(v, shift);
        }
    }

    /// Hangs a node that was settled on the one before it, if the path is still as it was found, and says whether it is.
    #[inline(always)]
    fn hang<const AHEAD: bool>(&mut self, proposal: &Proposal, u: usize) -> bool
        requires proposal { proposal.now ≡ self.old }
        requires node { u < self.old }
        ensures { self.new ≡ self.old }
    {
        let place = self.records[u].parent;
        let Some(link) = proposal.ends().link(place) else {
            return false;
        };
        let v = link.other as usize;
        if self.frontier.state(v) != State::Settled
            || !proposal.is_open(link.room_back::<AHEAD>())
            || reach_back::<AHEAD>(self.reaches[v], &link) != self.reaches[u]
        {
            return false;
        }
        self.forest.hang(u as u32, link.other, place);
        true
    }

    /// Looks at the residual arcs that lead on from a node to those that are not settled.
    #[inline(always)]
    fn look_beyond<const AHEAD: bool>(&mut self, proposal: &Proposal, u: usize)
        requires proposal { proposal.now ≡ self.old }
        requires node { u < self.old }
        ensures { self.new ≡ self.old }
    {
        let reach = self.reaches[u];
        let links = proposal.ends().at(u).links;
        self.looks = self.looks.wrapping_add(links.len() as u64);
        let mut next = 0;
        while let Some(k) = nearer_from::<AHEAD>(&self.reaches, proposal, links, next, reach) {
            let link = &links[k];
            let v = link.other as usize;
            if self.frontier.state(v) != State::Settled {
                let over = reach_over::<AHEAD>(reach, link, true);
                self.wait::<AHEAD>(proposal, v, over, link.opposite);
            }
            next = k + 1;
        }
    }

    /// Lines a node up by a path that reaches so far and ends with the arc at this place.
    #[inline(always)]
    fn wait<const AHEAD: bool>(&mut self, proposal: &Proposal, v: usize, reach: i64, place: u32)
        requires proposal { proposal.now ≡ self.old }
        requires node { v < self.old }
        ensures { self.new ≡ self.old }
    {
        self.open(v, reach, 0, place);
        let key = self.key::<AHEAD>(proposal, v);
        let _settled = self.frontier.line_up(v, key, NO_KEY);
    }

    /// Looks for the best path to a node over one that is settled.
    #[inline(always)]
    fn find_path<const AHEAD: bool>(&mut self, proposal: &Proposal, v: usize)
        requires proposal { proposal.now ≡ self.old }
        requires node { v < self.old }
        ensures { self.new ≡ self.old }
    {
        self.frontier.set_state(v, State::New);
        self.reaches[v] = FAR;
        let mut best = FAR;
        let mut place = NO_PLACE;
        let links = proposal.ends().at(v).links;
        self.looks = self.looks.wrapping_add(links.len() as u64);
        for k in 0..links.len() {
            let link = &links[k];
            let u = link.other as usize;
            let reach = reach_back::<AHEAD>(self.reaches[u], link);
            if reach < best
                && proposal.is_open(link.room_back::<AHEAD>())
                && self.frontier.state(u) == State::Settled
            {
                best = reach;
                place = proposal.ends().at(v).first.wrapping_add(k as u32);
            }
        }
        if place != NO_PLACE {
            self.wait::<AHEAD>(proposal, v, best, place);
        }
    }

    /// Pushes along the path to a node in deficit, which is so long, and mends the forest. Says whether anything was pushed.
    fn augment<const AHEAD: bool>(&mut self, proposal: &mut Proposal, t: usize, length: i64) -> bool
        requires proposal { proposal.old ≡ self.old }
        requires node { t < self.old }
        ensures kept { self.new ≡ self.old }
        ensures proposal { proposal.new ≡ proposal.old }
    {
        let Some((s, room)) = self.path_to::<AHEAD>(proposal, t) else {
            return false;
        };
        let room = room
            .min(proposal.excess::<AHEAD>(s))
            .min(-proposal.excess::<AHEAD>(t));
        if room <= 0 {
            return false;
        }
        let mut orphan = self.push_along::<AHEAD>(proposal, t, room);
        proposal.carry::<AHEAD>(s, t, room);
        if !proposal.is_root::<AHEAD>(s) {
            orphan = self.cut_off(s, orphan);
        }
        self.mend::<AHEAD>(proposal, orphan, length);
        true
    }

    /// The root from which the best path to a node leads, and the room of the path.
    fn path_to<const AHEAD: bool>(&self, proposal: &Proposal, t: usize) -> Option<(usize, i64)>
        ensures { IfSome result (λ path. path.0 < self.now) }
    {
        let mut room = i64::MAX;
        let mut v = t;
        for _ in 0..self.entries() {
            if v >= self.entries() {
                return None;
            }
            let Some(link) = proposal.ends().link(self.records[v].parent) else {
                return Some((v, room));
            };
            room = room.min(link.room_back::<AHEAD>());
            v = link.other as usize;
        }
        None
    }

    /// Pushes so much along the best path to a node, and cuts off the nodes behind arcs that this fills. Gives the first of them,
    /// the others wait behind it; 0 where there is none.
    fn push_along<const AHEAD: bool>(
        &mut self,
        proposal: &mut Proposal,
        t: usize,
        amount: i64,
    ) -> u32
        requires { proposal.old ≡ self.old }
        ensures kept { self.new ≡ self.old }
        ensures proposal { proposal.new ≡ proposal.old }
    {
        let mut orphan = 0;
        let mut v = t;
        for _ in 0..self.entries() {
            if v >= self.entries() {
                break;
            }
            let place = self.records[v].parent;
            let Some(link) = proposal.ends().link(place) else {
                break;
            };
            proposal.draw::<AHEAD>(place, amount);
            if !proposal.is_open(link.room_back::<AHEAD>().saturating_sub(amount)) {
                orphan = self.cut_off(v, orphan);
            }
            v = link.other as usize;
        }
        orphan
    }

    /// Cuts a node off the forest, with all that hangs on it: it comes before this one among those that look for another node to
    /// hang on. Gives its number.
    #[inline(always)]
    fn cut_off(&mut self, v: usize, orphan: u32) -> u32
        requires { v < self.old }
        ensures { self.new ≡ self.old }
    {
        let _was = self.forest.cut(v as u32);
        self.frontier.set_state(v, State::New);
        if let Some(branch) = self.forest.at_mut(v as u32) {
            branch.behind = orphan;
        }
        v as u32
    }

    /// Mends the forest. What finds no path as short as before is taken off it, and looks for another one: none is shorter than the
    /// last path to a node in deficit, so that potentials may be lowered as far as that.
    fn mend<const AHEAD: bool>(&mut self, proposal: &mut Proposal, orphan: u32, length: i64)
        requires proposal { proposal.old ≡ self.old }
        ensures kept { self.new ≡ self.old }
        ensures proposal { proposal.new ≡ proposal.old }
    {
        self.adopt_all::<AHEAD>(proposal, orphan);
        self.take_all_off::<AHEAD>(proposal, length);
        self.find_paths::<AHEAD>(proposal);
    }

    /// Hangs each node that was cut off on another one by a path that is as short, with all below it. Where none is, lists it, and
    /// cuts off those that hang on it.
    fn adopt_all<const AHEAD: bool>(&mut self, proposal: &Proposal, orphan: u32)
        requires { proposal.now ≡ self.old }
        ensures { self.new ≡ self.old }
    {
        self.order.clear();
        let mut next = orphan;
        for _ in 0..self.entries() {
            let v = next as usize;
            if v == 0 || v >= self.entries() {
                return;
            }
            next = self.forest.at(next).behind;
            if !self.adopt::<AHEAD>(proposal, v) {
                self.order.add(v);
                next = self.cut_below(v, next);
            }
        }
    }

    /// Hangs a node on another one by a path as short as it had, and says whether it could.
    #[inline(always)]
    fn adopt<const AHEAD: bool>(&mut self, proposal: &Proposal, v: usize) -> bool
        requires proposal { proposal.now ≡ self.old }
        requires node { v < self.old }
        ensures { self.new ≡ self.old }
    {
        if self.records[v].parent == NO_PLACE {
            return false;
        }
        let place = self.place_as_near::<AHEAD>(proposal, v);
        let links = proposal.ends().at(v).links;
        self.looks = self.looks.wrapping_add(links.len() as u64);
        let Some(link) = proposal.ends().link(place) else {
            return false;
        };
        self.records[v].parent = place;
        self.frontier.set_state(v, State::Settled);
        self.forest.hang(v as u32, link.other, place);
        true
    }

    /// The place, at a node, of an arc by which a path to it is as short as it was, from a node that hangs on a root.
    fn place_as_near<const AHEAD: bool>(&self, proposal: &Proposal, v: usize) -> u32
        requires proposal { proposal.now ≡ self.now }
        requires node { v < self.now }
    {
        let reach = self.reaches[v];
        let links = proposal.ends().at(v).links;
        for k in 0..links.len() {
            let link = &links[k];
            let u = link.other as usize;
            if reach_back::<AHEAD>(self.reaches[u], link) == reach
                && proposal.is_open(link.room_back::<AHEAD>())
                && self.is_rooted(u)
            {
                return proposal.ends().at(v).first.wrapping_add(k as u32);
            }
        }
        NO_PLACE
    }

    /// Whether a node hangs on a root, over settled nodes alone.
    fn is_rooted(&self, v: usize) -> bool {
        let mut v = v;
        for _ in 0..self.entries() {
            if v >= self.entries() || self.frontier.state(v) != State::Settled {
                return false;
            }
            let above = self.forest.at(v as u32).above;
            if above == 0 {
                return true;
            }
            v = above as usize;
        }
        false
    }

    /// Cuts off all nodes that hang on one, before this one, and gives the first of all.
    fn cut_below(&mut self, v: usize, orphan: u32) -> u32
        requires { v < self.old }
        ensures { self.new ≡ self.old }
    {
        let mut orphan = orphan;
        for _ in 0..self.entries() {
            let below = self.forest.at(v as u32).first as usize;
            if below == 0 || below >= self.entries() {
                break;
            }
            orphan = self.cut_off(below, orphan);
        }
        orphan
    }

    /// Takes the nodes off the forest that found no other one to hang on.
    fn take_all_off<const AHEAD: bool>(&mut self, proposal: &mut Proposal, length: i64)
        requires { proposal.old ≡ self.old }
        ensures kept { self.new ≡ self.old }
        ensures proposal { proposal.new ≡ proposal.old }
    {
        for k in 0..self.entries() {
            let Some(v) = self.order.at(k) else {
                return;
            };
            self.take_off::<AHEAD>(proposal, v, length);
        }
    }

    /// Looks for paths to these nodes.
    fn find_paths<const AHEAD: bool>(&mut self, proposal: &Proposal)
        requires { proposal.now ≡ self.old }
        ensures { self.new ≡ self.old }
    {
        for k in 0..self.entries() {
            let Some(v) = self.order.at(k) else {
                return;
            };
            self.find_path::<AHEAD>(proposal, v);
        }
    }

    /// Takes a node off the forest, and lowers its potential as far as a path of this length allows.
    #[inline(always)]
    fn take_off<const AHEAD: bool>(&mut self, proposal: &mut Proposal, v: usize, length: i64)
        requires proposal { proposal.old ≡ self.old }
        requires node { v < self.old }
        ensures kept { self.new ≡ self.old }
        ensures proposal { proposal.new ≡ proposal.old }
    {
        self.lower_to::<AHEAD>(proposal, v, length);
        self.forest.free(v as u32);
        self.frontier.set_state(v, State::New);
        self.records[v].parent = NO_PLACE;
    }
}

/// How far a path reaches that goes on from a node, whose best path reaches so far, along an arc whose other end this is. The
/// sum wraps: it is far within the range.
#[inline(always)]
fn reach_back<const AHEAD: bool>(reach: i64, link: &Link) -> i64 {
    if AHEAD {
        reach.wrapping_sub(link.cost)
    } else {
        reach.wrapping_add(link.cost)
    }
}
