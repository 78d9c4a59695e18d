//! Pushes along shortest paths that a search from both sides at once finds, for few nodes out of balance.

ghost use Rattle.std.specs.Prelude.{◌≡◌, ◌<◌, ◌^◌, IfSome, length};

use crate::front::{Front, Meeting};
use containers::{FAR, NO_PLACE, Nodes, Noted, Places, both};
use relaxation::Proposal;
use std::alloc::{AllocError, Global};
use std::marker::Model;

/// So often all ends are read at most where many nodes are out of balance, besides once before the first of them is in balance:
/// if they take longer, relaxation serves them better.
const MOST_OF_MANY: u64 = 9;

/// So often all ends are read at most while few nodes are out of balance, where a solve takes little: with 200 edits of a
/// maximum flow took up to five times as long as to solve it anew.
const LEAST_OF_FEW: u64 = 20;

/// So often they are where it takes much.
const MOST_OF_FEW: u64 = 200;

/// To push along an arc of a path takes as long as to read so many ends.
const READS_OF_ARC: u64 = 8;

/// More nodes than these are many.
const MANY: usize = 16;

/// A search from nodes in excess and from nodes in deficit at once, and the path that it finds. It is seen as the number
/// of entries that a table of nodes has: 0 before the first load, so that a run without one does not touch its room.
#[derive(Drop)]
pub struct Between {
    ahead: Front,
    behind: Front,
    /// The nodes that were in excess at the start, and those in deficit.
    sources: Nodes,
    sinks: Nodes,
    /// The places of the arcs of the path, each as the front sees it that came by it.
    path_ahead: Places,
    path_behind: Places,
    /// The arcs of both.
    arcs: Places,
}

impl Model for Between {
    ghost use Rattle.std.specs.Prelude.{ℕ, ◌≡◌, ◌<◌, ◌^◌};

    ghost Value = { ℕ };

    ghost view = { λ b. b.ahead };

    ghost invariant = { λ b. (b.behind ≡ b.ahead)
        × (b.sources ≡ b.ahead)
        × (b.sinks ≡ b.ahead)
        × (b.ahead < 2 ^ 31) };
}

impl Between {
    /// Room for a search among so many entries of nodes, of which nothing is loaded.
    ///
    /// # Errors
    /// Memory for a table was refused.
    pub fn new(alloc: Global, entries: usize) -> Result<Between, AllocError>
        requires { entries < 2 ^ 31 }
    {
        let fronts = both(Front::new(alloc, entries), Front::new(alloc, entries));
        let roots = both(
            Nodes::reserve(alloc, entries),
            Nodes::reserve(alloc, entries),
        );
        let paths = both(Places::new(alloc, entries), Places::new(alloc, entries));
        let arcs = Places::new(alloc, entries);
        let (((ahead, behind), (sources, sinks)), ((path_ahead, path_behind), arcs)) = both(
            both(fronts, roots),
            both(paths, arcs),
        )?;
        Ok(Between {
            ahead,
            behind,
            sources,
            sinks,
            path_ahead,
            path_behind,
            arcs,
        })
    }

    /// The number of entries of a table of nodes.
    pub fn entries(&self) -> usize
        ensures { result ≡ self.now }
    {
        self.ahead.entries()
    }

    /// Gets ready for searches among so many entries of nodes, if there is room for them.
    pub fn load(&mut self, entries: usize)
        requires { entries < 2 ^ 31 }
    {
        if self.entries() == entries {
            return;
        }
        if !self.ahead.open(entries) || !self.behind.open(entries) {
            self.ahead.close();
            self.behind.close();
        }
        let opened = self.ahead.entries();
        self.sources.begin(opened);
        self.sinks.begin(opened);
    }

    /// Pushes along shortest paths until one side is empty or the sides do not meet, or else until too much was read; says
    /// whether it came to the former, and notes the arcs whose flow it moves. The ends are in order, and the nodes out of balance
    /// are listed. While few nodes are out of balance, searches may read about as much as searches from afar that settle each
    /// node so often: these are the other way to go on.
    #[inline(never)] // a name of its own in the program: `bench/count` counts its calls
    pub fn push_between(&mut self, proposal: &mut Proposal, noted: &mut Noted, settled: u64) -> bool
        requires { proposal.old ≡ self.old }
        ensures kept { self.new ≡ self.old }
        ensures proposal { proposal.new ≡ proposal.old }
    {
        self.ahead.forget_margins();
        self.behind.forget_margins();
        if self.roots() > MANY && !self.push_in_pairs(proposal, noted) {
            return false;
        }
        let ends = proposal.ends().count() as u64;
        let mut reads: u64 = 0;
        for _ in 0..u64::MAX {
            let Some(begun) = self.begin(proposal) else {
                return true;
            };
            let most = if begun > MANY {
                1
            } else {
                settled.max(LEAST_OF_FEW).min(MOST_OF_FEW)
            };
            if reads > ends.saturating_mul(most) {
                return false;
            }
            let Some(meeting) = self.search(proposal) else {
                return true;
            };
            self.push(proposal, noted, meeting);
            reads = reads.saturating_add(self.reads());
        }
        false
    }

    /// Pushes from one node in excess to one in deficit, until either is in balance, and then from or to the next one; says
    /// whether that did not take too long. So a search sees little, as after a single edit: one that begins at all nodes sees
    /// more, since it has to come from each as far as the shortest path is long.
    fn push_in_pairs(&mut self, proposal: &mut Proposal, noted: &mut Noted) -> bool
        requires { proposal.old ≡ self.old }
        ensures kept { self.new ≡ self.old }
        ensures proposal { proposal.new ≡ proposal.old }
    {
        let ends = proposal.ends().count() as u64;
        let each = MOST_OF_MANY.saturating_mul(ends) / (self.roots() as u64).max(1);
        let mut reads: u64 = 0;
        let mut from: usize = 0;
        let mut to: usize = 0;
        for _ in 0..u64::MAX {
            let passed = from.saturating_add(to) as u64;
            if reads > ends.saturating_add(each.saturating_mul(passed)) {
                return false;
            }
            let (Some(s), Some(t)) = (self.sources.at(from), self.sinks.at(to)) else {
                break;
            };
            let joined = self.push_pair(proposal, noted, s, t);
            reads = reads.saturating_add(self.reads());
            // One that reaches no more nodes, or is reached from no more, is left for others to join.
            let all_ahead = self.ahead.reach().is_none();
            if proposal.rest(s) == 0 || !joined && all_ahead {
                from = from.saturating_add(1);
            }
            if proposal.rest(t) == 0 || !joined && !all_ahead {
                to = to.saturating_add(1);
            }
        }
        true
    }

    /// Pushes along a shortest path from one node to another, and says whether there is one.
    fn push_pair(&mut self, proposal: &mut Proposal, noted: &mut Noted, s: usize, t: usize) -> bool
        requires proposal { proposal.old ≡ self.old }
        requires s { s < self.old }
        requires t { t < self.old }
        ensures kept { self.new ≡ self.old }
        ensures proposal { proposal.new ≡ proposal.old }
    {
        self.ahead.forget();
        self.behind.forget();
        self.ahead.settle_at(s, NO_PLACE);
        self.behind.settle_at(t, NO_PLACE);
        let Some(meeting) = self.search(proposal) else {
            return false;
        };
        self.push(proposal, noted, meeting);
        true
    }

    /// How many nodes were out of balance at the start.
    fn roots(&self) -> usize {
        let sources = self.sources.listed().len();
        sources.saturating_add(self.sinks.listed().len())
    }

    /// How many ends the last search read, with as many for the path as these would take.
    fn reads(&self) -> u64 {
        let ahead = self.path_ahead.listed().len() as u64;
        let behind = self.path_behind.listed().len() as u64;
        let walked = READS_OF_ARC.saturating_mul(ahead.saturating_add(behind));
        let read = self.ahead.reads().saturating_add(self.behind.reads());
        read.saturating_add(walked)
    }

    /// Lists those of these nodes that are out of balance.
    pub fn list_roots(&mut self, proposal: &Proposal, nodes: &[u32])
        requires { proposal.now ≡ self.old }
        ensures { self.new ≡ self.old }
    {
        self.sources.clear();
        self.sinks.clear();
        for v in nodes {
            let v = *v as usize;
            if v >= proposal.entries() {
                continue;
            }
            if proposal.rest(v) > 0 {
                self.sources.add(v);
            } else if proposal.rest(v) < 0 {
                self.sinks.add(v);
            }
        }
    }

    /// The nodes that were listed as in excess, and those as in deficit.
    pub fn listed_roots(&self) -> (&[u32], &[u32]) {
        (self.sources.listed(), self.sinks.listed())
    }

    /// Begins at all nodes in excess and at all in deficit, and says how many these are, if there are both.
    fn begin(&mut self, proposal: &Proposal) -> Option<usize>
        requires { proposal.now ≡ self.old }
        ensures { self.new ≡ self.old }
    {
        self.ahead.forget();
        self.behind.forget();
        begin_all::<true>(&mut self.ahead, &self.sources, proposal);
        begin_all::<false>(&mut self.behind, &self.sinks, proposal);
        let (ahead, behind) = (self.ahead.unread(), self.behind.unread());
        if ahead == 0 || behind == 0 {
            return None;
        }
        Some(ahead.saturating_add(behind))
    }

    /// Searches from both sides, and gives a shortest path across.
    fn search(&mut self, proposal: &Proposal) -> Option<Meeting>
        requires { proposal.now ≡ self.old }
        ensures kept { self.new ≡ self.old }
        ensures node { IfSome result (λ meeting. meeting.node < self.old) }
    {
        self.path_ahead.clear();
        self.path_behind.clear();
        let meeting = meet(&mut self.ahead, &mut self.behind, proposal, Meeting::NONE);
        if meeting.length < FAR && meeting.node < self.ahead.entries() {
            Some(meeting)
        } else {
            None
        }
    }

    /// Shifts the potentials so that the path is tight, and pushes along it as much as fits.
    fn push(&mut self, proposal: &mut Proposal, noted: &mut Noted, meeting: Meeting)
        requires proposal { proposal.old ≡ self.old }
        requires node { meeting.node < self.old }
        ensures kept { self.new ≡ self.old }
        ensures proposal { proposal.new ≡ proposal.old }
    {
        let fall = match self.ahead.reach() {
            Some(reach) => reach.min(meeting.length),
            None => meeting.length,
        };
        lower_all::<true>(&self.ahead, proposal, fall);
        lower_all::<false>(&self.behind, proposal, meeting.length - fall);
        let _root = self
            .ahead
            .trace(proposal, meeting.node, &mut self.path_ahead);
        let (join, t) = self
            .behind
            .trace_apart(proposal, meeting.node, &self.ahead, &mut self.path_behind);
        let s = self.ahead.trace(proposal, join, &mut self.path_ahead);
        let amount = proposal.excess::<true>(s).min(proposal.excess::<false>(t));
        let amount = room_along::<true>(proposal, &self.path_ahead, amount);
        let amount = room_along::<false>(proposal, &self.path_behind, amount);
        self.arcs.clear();
        draw_along::<true>(proposal, &mut self.arcs, &self.path_ahead, amount);
        draw_along::<false>(proposal, &mut self.arcs, &self.path_behind, amount);
        proposal.carry::<true>(s, t, amount);
        self.ahead.shorten(meeting.length);
        self.behind.shorten(meeting.length);
        follow(
            &mut self.ahead,
            &mut self.behind,
            proposal,
            noted,
            &self.arcs,
        );
    }
}

/// Begins at all these nodes that are in excess still, as a side sees them.
fn begin_all<const AHEAD: bool>(front: &mut Front, roots: &Nodes, proposal: &Proposal)
    requires front { front.old ≡ proposal.now }
    requires roots { roots.now ≡ proposal.now }
    ensures { front.new ≡ front.old }
{
    for v in roots.listed() {
        let v = *v as usize;
        if proposal.excess::<AHEAD>(v) > 0 {
            front.settle_at(v, NO_PLACE);
        }
    }
}

/// Searches from both sides until no path across can be shorter than the best one, which is this one at first.
fn meet(ahead: &mut Front, behind: &mut Front, proposal: &Proposal, meeting: Meeting) -> Meeting
    requires ahead { ahead.old ≡ proposal.now }
    requires behind { behind.old ≡ proposal.now }
    ensures ahead { ahead.new ≡ ahead.old }
    ensures behind { behind.new ≡ behind.old }
{
    let mut meeting = meeting;
    // No bound that is ever met: each step reads at a node, at most twice on a side, or settles one.
    for _ in 0..u64::MAX {
        if is_best(ahead, behind, meeting) {
            break;
        }
        meeting = go_on(ahead, behind, proposal, meeting);
    }
    meeting
}

/// Goes on by one node on one side.
#[inline(always)]
fn go_on(ahead: &mut Front, behind: &mut Front, proposal: &Proposal, meeting: Meeting) -> Meeting
    requires ahead { ahead.old ≡ proposal.now }
    requires behind { behind.old ≡ proposal.now }
    ensures ahead { ahead.new ≡ ahead.old }
    ensures behind { behind.new ≡ behind.old }
{
    if goes_ahead(ahead, behind) {
        ahead.step::<true>(proposal, behind, meeting)
    } else {
        behind.step::<false>(proposal, ahead, meeting)
    }
}

/// Whether no path across can be shorter than the best one so far.
#[inline(always)]
fn is_best(ahead: &Front, behind: &Front, meeting: Meeting) -> bool {
    let Some(near) = ahead.reach() else {
        return true;
    };
    let Some(beyond) = behind.reach() else {
        return true;
    };
    near + beyond >= meeting.length
}

/// Which side goes on: that which has read less; where no node waits whose free ends were not read, that which has fewer
/// nodes left to read.
#[inline(always)]
fn goes_ahead(ahead: &Front, behind: &Front) -> bool {
    if ahead.unread() == 0 || behind.unread() == 0 {
        return ahead.unread() == 0;
    }
    if ahead.has_waiting() || behind.has_waiting() {
        ahead.reads() <= behind.reads()
    } else {
        ahead.unread() <= behind.unread()
    }
}

/// Lowers the potentials of the nodes, as a side sees them, that are nearer than so far, by what they are nearer.
fn lower_all<const AHEAD: bool>(front: &Front, proposal: &mut Proposal, far: i64)
    requires { proposal.old ≡ front.now }
    ensures { proposal.new ≡ proposal.old }
{
    for v in front.settled().listed() {
        let v = *v as usize;
        let key = front.key(v);
        // They come in the order of their keys.
        if key >= far {
            break;
        }
        let _lowered = proposal.lower::<AHEAD>(v, far - key);
    }
}

/// The room along a path, or this amount if it is less.
fn room_along<const AHEAD: bool>(proposal: &Proposal, path: &Places, amount: i64) -> i64 {
    let mut amount = amount;
    for place in path.listed() {
        if let Some(link) = proposal.ends().link(*place) {
            amount = amount.min(link.room_back::<AHEAD>());
        }
    }
    amount
}

/// Moves flow along a path, and lists its arcs.
fn draw_along<const AHEAD: bool>(
    proposal: &mut Proposal,
    arcs: &mut Places,
    path: &Places,
    amount: i64,
)
    ensures { proposal.new ≡ proposal.old }
{
    for place in path.listed() {
        proposal.draw::<AHEAD>(*place, amount);
        arcs.add(proposal.ends().number_at(*place) / 2);
    }
}

/// Takes over that these arcs have another room: notes them, puts their ends in order, and forgets how far the ends at their
/// nodes lead on.
fn follow(
    ahead: &mut Front,
    behind: &mut Front,
    proposal: &mut Proposal,
    noted: &mut Noted,
    arcs: &Places,
)
    requires ahead { ahead.old ≡ proposal.old }
    requires behind { behind.old ≡ proposal.old }
    ensures ahead { ahead.new ≡ ahead.old }
    ensures behind { behind.new ≡ behind.old }
    ensures proposal { proposal.new ≡ proposal.old }
{
    for k in arcs.listed() {
        noted.note(*k);
        proposal.ends.put_arc_in_order(*k as usize);
        if let Some(ends) = proposal.ends().ends_of(*k as usize) {
            let (tail, head) = (ends.head.other as usize, ends.tail.other as usize);
            ahead.forget_margin(tail);
            ahead.forget_margin(head);
            behind.forget_margin(tail);
            behind.forget_margin(head);
        }
    }
}
