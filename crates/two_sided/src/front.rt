//! One side of a search that goes from both sides at once.

ghost use Rattle.std.specs.Prelude.{◌≡◌, ◌<◌, ◌^◌, ℕ, IfOk, IfSome, IsTrue, length, pos, ◌≤ℤ◌};
ghost use Rattle.relaxation.specs.Limits.{IsWithin, rest_limit};
ghost use Rattle.two_sided.specs.Keys.{key_limit};

use containers::{FAR, Frontier, Heap, NO_PLACE, Nodes, Places, State, both};
use relaxation::Proposal;
use residual_ends::Link;
use std::alloc::{AllocError, Global};
use std::marker::Model;

/// So many free ends of a node are read at a time: the other side may come upon a node of many arcs before all are.
const SOME_ENDS: usize = 32;

/// What a side knows of a node to which it found a path; of another one the label is that of an earlier search.
#[derive(Clone, Copy)]
pub struct Label {
    /// The length of the best path so far.
    key: i64,
    /// The place, at this node, of the last arc of that path.
    parent: u32,
    ghost key_low: { pos 0 ≤ℤ key },
    ghost key_high: { key ≤ℤ pos key_limit },
}

impl Label {
    const NONE: Label = Label {
        key: FAR,
        parent: NO_PLACE,
    };
}

/// The label of a node that an arc of this reduced cost leads to: one below 0 counts as 0.
#[inline(always)]
fn label_beyond(key: i64, reduced_cost: i64, parent: u32) -> Label
    requires low { pos 0 ≤ℤ key }
    requires high { key ≤ℤ pos key_limit }
    requires reduced { IsWithin rest_limit reduced_cost }
{
    let length = if reduced_cost > 0 {
        key + reduced_cost
    } else {
        key
    };
    Label {
        key: length.min(FAR),
        parent,
    }
}

/// The shortest path so far from one side to the other.
#[derive(Clone, Copy)]
pub struct Meeting {
    pub length: i64,
    /// A node on it that both sides know.
    pub node: usize,
    ghost length_low: { pos 0 ≤ℤ length },
    ghost length_high: { length ≤ℤ pos key_limit },
}

impl Meeting {
    /// No path.
    pub const NONE: Meeting = Meeting {
        length: FAR,
        node: 0,
    };

    /// This path, or one over a node so far from either side if that is shorter.
    #[inline(always)]
    fn or_over(self, node: usize, near: i64, beyond: i64) -> Meeting
        requires near_low { pos 0 ≤ℤ near }
        requires near_high { near ≤ℤ pos key_limit }
        requires beyond_low { pos 0 ≤ℤ beyond }
        requires beyond_high { beyond ≤ℤ pos key_limit }
    {
        let length = near + beyond;
        if length < self.length {
            Meeting { length, node }
        } else {
            self
        }
    }
}

/// A search from the nodes in excess, as a side sees it. The other ends of a node are here those by which this side may go on
/// and that have no room both ways. It is seen as the number of entries that a table of nodes has.
#[derive(Drop)]
pub struct Front {
    labels: Vec<Label>,
    frontier: Frontier,
    /// How far beyond each node its other ends lead at least, by `walked` more: 0 where these were not read in this run, or
    /// changed since.
    beyond: Vec<i64>,
    /// The nodes of which `beyond` may hold another number than 0, some of them twice.
    margins: Nodes,
    /// Settled nodes whose other ends all lead far: these are read once the search has come half as far, which is
    /// seldom.
    late: Heap,
    /// Of how many settled nodes the free ends were read, those with room both ways; at the last one some may be left.
    spread: usize,
    /// The place of the free end of that node that is read next, and the place behind the last one.
    next_free: u32,
    free_until: u32,
    /// Of how many settled nodes the other ends were read.
    read: usize,
    /// The key of the node that was settled last.
    last: i64,
    /// No node is left to read.
    spent: bool,
    /// How many ends were read.
    reads: u64,
    /// How long the paths of this run were together: by so much at most a reduced cost fell.
    walked: i64,
    ghost last_low: { pos 0 ≤ℤ last },
    ghost last_high: { last ≤ℤ pos key_limit },
}

impl Model for Front {
    ghost use Rattle.std.specs.Prelude.{ℕ, ◌≡◌, ◌<◌, ◌^◌, length};

    ghost Value = { ℕ };

    ghost view = { λ f. length f.labels.items };

    ghost invariant = { λ f. (length f.labels.items < 2 ^ 31)
        × (f.frontier ≡ length f.labels.items)
        × (f.late ≡ length f.labels.items)
        × (length f.beyond.items ≡ length f.labels.items)
        × (f.margins ≡ length f.labels.items) };
}

impl Front {
    /// Room for a search among so many entries of nodes: it is opened before it is used, and its room is not touched.
    ///
    /// # Errors
    /// Memory for a table was refused.
    pub fn new(alloc: Global, entries: usize) -> Result<Front, AllocError>
        ensures { IfOk result (λ f. f ≡ 0) }
    {
        let labels = both(
            Vec::with_capacity(alloc, entries),
            Frontier::new(alloc, entries),
        );
        let margins = both(
            Vec::with_capacity(alloc, entries),
            Nodes::reserve(alloc, entries),
        );
        let late = Heap::new(alloc, entries);
        let ((labels, frontier), ((beyond, margins), late)) = both(labels, both(margins, late))?;
        Ok(Front {
            labels,
            frontier,
            beyond,
            margins,
            late,
            spread: 0,
            next_free: 0,
            free_until: 0,
            read: 0,
            last: 0,
            spent: false,
            reads: 0,
            walked: 0,
        })
    }

    /// Makes tables of so many entries of nodes in the room that there is, and says whether it is enough: then no search
    /// is begun.
    pub fn open(&mut self, entries: usize) -> bool
        requires { entries < 2 ^ 31 }
        ensures { IsTrue result → self.new ≡ entries }
    {
        if entries > self.labels.capacity() || entries > self.beyond.capacity() {
            return false;
        }
        if !self.frontier.open(entries) || !self.late.open(entries) {
            self.labels.clear();
            self.frontier.close();
            self.beyond.clear();
            self.margins.begin(0);
            self.late.close();
            return false;
        }
        self.labels.clear();
        self.beyond.clear();
        let _filled = self.labels.resize(entries, Label::NONE);
        let _filled = self.beyond.resize(entries, 0);
        self.margins.begin(entries);
        true
    }

    /// Makes the tables empty.
    pub fn close(&mut self)
        ensures { self.new ≡ 0 }
    {
        self.labels.clear();
        self.frontier.close();
        self.beyond.clear();
        self.margins.begin(0);
        self.late.close();
    }

    /// The number of entries of a table of nodes.
    pub fn entries(&self) -> usize
        ensures { result ≡ self.now }
    {
        self.labels.len()
    }

    /// Forgets all.
    pub fn forget(&mut self)
        ensures { self.new ≡ self.old }
    {
        self.frontier.forget();
        self.late.clear();
        self.spread = 0;
        self.next_free = 0;
        self.free_until = 0;
        self.read = 0;
        self.last = 0;
        self.spent = false;
        self.reads = 0;
    }

    /// How far the search has come, if it is not at its end: no node that is not settled is nearer.
    #[inline(always)]
    pub fn reach(&self) -> Option<i64>
        ensures low { IfSome result (λ key. pos 0 ≤ℤ key) }
        ensures high { IfSome result (λ key. key ≤ℤ pos key_limit) }
    {
        if self.spent { None } else { Some(self.last) }
    }

    /// How many ends were read.
    #[inline(always)]
    pub fn reads(&self) -> u64 {
        self.reads
    }

    /// Whether a node waits whose free ends were not all read.
    #[inline(always)]
    pub fn has_waiting(&self) -> bool {
        self.next_free < self.free_until || self.spread < self.settled().listed().len()
    }

    /// Of how many settled nodes the other ends were not read.
    #[inline(always)]
    pub fn unread(&self) -> usize {
        self.settled().listed().len().saturating_sub(self.read)
    }

    /// The settled nodes, in order.
    #[inline(always)]
    pub fn settled(&self) -> &Nodes
        ensures { result.now ≡ self.now }
    {
        self.frontier.settled()
    }

    /// The length of the best path to a node.
    #[inline(always)]
    pub fn key(&self, v: usize) -> i64
        requires { v < self.now }
        ensures low { pos 0 ≤ℤ result }
        ensures high { result ≤ℤ pos key_limit }
    {
        if self.frontier.state(v) == State::New {
            return FAR;
        }
        let label = self.labels[v];
        label.key
    }

    /// Goes on by one node: reads its free ends, which are tight; where no node waits for that, the other ends of one; where
    /// all ends are read, settles the next one. Gives the shortest path across.
    #[inline(always)]
    pub fn step<const AHEAD: bool>(
        &mut self,
        proposal: &Proposal,
        other: &Front,
        meeting: Meeting,
    ) -> Meeting
        requires proposal { proposal.now ≡ self.old }
        requires other { other.now ≡ self.old }
        ensures { self.new ≡ self.old }
    {
        if self.has_waiting() {
            return self.read_free(proposal, other, meeting);
        }
        let due = match self.frontier.take() {
            Some(u) => {
                self.read = self.read.saturating_add(1);
                if self.is_put_off(u) { None } else { Some(u) }
            }
            None => self.advance(),
        };
        match due {
            Some(u) => self.read_others::<AHEAD>(proposal, other, u, meeting),
            None => meeting,
        }
    }

    /// Puts off reading the other ends at a node, if all lead far, and says whether it did. They are read once the
    /// search has come half as far: two nodes put off, one a side, are no nearer to each other than both sides have
    /// come together.
    #[inline(always)]
    fn is_put_off(&mut self, u: usize) -> bool
        requires { u < self.old }
        ensures { self.new ≡ self.old }
    {
        let half = self.beyond[u].saturating_sub(self.walked) / 2;
        if half <= 0 {
            return false;
        }
        let due = self.key(u).saturating_add(half);
        self.late.add(u, due);
        true
    }

    /// Forgets how far ends lead on.
    pub fn forget_margins(&mut self)
        ensures { self.new ≡ self.old }
    {
        // Where fewer are listed than there is room for, none was left out.
        if self.margins.listed().len() < self.beyond.len() {
            forget_beyond(&mut self.beyond, &self.margins);
        } else {
            self.beyond.fill(0);
        }
        self.margins.clear();
        self.walked = 0;
    }

    /// Forgets how far the ends at a node lead on.
    pub fn forget_margin(&mut self, v: usize)
        requires { v < self.old }
        ensures { self.new ≡ self.old }
    {
        self.beyond[v] = 0;
    }

    /// All ends may lead on less far by the length of a path, along which the potentials were shifted.
    pub fn shorten(&mut self, length: i64)
        ensures { self.new ≡ self.old }
    {
        self.walked = self.walked.saturating_add(length);
    }

    /// Reads some ends of arcs that have room both ways, at the settled nodes in turn. To take a node counts as a read: it takes
    /// as long.
    fn read_free(&mut self, proposal: &Proposal, other: &Front, meeting: Meeting) -> Meeting
        requires proposal { proposal.now ≡ self.old }
        requires other { other.now ≡ self.old }
        ensures { self.new ≡ self.old }
    {
        let mut meeting = meeting;
        // Held here, and not in the tables, which the loop writes: so they stay in registers.
        let ends = proposal.ends();
        let mut next = self.next_free;
        let mut until = self.free_until;
        let mut spread = self.spread;
        let mut reads: usize = 0;
        while reads < SOME_ENDS {
            if next < until {
                if let Some(link) = ends.link(next) {
                    meeting = self.spread_to(&link, other, meeting);
                }
                next = next.saturating_add(1);
            } else {
                let Some(u) = self.settled().at(spread) else {
                    break;
                };
                let free = ends.free_places(u);
                next = free.0;
                until = free.1;
                spread = spread.saturating_add(1);
            }
            reads += 1;
        }
        self.next_free = next;
        self.free_until = until;
        self.spread = spread;
        self.reads = self.reads.saturating_add(reads as u64);
        meeting
    }

    /// Settles the node at a free end, as far off as the search has come: not where it is settled already, or where a
    /// path across is known that is no longer than that.
    #[inline(always)]
    fn spread_to(&mut self, link: &Link, other: &Front, meeting: Meeting) -> Meeting
        requires node { link.now.other < self.old }
        requires other { other.now ≡ self.old }
        ensures { self.new ≡ self.old }
    {
        let v = link.other as usize;
        if self.frontier.state(v) == State::Settled || meeting.length <= self.last {
            return meeting;
        }
        self.settle_at(v, link.opposite);
        meeting.or_over(v, self.last, other.key(v))
    }

    /// Settles a node as far off as the search has come, where no path to it was as short; a search begins at one without an
    /// arc before it.
    #[inline(always)]
    pub fn settle_at(&mut self, v: usize, parent: u32)
        requires { v < self.old }
        ensures { self.new ≡ self.old }
    {
        self.labels[v] = Label {
            key: self.last,
            parent,
        };
        self.frontier.settle(v);
    }

    /// Reads the ends at a settled node of the other residual arcs that lead on from it.
    fn read_others<const AHEAD: bool>(
        &mut self,
        proposal: &Proposal,
        other: &Front,
        u: usize,
        meeting: Meeting,
    ) -> Meeting
        requires proposal { proposal.now ≡ self.old }
        requires other { other.now ≡ self.old }
        requires node { u < self.old }
        ensures { self.new ≡ self.old }
    {
        let mut meeting = meeting;
        let key = self.key(u);
        let potential = proposal.potential(u);
        let links = proposal.ends().others_at::<AHEAD>(u).links;
        self.reads = self.reads.saturating_add(links.len() as u64);
        let mut least = FAR;
        for link in links {
            if link.room::<AHEAD>() > 0 {
                let reduced_cost = proposal.reduced_cost::<AHEAD>(potential, link);
                least = least.min(reduced_cost);
                let label = label_beyond(key, reduced_cost, link.opposite);
                meeting = self.note(link.other as usize, label, other, meeting);
            }
        }
        if self.beyond[u] == 0 {
            self.margins.add(u);
        }
        self.beyond[u] = least.saturating_add(self.walked);
        meeting
    }

    /// Writes down a path to a node, if it is the best so far and can be part of a shorter way across; gives the shortest
    /// path across.
    #[inline(always)]
    fn note(&mut self, v: usize, label: Label, other: &Front, meeting: Meeting) -> Meeting
        requires other { other.now ≡ self.old }
        requires node { v < self.old }
        ensures { self.new ≡ self.old }
    {
        if label.key >= meeting.length || label.key >= self.key(v) {
            return meeting;
        }
        // However the other side comes to this node, its path is at least so long.
        let beyond = other.last.min(other.key(v));
        if label.key + beyond >= meeting.length {
            return meeting;
        }
        self.labels[v] = label;
        let _settled = self.frontier.line_up(v, label.key, self.last);
        meeting.or_over(v, label.key, other.key(v))
    }

    /// Settles the nearest node that is not settled, or gives a settled one of which the other ends are to be read before
    /// that; comes as far as either.
    fn advance(&mut self) -> Option<usize>
        ensures kept { self.new ≡ self.old }
        ensures node { IfSome result (λ v. v < self.old) }
    {
        let due = self.late.least();
        if let Some(u) = self.frontier.settle_nearest(due) {
            let label = self.labels[u];
            self.last = label.key;
            return None;
        }
        if due > self.last && due < FAR {
            self.last = due;
        }
        let late = self.late.take();
        self.spent = late.is_none();
        late
    }

    /// Lists the places of the arcs of the path to a node, from its end, marks its nodes, and gives the node where it begins.
    pub fn trace(&mut self, proposal: &Proposal, v: usize, path: &mut Places) -> usize
        requires proposal { proposal.now ≡ self.old }
        requires node { v < self.old }
        ensures kept { self.new ≡ self.old }
        ensures node { result < self.old }
    {
        path.clear();
        let mut u = v;
        for _ in 0..self.labels.len() {
            self.frontier.set_state(u, State::Walked);
            let place = self.labels[u].parent;
            let Some(link) = proposal.ends().link(place) else {
                break;
            };
            path.add(place);
            u = link.other as usize;
        }
        u
    }

    /// Lists the places of the arcs of the path to a node, from the last of its nodes on, seen from its end, that the marked path
    /// of another side meets, too: from there on the two meet no more. Gives that node, and the one where the path begins.
    pub fn trace_apart(
        &self,
        proposal: &Proposal,
        v: usize,
        other: &Front,
        path: &mut Places,
    ) -> (usize, usize)
        requires proposal { proposal.now ≡ self.now }
        requires other { other.now ≡ self.now }
        requires node { v < self.now }
        ensures join { result.0 < self.now }
        ensures root { result.1 < self.now }
    {
        path.clear();
        let mut join = v;
        let mut u = v;
        for _ in 0..self.labels.len() {
            if other.frontier.state(u) == State::Walked {
                path.clear();
                join = u;
            }
            let place = self.labels[u].parent;
            let Some(link) = proposal.ends().link(place) else {
                break;
            };
            path.add(place);
            u = link.other as usize;
        }
        (join, u)
    }
}

/// Forgets how far the ends at these nodes lead on.
fn forget_beyond(beyond: &mut [i64], nodes: &Nodes)
    requires { nodes.now ≡ length beyond.old }
    ensures { length beyond.new ≡ length beyond.old }
{
    for v in nodes.listed() {
        beyond[*v as usize] = 0;
    }
}
