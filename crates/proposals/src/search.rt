//! A search for shortest paths from all nodes in excess, as a side sees it.

ghost use Rattle.std.specs.Prelude.{◌≡◌, ◌<◌, ◌≤◌, ◌^◌, ℕ, IfOk, IfSome, length};
ghost use Rattle.relaxation.specs.Links.{LeadTo};

use crate::record::NodeRecord;
use crate::trial::Trial;
use containers::{FAR, Frontier, NO_PLACE, Nodes, State, Walk, both};
use pseudoflow::Forest;
use relaxation::{Proposal, seen};
use residual_ends::Link;
use std::alloc::{AllocError, Global};
use std::marker::Model;

/// How far a path over an arc that searches do not use is said to reach: further than any other. It is less than the greatest
/// number, since against that a compiler makes a test of it, which processors often predict wrongly: with one, proposals of
/// plans and infeasible networks took up to a tenth longer.
const BARRED: i64 = 4_400_000_000_000_000_000;

/// A search for some goals first takes paths up to so many times as long as searches usually went of late: so it lines up
/// fewer nodes that it does not settle. With 8 more nodes were lined up.
const WIDER: i64 = 5;

/// What is usual falls by one part in so many with each search that goes less far. By the length of the search before alone a
/// fifth of the searches in two-way grids had to look again, since long and short ones take turns there.
const FADING: i64 = 4;

/// A search, and the walks after it. It is seen as the number of entries that a table of nodes has.
#[derive(Drop)]
pub struct Search {
    pub(crate) records: Vec<NodeRecord>,
    /// How far the best path to each node reaches so far: its length and the potential of the node, so that a look at an
    /// arc asks for this one number of the node beyond.
    pub(crate) reaches: Vec<i64>,
    pub(crate) frontier: Frontier,
    /// The order in which potentials are first lowered, each node behind those that lead to it; later the nodes that a push
    /// along one path cut off, which found no other one to hang on.
    pub(crate) order: Nodes,
    pub(crate) walk: Walk,
    /// Shortest paths, while pushes go along one after the other: the room is not touched before they do.
    pub(crate) forest: Forest,
    /// Walks go along any tight arc, and not only along those from the level below.
    pub(crate) free: bool,
    /// What is kept apart at each node while leftovers go home: the room is not touched before there are some.
    pub(crate) apart: Vec<i64>,
    /// The key of the node that was settled last.
    last: i64,
    /// How far searches usually went of late.
    usual: i64,
    /// Long paths are passed over so far.
    is_limited: bool,
    /// How many nodes in deficit are looked for, and how many of them are settled.
    pub(crate) goals: usize,
    got: usize,
    /// How many nodes searches settled.
    pub(crate) settled_nodes: u64,
    /// Whether ascents may join searches, and whether they did.
    pub(crate) may_ascend: bool,
    pub(crate) ascended: bool,
    /// How many ends of arcs were looked at since the solve began.
    pub(crate) looks: u64,
    /// When pushes along one shortest path after the other are tried.
    pub(crate) trial: Trial,
    /// How many pushes were made after the last search.
    pub(crate) pushes: usize,
    /// Whether sets of nodes are looked for that have more than can leave them, and whether one was found.
    pub(crate) looks_for_surplus: bool,
    pub(crate) has_surplus: bool,
    /// The sides were too far away for pushes after a search.
    pub(crate) is_far: bool,
}

impl Model for Search {
    ghost use Rattle.std.specs.Prelude.{ℕ, ◌≡◌, ◌<◌, ◌^◌, length};

    ghost Value = { ℕ };

    ghost view = { λ s. length s.records.items };

    ghost invariant = { λ s. (length s.records.items < 2 ^ 31)
        × (length s.reaches.items ≡ length s.records.items)
        × (s.frontier ≡ length s.records.items)
        × (s.order ≡ length s.records.items) };
}

impl Search {
    /// A search of which nothing is begun.
    ///
    /// # Errors
    /// Memory for a table was refused.
    pub fn new(alloc: Global, entries: usize) -> Result<Search, AllocError>
        requires { entries < 2 ^ 31 }
        ensures { IfOk result (λ s. s ≡ entries) }
    {
        let known = both(
            vec![in alloc; NodeRecord::NEW; entries],
            vec![in alloc; FAR; entries],
        );
        let lists = both(Frontier::opened(alloc, entries), Nodes::new(alloc, entries));
        let walks = both(
            Vec::with_capacity(alloc, entries),
            Walk::new(alloc, entries),
        );
        let ((records, reaches), ((frontier, order), (apart, walk))) = both(
            known,
            both(lists, walks),
        )?;
        let forest = Forest::new(alloc, entries)?;
        Ok(Search {
            records,
            reaches,
            frontier,
            order,
            walk,
            forest,
            free: false,
            apart,
            last: 0,
            usual: 0,
            is_limited: false,
            goals: 0,
            got: 0,
            settled_nodes: 0,
            may_ascend: true,
            ascended: false,
            looks: 0,
            trial: Trial::NONE,
            pushes: 0,
            looks_for_surplus: false,
            has_surplus: false,
            is_far: false,
        })
    }

    /// How many nodes the last search settled.
    pub fn width(&self) -> usize {
        self.frontier.settled().listed().len()
    }

    /// Over how many arcs the last search went to the node that it settled last.
    pub fn levels(&self) -> u32 {
        let Some(v) = self.frontier.settled().listed().last() else {
            return 0;
        };
        match self.records.get(*v as usize) {
            Some(record) => record.depth,
            None => 0,
        }
    }

    /// The number of entries of a table of nodes.
    pub fn entries(&self) -> usize
        ensures { result ≡ self.now }
    {
        self.records.len()
    }

    /// Takes all nodes into searches again.
    pub fn start(&mut self)
        ensures { self.new ≡ self.old }
    {
        for v in 0..self.entries() {
            self.records[v].gone = false;
        }
    }

    /// Looks for paths from the nodes in excess until so many nodes in deficit are reached, or none is left to be settled;
    /// then those that were not reached are left out of further searches. Gives the greatest length where one was reached.
    #[inline(never)] // a name of its own in the program: `bench/count` counts its calls
    pub fn search<const AHEAD: bool>(&mut self, proposal: &Proposal, most: usize) -> Option<i64>
        requires { proposal.now ≡ self.old }
        ensures { self.new ≡ self.old }
    {
        self.begin::<AHEAD>(proposal, most);
        // Each node is taken once.
        for _ in 0..=self.entries() {
            if self.got >= self.goals {
                break;
            }
            match self.take_nearest::<AHEAD>(proposal) {
                Some(u) => self.look_on::<AHEAD>(proposal, u),
                None if self.is_limited => self.take_long_paths::<AHEAD>(proposal),
                None => {
                    self.leave_out::<AHEAD>(proposal);
                    break;
                }
            }
        }
        if self.got < self.goals.max(1) {
            self.look_for_surplus::<AHEAD>(proposal);
        }
        self.settled_nodes = self.settled_nodes.saturating_add(self.width() as u64);
        if self.got > 0 { Some(self.last) } else { None }
    }

    /// Begins at all nodes in excess, and looks for so many nodes in deficit, or for all; for none where no node is in excess.
    pub(crate) fn begin<const AHEAD: bool>(&mut self, proposal: &Proposal, most: usize)
        requires { proposal.now ≡ self.old }
        ensures { self.new ≡ self.old }
    {
        let limit = self.set_limit(most);
        self.frontier.forget();
        self.last = 0;
        self.got = 0;
        set_reaches::<AHEAD>(&mut self.reaches, proposal.potentials(), limit);
        let mut goals: usize = 0;
        for v in 0..self.entries() {
            // Most nodes are in balance.
            if proposal.rest(v) == 0 || self.records[v].gone {
                continue;
            }
            if proposal.is_root::<AHEAD>(v) {
                self.open(v, seen::<AHEAD>(proposal.potential(v)), 0, NO_PLACE);
                self.frontier.settle(v);
            } else if proposal.is_goal::<AHEAD>(v) {
                goals = goals.saturating_add(1);
            }
        }
        self.goals = if self.width() > 0 { goals.min(most) } else { 0 };
    }

    /// Writes down a path to a node that reaches so far.
    #[inline(always)]
    pub(crate) fn open(&mut self, v: usize, reach: i64, depth: u32, parent: u32)
        requires { v < self.old }
        ensures { self.new ≡ self.old }
    {
        self.reaches[v] = reach;
        let record = &mut self.records[v];
        record.depth = depth;
        record.parent = parent;
    }

    /// Sets up to which length a search for so many goals takes paths at first, and gives it.
    fn set_limit(&mut self, most: usize) -> i64
        ensures { self.new ≡ self.old }
    {
        let faded = self.usual.saturating_sub(self.usual / FADING);
        self.usual = faded.max(self.last);
        self.is_limited = self.usual > 0 && most < usize::MAX;
        if self.is_limited {
            self.usual.saturating_mul(WIDER).min(FAR)
        } else {
            FAR
        }
    }

    /// Takes long paths, too: looks once more at the nodes that are settled, whose arcs to others were passed over.
    #[inline(never)] // seldom called, from a loop that is to stay short
    fn take_long_paths<const AHEAD: bool>(&mut self, proposal: &Proposal)
        requires { proposal.now ≡ self.old }
        ensures { self.new ≡ self.old }
    {
        self.is_limited = false;
        for v in 0..self.entries() {
            if self.frontier.state(v) == State::New {
                self.reaches[v] = FAR;
            }
        }
        for k in 0..self.entries() {
            let Some(u) = self.frontier.settled().at(k) else {
                return;
            };
            self.look_on::<AHEAD>(proposal, u);
        }
    }

    /// Takes the nearest node that was not taken, whose shortest path is known by then.
    #[inline(always)]
    fn take_nearest<const AHEAD: bool>(&mut self, proposal: &Proposal) -> Option<usize>
        requires { proposal.now ≡ self.old }
        ensures kept { self.new ≡ self.old }
        ensures node { IfSome result (λ v. v < self.old) }
    {
        if let Some(u) = self.frontier.take() {
            return Some(u);
        }
        let u = self.frontier.settle_nearest(FAR)?;
        let potential = seen::<AHEAD>(proposal.potential(u));
        self.last = self.reaches[u].wrapping_sub(potential); // far within the range
        self.count::<AHEAD>(proposal, u);
        self.frontier.take()
    }

    /// Counts a node that is settled, if it is one that is looked for.
    #[inline(always)]
    fn count<const AHEAD: bool>(&mut self, proposal: &Proposal, v: usize)
        requires proposal { proposal.now ≡ self.old }
        requires node { v < self.old }
        ensures { self.new ≡ self.old }
    {
        if proposal.is_goal::<AHEAD>(v) && !self.records[v].gone {
            self.got = self.got.saturating_add(1);
        }
    }

    /// Looks at the residual arcs that lead on from a node.
    #[inline(always)]
    fn look_on<const AHEAD: bool>(&mut self, proposal: &Proposal, u: usize)
        requires proposal { proposal.now ≡ self.old }
        requires node { u < self.old }
        ensures { self.new ≡ self.old }
    {
        let reach = self.reaches[u];
        let depth = self.records[u].depth.wrapping_add(1);
        let links = proposal.ends().at(u).links;
        self.looks = self.looks.wrapping_add(links.len() as u64);
        let mut next = 0;
        while let Some(k) = nearer_from::<AHEAD>(&self.reaches, proposal, links, next, reach) {
            let link = &links[k];
            let reach = reach_over::<AHEAD>(reach, link, true);
            self.note::<AHEAD>(proposal, link, reach, depth);
            next = k + 1;
        }
    }

    /// Writes down a path that ends with this arc and reaches so far, if it is the best so far. A reduced cost below 0 counts
    /// as 0. Sums wrap, so that they are short: all are far within the range.
    #[inline(always)]
    fn note<const AHEAD: bool>(&mut self, proposal: &Proposal, link: &Link, reach: i64, depth: u32)
        requires proposal { proposal.now ≡ self.old }
        requires node { link.now.other < self.old }
        ensures { self.new ≡ self.old }
    {
        let v = link.other as usize;
        let potential = seen::<AHEAD>(proposal.potential(v));
        let reach = reach.max(self.last.wrapping_add(potential));
        if reach >= self.reaches[v] {
            return;
        }
        self.open(v, reach, depth, link.opposite);
        let key = reach.wrapping_sub(potential);
        if self.frontier.line_up(v, key, self.last) {
            self.count::<AHEAD>(proposal, v);
        }
    }

    /// Leaves out of further searches the nodes in deficit that were not settled.
    fn leave_out<const AHEAD: bool>(&mut self, proposal: &Proposal)
        requires { proposal.now ≡ self.old }
        ensures { self.new ≡ self.old }
    {
        for v in 0..self.entries() {
            if proposal.is_goal::<AHEAD>(v) && self.frontier.state(v) != State::Settled {
                self.records[v].gone = true;
            }
        }
    }
}

/// The first of these arcs, from one on, over which a path that reaches so far is the best yet to the node beyond. The loop
/// writes nothing, so that all it needs stays in registers: where it wrote, too, `asn_mw` took an eighth more time.
#[inline(always)]
pub(crate) fn nearer_from<const AHEAD: bool>(
    reaches: &[i64],
    proposal: &Proposal,
    links: &[Link],
    first: usize,
    reach: i64,
) -> Option<usize>
    requires { LeadTo (length reaches.now) links.now }
    ensures later { IfSome result (λ k. first ≤ k) }
    ensures one { IfSome result (λ k. k < length links.now) }
{
    for k in first..links.len() {
        let link = &links[k];
        let over = reach_over::<AHEAD>(reach, link, proposal.is_open(link.room::<AHEAD>()));
        if over < reaches[link.other as usize] {
            return Some(k);
        }
    }
    None
}

/// How far a path reaches that goes on over an arc, where searches use it: over another one further than any. The sum wraps,
/// as in `note`.
#[inline(always)]
pub(crate) fn reach_over<const AHEAD: bool>(reach: i64, link: &Link, is_open: bool) -> i64 {
    let over = if AHEAD {
        reach.wrapping_add(link.cost)
    } else {
        reach.wrapping_sub(link.cost)
    };
    if is_open { over } else { BARRED }
}

/// Makes a path to each node reach so far that it is as long as this, from nodes of these potentials, as a side sees them. The
/// sums are far within the range.
fn set_reaches<const AHEAD: bool>(reaches: &mut [i64], potentials: &[i64], most: i64)
    requires { length potentials.now ≡ length reaches.old }
    ensures { length reaches.new ≡ length reaches.old }
{
    for v in 0..reaches.len() {
        reaches[v] = if AHEAD {
            most.wrapping_add(potentials[v])
        } else {
            most.wrapping_sub(potentials[v])
        };
    }
}
