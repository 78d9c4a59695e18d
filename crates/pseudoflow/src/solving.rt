//! Excess that is pushed on from tree to tree.

ghost use Rattle.std.specs.Prelude.{◌≡◌, ◌<◌, IfSome, length};

use crate::forest::Forest;
use crate::labels::Labels;
use relaxation::Proposal;
use residual_ends::Link;
use std::alloc::{AllocError, Global};

/// The most steps for each end of an arc. GENRMF's wide networks take up to 20, meshes up to 18, other families 10 or less; a
/// network that Cherkassky and Goldberg drew to be hard would take thousands.
const STEPS: u64 = 24;

/// Trees, by which excess is pushed to deficits.
#[derive(Drop)]
pub struct Pseudoflow {
    labels: Labels,
}

/// A residual arc to a node that is nearer: its place at the node from which it leads, and the node beyond.
#[derive(Clone, Copy)]
struct Merger {
    place: u32,
    other: u32,
}

impl Pseudoflow {
    /// Room for so many entries of nodes.
    ///
    /// # Errors
    /// Memory for a table was refused.
    pub fn new(alloc: Global, entries: usize) -> Result<Pseudoflow, AllocError> {
        let labels = Labels::new(alloc, entries)?;
        Ok(Pseudoflow { labels })
    }

    /// Pushes what lies in excess, as a side sees it, to nodes in deficit over any arcs with room, until none leads from one to
    /// the other or it took too long. What is left in excess may lie at other nodes than before.
    #[inline(never)] // a name of its own in the program: `bench/count` counts its calls
    pub fn push_all<const AHEAD: bool>(&mut self, proposal: &mut Proposal)
        ensures { proposal.new ≡ proposal.old }
    {
        if !is_apart::<AHEAD>(proposal) {
            return;
        }
        let most = STEPS.saturating_mul(proposal.ends().count() as u64);
        fill_all::<AHEAD>(proposal);
        self.begin::<AHEAD>(proposal);
        for _ in 0..most {
            let Some(root) = self.labels.take_highest() else {
                return;
            };
            self.serve::<AHEAD>(proposal, root);
            if self.labels.forest.steps > most {
                return;
            }
        }
    }

    /// Makes each node a tree, and lets those in excess wait.
    fn begin<const AHEAD: bool>(&mut self, proposal: &Proposal) {
        self.labels.begin();
        for v in 1..proposal.entries() {
            let Ok(node) = u32::try_from(v) else {
                return;
            };
            if proposal.excess::<AHEAD>(v) > 0 {
                self.labels.raise(node);
                self.labels.wait(node);
            }
        }
    }

    /// Looks at the nodes of a tree that have its root's label for a way on, each before those that hang on it, and gives the
    /// others the next label; where there is one, hangs the tree on there and pushes.
    fn serve<const AHEAD: bool>(&mut self, proposal: &mut Proposal, root: u32)
        ensures { proposal.new ≡ proposal.old }
    {
        let mut v = root;
        for _ in 0..=self.labels.forest.entries() {
            self.labels.forest.begin_visit(v);
            if let Some(merger) = self.find_merger::<AHEAD>(proposal, v) {
                self.merge(proposal, v, merger);
                self.push_from::<AHEAD>(proposal, root);
                return;
            }
            let Some(next) = self.next_node(v) else {
                self.labels.wait(root);
                self.labels.highest = self.labels.highest.saturating_add(1);
                return;
            };
            v = next;
        }
    }

    /// The first end of a node, from where it was looked at before, that leads one label down.
    #[inline(always)]
    fn find_merger<const AHEAD: bool>(&mut self, proposal: &Proposal, v: u32) -> Option<Merger> {
        if v as usize >= proposal.entries() {
            return None;
        }
        let below = self.labels.highest.saturating_sub(1);
        let ends = proposal.ends().at(v as usize);
        let first = self.labels.forest.at(v).current as usize;
        let found = first_below::<AHEAD>(&self.labels.forest, ends.links, first, below);
        let current = found.unwrap_or(ends.links.len());
        let looks = current.saturating_sub(first) as u64;
        self.labels.forest.count(looks.saturating_add(1));
        if let Some(branch) = self.labels.forest.at_mut(v) {
            branch.current = current as u32;
        }
        let k = found?;
        Some(Merger {
            place: ends.first + k as u32,
            other: ends.links[k].other,
        })
    }

    /// The next node of a visit after one of which all ends were looked at; what is done with gets the next label.
    fn next_node(&mut self, v: u32) -> Option<u32> {
        let mut u = v;
        for _ in 0..self.labels.forest.entries() {
            if let Some(next) = self.labels.forest.next_alike(u) {
                return Some(next);
            }
            self.labels.raise(u);
            u = self.labels.forest.at(u).above;
            if u == 0 {
                return None;
            }
        }
        None
    }

    /// Hangs a tree by one of its nodes on a node of another tree: the arcs from there to its root are turned round.
    fn merge(&mut self, proposal: &Proposal, v: u32, merger: Merger) {
        let mut v = v;
        let mut place = merger.place;
        let mut above = merger.other;
        for _ in 0..self.labels.forest.entries() {
            let was = self.labels.forest.cut(v);
            self.labels.forest.hang(v, above, place);
            self.labels.forest.count(1);
            if was.above == 0 {
                return;
            }
            let Some(link) = proposal.ends().link(was.place) else {
                return;
            };
            place = link.opposite;
            above = v;
            v = was.above;
        }
    }

    /// Pushes what lies at a node on to the root of its tree, as far as the arcs have room: where one is filled, what is left
    /// makes the node before it a root that waits.
    fn push_from<const AHEAD: bool>(&mut self, proposal: &mut Proposal, v: u32)
        ensures { proposal.new ≡ proposal.old }
    {
        let mut v = v;
        let mut was_strong = true;
        for _ in 0..=self.labels.forest.entries() {
            if v as usize >= proposal.entries() {
                return;
            }
            let excess = proposal.excess::<AHEAD>(v as usize);
            if excess <= 0 {
                return;
            }
            let branch = self.labels.forest.at(v);
            if branch.above == 0 || branch.above as usize >= proposal.entries() {
                break;
            }
            let Some(link) = proposal.ends().link(branch.place) else {
                return;
            };
            was_strong = proposal.excess::<AHEAD>(branch.above as usize) > 0;
            let amount = excess.min(link.room::<AHEAD>());
            proposal.push::<AHEAD>(branch.place, amount);
            self.labels.forest.count(1);
            if amount < excess {
                let _was = self.labels.forest.cut(v);
                self.labels.wait(v);
            }
            v = branch.above;
        }
        if !was_strong {
            self.labels.wait(v);
        }
    }
}

/// Fills all arcs from each node that has more than can leave it.
fn fill_all<const AHEAD: bool>(proposal: &mut Proposal)
    ensures { proposal.new ≡ proposal.old }
{
    for v in 1..proposal.entries() {
        fill_from::<AHEAD>(proposal, v);
    }
}

/// Fills all arcs from a node that has more than can leave it.
fn fill_from<const AHEAD: bool>(proposal: &mut Proposal, v: usize)
    requires { v < proposal.old }
    ensures { proposal.new ≡ proposal.old }
{
    let excess = proposal.excess::<AHEAD>(v);
    if excess <= 0 {
        return;
    }
    if excess < room_from::<AHEAD>(proposal, v) {
        return;
    }
    let ends = proposal.ends().at(v);
    let (first, count) = (ends.first, ends.links.len() as u32);
    for k in 0..count {
        let place = first.saturating_add(k);
        if let Some(link) = proposal.ends().link(place) {
            proposal.push::<AHEAD>(place, link.room::<AHEAD>());
        }
    }
}

/// How much can leave a node.
fn room_from<const AHEAD: bool>(proposal: &Proposal, v: usize) -> i64
    requires { v < proposal.now }
{
    let mut room: i64 = 0;
    for link in proposal.ends().at(v).links {
        room = room.saturating_add(link.room::<AHEAD>());
    }
    room
}

/// The first of these ends, from one on, over which a residual arc leads to a node of this label.
#[inline(always)]
fn first_below<const AHEAD: bool>(
    forest: &Forest,
    links: &[Link],
    first: usize,
    below: u32,
) -> Option<usize>
    ensures { IfSome result (λ k. k < length links.now) }
{
    for k in first..links.len() {
        let link = &links[k];
        if link.room::<AHEAD>() > 0 && forest.label(link.other) == below {
            return Some(k);
        }
    }
    None
}

/// Whether some node is in excess and another one in deficit, as a side sees it.
fn is_apart<const AHEAD: bool>(proposal: &Proposal) -> bool {
    let mut has_excess = false;
    let mut has_deficit = false;
    for v in 0..proposal.entries() {
        let excess = proposal.excess::<AHEAD>(v);
        has_excess = has_excess || excess > 0;
        has_deficit = has_deficit || excess < 0;
    }
    has_excess && has_deficit
}
