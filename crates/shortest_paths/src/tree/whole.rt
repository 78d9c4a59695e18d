//! The whole tree of labels mended at once, where much of it changed: labels mostly move in large blocks, which hang together
//! as before.

ghost use Rattle.std.specs.Prelude.{◌≡◌, ◌<◌, length};
ghost use Rattle.shortest_paths.specs.Tree.{IsRelabelled, IsTreeOf};

use super::{FAR, MOST_SCANNED, Tree, entry, lowered, raised};
use crate::residual_network::Residual;
use crate::step::{Step, across, tail_of};
use containers::State;
use predecessors::Predecessor;

/// Where more than one node in so many was not reached, residual arcs from nodes that were are looked for.
const MOST_LEFT: usize = 4;

/// How often the arcs that changed are gone over at most.
const MOST_ROUNDS: usize = 8;

impl Tree {
    /// Makes the labels the potentials, shifted so that the greatest is 0, and mends the tree for these. What still
    /// hangs together is reached as a block; only nodes that are not reached so get other labels. Says whether all
    /// labels may be right now.
    pub(super) fn mend_whole(&mut self, residual: Residual<'_>, written: &[u32]) -> bool
        requires sized { IsTreeOf residual self.old }
        ensures sized { IsTreeOf residual.entry self.new }
        ensures marked { IsRelabelled self.old self.new }
    {
        self.begin();
        self.rejoin_touched(residual);
        self.relabel_all(residual);
        self.reach_tops(residual);
        self.reach_along_all(residual, written);
        self.reach_others(residual);
        self.release_others(residual);
        let most = residual.potentials.len() * MOST_SCANNED;
        self.scan_at_most(residual, most, true)
    }

    /// Makes the labels the potentials, less the greatest. No arc is at node 0.
    fn relabel_all(&mut self, residual: Residual<'_>)
        requires sized { IsTreeOf residual self.old }
        ensures sized { IsTreeOf residual.entry self.new }
        ensures marked { IsRelabelled self.old self.new }
    {
        let mut greatest = i64::MIN;
        for v in 1..residual.potentials.len() {
            greatest = greatest.max(residual.potentials[v]);
        }
        self.lower(greatest);
        for v in 1..residual.potentials.len() {
            let label = self.potential(residual, v);
            if label != self.labels[v] {
                let predecessor = self.predecessors[v];
                self.put(v, label, predecessor);
            }
        }
    }

    /// Reaches the nodes of label 0, and what hangs together with them.
    fn reach_tops(&mut self, residual: Residual<'_>)
        requires sized { IsTreeOf residual self.old }
        ensures sized { IsTreeOf residual.entry self.new }
        ensures marked { IsRelabelled self.old self.new }
    {
        for v in 0..residual.potentials.len() {
            if self.labels[v] >= 0 {
                self.reach(v as u32, 0, 0);
            }
        }
        self.reach_joined(residual, 0);
    }

    /// How many nodes were reached: each is settled.
    fn reached(&self) -> usize {
        self.frontier.settled().listed().len()
    }

    /// Whether a node was reached; one that is none was.
    #[inline(always)]
    fn is_reached(&self, v: u32) -> bool {
        let v = v as usize;
        v >= self.labels.len() || self.frontier.state(v) == State::Settled
    }

    /// Reaches nodes along the residual arcs that changed, as long as there is one: along a path of pushes blocks hang
    /// together.
    fn reach_along_all(&mut self, residual: Residual<'_>, written: &[u32])
        requires sized { IsTreeOf residual self.old }
        ensures sized { IsTreeOf residual.entry self.new }
        ensures marked { IsRelabelled self.old self.new }
    {
        self.loose.clear();
        for i in 0..self.changed(written) {
            let arc = self.changed_at(written, i);
            self.reach_along(residual, tail_of(arc));
            self.reach_along(residual, across(tail_of(arc)));
        }
        for _ in 0..MOST_ROUNDS {
            let before = self.reached();
            for i in 0..self.loose.len() {
                let end = entry(&self.loose, i);
                if let Some(step) = Step::at(residual, end) {
                    self.reach_beyond(residual, step.start, step.far, end);
                }
            }
            if self.reached() == before {
                return;
            }
        }
    }

    /// Reaches the node to which the residual arc leads at its label that leaves at an end, from one that was reached. If that
    /// was not, the end is kept in the list of loose nodes, for another try.
    fn reach_along(&mut self, residual: Residual<'_>, end: u32)
        requires sized { IsTreeOf residual self.old }
        ensures sized { IsTreeOf residual.entry self.new }
        ensures marked { IsRelabelled self.old self.new }
    {
        let Some(step) = Step::at(residual, end) else {
            return;
        };
        if self.is_reached(step.far)
            || !step.is_open
            || self.label_by(step) != self.labels[step.far as usize]
        {
            return;
        }
        if self.is_reached(step.start) {
            self.reach_beyond(residual, step.start, step.far, end);
        } else if self.loose.len() < self.loose.capacity() {
            self.loose.push_reserved(end);
        }
    }

    /// Reaches other nodes from those that were reached, where many are left: looked at are the ends at the nodes of the one
    /// sort, and at those of the other once they are fewer.
    fn reach_others(&mut self, residual: Residual<'_>)
        requires sized { IsTreeOf residual self.old }
        ensures sized { IsTreeOf residual.entry self.new }
        ensures marked { IsRelabelled self.old self.new }
    {
        let nodes = residual.potentials.len();
        if nodes.saturating_sub(self.reached()) <= nodes / MOST_LEFT {
            return;
        }
        for place in 0..nodes {
            let count = self.reached();
            if nodes.saturating_sub(count) < count.saturating_sub(place) {
                break;
            }
            let Some(u) = self.frontier.settled().at(place) else {
                return;
            };
            self.reach_at(residual, u as u32);
        }
        for v in 0..nodes {
            if !self.is_reached(v as u32) {
                self.reach_at(residual, v as u32);
            }
        }
    }

    /// Reaches nodes along the residual arcs that lead at their labels from a node that was reached, or to one that was not.
    fn reach_at(&mut self, residual: Residual<'_>, v: u32)
        requires sized { IsTreeOf residual self.old }
        requires node { v < length residual.potentials.now }
        ensures sized { IsTreeOf residual.entry self.new }
        ensures marked { IsRelabelled self.old self.new }
    {
        let ends = residual.ends.at(v as usize);
        let label = self.labels[v as usize];
        for i in 0..ends.links.len() {
            let link = ends.links[i];
            if raised(label, link.cost) != self.labels[link.other as usize] {
                continue;
            }
            let end = ends.numbers[i];
            if self.is_reached(v) {
                if link.room::<true>() > 0 {
                    self.reach_beyond(residual, v, link.other, end);
                }
            } else if link.room_back::<true>() > 0 {
                self.reach_beyond(residual, link.other, v, across(end));
            }
        }
    }

    /// Reaches a node from another one, if that was reached, along the residual arc that leaves at this end, and all that is
    /// joined to it.
    fn reach_beyond(&mut self, residual: Residual<'_>, start: u32, far: u32, end: u32)
        requires sized { IsTreeOf residual self.old }
        requires start { start < length residual.potentials.now }
        ensures sized { IsTreeOf residual.entry self.new }
        ensures marked { IsRelabelled self.old self.new }
    {
        if self.is_reached(far) || !self.is_reached(start) {
            return;
        }
        let place = self.reached();
        let rank = self.rank_beyond(start);
        self.reach(far, end, rank);
        self.reach_joined(residual, place);
    }

    /// Reaches a node that was not reached, and has this end and this rank tell how it got its label, unless it is told by that
    /// end and its rank is as high.
    #[inline(always)]
    fn reach(&mut self, v: u32, end: u32, rank: u32)
        ensures sized { length self.new.labels ≡ length self.old.labels }
        ensures marked { IsRelabelled self.old self.new }
    {
        let place = v as usize;
        if place >= self.labels.len() || self.is_reached(v) {
            return;
        }
        let before = self.predecessors[place];
        if before.end != end || before.rank < rank {
            let predecessor = Predecessor {
                end,
                rank,
                is_open: false,
            };
            let label = self.labels[place];
            self.put(place, label, predecessor);
        }
        self.frontier.settle(place);
    }

    /// Reaches all that hangs together with the nodes that were reached, from this one on in the order in which they were.
    fn reach_joined(&mut self, residual: Residual<'_>, from: usize)
        requires sized { IsTreeOf residual self.old }
        ensures sized { IsTreeOf residual.entry self.new }
        ensures marked { IsRelabelled self.old self.new }
    {
        for place in from..residual.potentials.len() {
            let Some(v) = self.frontier.settled().at(place) else {
                return;
            };
            self.reach_from(v as u32);
        }
    }

    /// Reaches the nodes that hang on a node, and the one on which it hangs, where the residual arc leads there at its label.
    fn reach_from(&mut self, v: u32)
        requires node { v < length self.old.labels }
        ensures sized { length self.new.labels ≡ length self.old.labels }
        ensures marked { IsRelabelled self.old self.new }
    {
        let label = self.labels[v as usize];
        let rank = self.rank_beyond(v);
        let joint = self.forest.joint(v);
        if joint.above != 0
            && joint.is_open_back
            && self.has_label(joint.above, lowered(label, joint.cost))
        {
            self.reach(joint.above, across(joint.end), rank);
        }
        let mut below = joint.first;
        for _ in 0..self.labels.len() {
            if below == 0 {
                return;
            }
            let joint = self.forest.joint(below);
            if joint.is_open && self.has_label(below, raised(label, joint.cost)) {
                self.reach(below, joint.end, rank);
            }
            below = joint.next;
        }
    }

    /// Whether this is the label of a node.
    #[inline(always)]
    fn has_label(&self, v: u32, label: i64) -> bool {
        (v as usize) < self.labels.len() && self.labels[v as usize] == label
    }

    /// Has the nodes that were not reached wait: with the labels that those which were lead to, where these are most, and else
    /// with label 0, since the others are scanned too.
    fn release_others(&mut self, residual: Residual<'_>)
        requires sized { IsTreeOf residual self.old }
        ensures sized { IsTreeOf residual.entry self.new }
        ensures marked { IsRelabelled self.old self.new }
    {
        let nodes = residual.potentials.len();
        let are_few = self.reached() > nodes / 2;
        self.loose.clear();
        for v in 0..nodes {
            if self.is_reached(v as u32) {
                continue;
            }
            if !are_few {
                self.wait(residual, v as u32, 0, Predecessor::root());
            } else if self.loose.len() < self.loose.capacity() {
                self.loose.push_reserved(v as u32);
                let predecessor = self.predecessors[v];
                self.put(v, FAR, predecessor);
            }
        }
        if are_few {
            self.begin();
            self.hang_all(residual);
        }
    }
}
