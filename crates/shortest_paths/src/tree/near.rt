//! The tree of labels mended near the arcs that changed, where few nodes are to be looked at.

ghost use Rattle.std.specs.Prelude.{◌≡◌, ◌<◌, length};
ghost use Rattle.shortest_paths.specs.Tree.{IsRelabelled, IsTreeOf};

use super::{FAR, Tree, lowered};
use crate::residual_network::Residual;
use crate::step::{Step, across, tail_of};
use predecessors::Predecessor;

/// While fewer nodes are loose, one that lost its predecessor is hung on another node at the same label, if there is
/// one.
const FEW_LOOSE: usize = 64;

/// Where more than one node in so many is loose, or is scanned, the whole tree is mended.
const MOST_LOOSE: usize = 8;

/// Once one node in so many is loose, or scanned, it is asked whether many nodes moved.
const SOME_LOOSE: usize = 64;

/// Where more than one node in so many moved, the whole tree is mended.
const MOST_MOVED: usize = 8;

/// One node in so many is asked.
const A_SAMPLE: usize = 13;

impl Tree {
    /// Mends the tree there, if few nodes are to be looked at, and says whether that was so.
    pub(super) fn mend_near(&mut self, residual: Residual<'_>, written: &[u32]) -> bool
        requires sized { IsTreeOf residual self.old }
        ensures sized { IsTreeOf residual.entry self.new }
        ensures marked { IsRelabelled self.old self.new }
    {
        self.begin();
        self.loose.clear();
        for i in 0..self.changed(written) {
            let arc = self.changed_at(written, i);
            self.loosen_along(residual, tail_of(arc));
            self.loosen_along(residual, across(tail_of(arc)));
        }
        if !self.loosen_below(residual) {
            return false;
        }
        self.hang_all(residual);
        for i in 0..self.changed(written) {
            let arc = self.changed_at(written, i);
            self.improve_along(residual, tail_of(arc));
            self.improve_along(residual, across(tail_of(arc)));
        }
        let nodes = residual.potentials.len();
        self.scan_at_most(residual, nodes / SOME_LOOSE, false)
            || (!self.have_many_moved(residual)
                && self.scan_at_most(residual, nodes / MOST_LOOSE, false))
    }

    /// Loosens the node that hangs on the residual arc that leaves at an end, unless that still leads to it, and its label is
    /// no lower than by it.
    fn loosen_along(&mut self, residual: Residual<'_>, end: u32)
        requires sized { IsTreeOf residual self.old }
        ensures sized { IsTreeOf residual.entry self.new }
        ensures marked { IsRelabelled self.old self.new }
    {
        let Some(step) = Step::at(residual, end) else {
            return;
        };
        let label = self.labels[step.far as usize];
        let leads = step.is_open && self.label_by(step) <= label;
        if self.hangs(step.far, end) && !leads {
            self.loosen(residual, step.far);
        }
    }

    /// Whether a node that is not loose hangs on the residual arc that leaves at this end.
    fn hangs(&self, v: u32, end: u32) -> bool
        requires node { v < length self.now.labels }
    {
        self.predecessors[v as usize].end == end && self.labels[v as usize] < 0
    }

    /// Loosens a node, unless it can hang on another one at its label while few are loose.
    fn loosen(&mut self, residual: Residual<'_>, v: u32)
        requires sized { IsTreeOf residual self.old }
        requires node { v < length residual.potentials.now }
        ensures sized { IsTreeOf residual.entry self.new }
        ensures marked { IsRelabelled self.old self.new }
    {
        if self.loose.len() < FEW_LOOSE && self.rehang(residual, v) {
            return;
        }
        if self.loose.len() < self.loose.capacity() {
            self.loose.push_reserved(v);
            let predecessor = self.predecessors[v as usize];
            self.put(v as usize, FAR, predecessor);
        }
    }

    /// Hangs a node at its label on another node of lower rank, where there is one.
    fn rehang(&mut self, residual: Residual<'_>, v: u32) -> bool
        requires sized { IsTreeOf residual self.old }
        requires node { v < length residual.potentials.now }
        ensures sized { IsTreeOf residual.entry self.new }
        ensures marked { IsRelabelled self.old self.new }
    {
        let label = self.labels[v as usize];
        let hung = self.predecessors[v as usize];
        let mut end = hung.end;
        let ends = residual.ends.at(v as usize);
        for i in 0..ends.links.len() {
            let link = ends.links[i];
            if lowered(self.labels[link.other as usize], link.cost) == label
                && link.room_back::<true>() > 0
                && self.predecessors[link.other as usize].rank < hung.rank
            {
                end = across(ends.numbers[i]);
                break;
            }
        }
        if end == hung.end {
            return false;
        }
        self.put(v as usize, label, Predecessor { end, ..hung });
        self.forest.hang(residual, v, end);
        true
    }

    /// Loosens the nodes that hang on loose ones, and says whether all were gone over.
    fn loosen_below(&mut self, residual: Residual<'_>) -> bool
        requires sized { IsTreeOf residual self.old }
        ensures sized { IsTreeOf residual.entry self.new }
        ensures marked { IsRelabelled self.old self.new }
    {
        let nodes = residual.potentials.len();
        for i in 0..nodes / MOST_LOOSE {
            if i >= self.loose.len() {
                return true;
            }
            if i == nodes / SOME_LOOSE && self.have_many_moved(residual) {
                return false;
            }
            let u = self.loose[i];
            self.loosen_beyond(residual, u);
        }
        false
    }

    /// Loosens the nodes that hang on a node.
    fn loosen_beyond(&mut self, residual: Residual<'_>, u: u32)
        requires sized { IsTreeOf residual self.old }
        ensures sized { IsTreeOf residual.entry self.new }
        ensures marked { IsRelabelled self.old self.new }
    {
        if u as usize >= residual.potentials.len() {
            return;
        }
        let mut below = self.forest.joint(u).first;
        for _ in 0..residual.potentials.len() {
            if below as usize >= residual.potentials.len() || below == 0 {
                return;
            }
            let joint = self.forest.joint(below);
            if self.hangs(below, joint.end) {
                self.loosen(residual, below);
            }
            below = joint.next;
        }
    }

    /// Whether the potentials are further from the labels, or nearer, at many nodes than they are at most.
    fn have_many_moved(&self, residual: Residual<'_>) -> bool {
        let usual = self.usual_gap(residual);
        let seen = residual.potentials.len() / A_SAMPLE;
        let mut moved: usize = 0;
        for i in 0..seen {
            if self.gap(residual, i * A_SAMPLE) != usual {
                moved = moved.saturating_add(1);
            }
        }
        moved > seen / MOST_MOVED
    }

    /// How far potentials are from labels at most nodes, if it is the same at so many.
    fn usual_gap(&self, residual: Residual<'_>) -> i64 {
        let mut usual = 0;
        let mut votes: usize = 0;
        for i in 0..residual.potentials.len() / A_SAMPLE {
            let gap = self.gap(residual, i * A_SAMPLE);
            if gap == usual {
                votes = votes.saturating_add(1);
            } else if votes > 0 {
                votes = votes.saturating_sub(1);
            } else {
                usual = gap;
                votes = 1;
            }
        }
        usual
    }

    /// How far the potential of a node is from its label.
    fn gap(&self, residual: Residual<'_>, v: usize) -> i64 {
        if v < residual.potentials.len() && v < self.labels.len() {
            lowered(residual.potentials[v], self.labels[v])
        } else {
            0
        }
    }

    /// Improves the label to which the residual arc leads that leaves at an end.
    fn improve_along(&mut self, residual: Residual<'_>, end: u32)
        requires sized { IsTreeOf residual self.old }
        ensures sized { IsTreeOf residual.entry self.new }
        ensures marked { IsRelabelled self.old self.new }
    {
        let Some(step) = Step::at(residual, end) else {
            return;
        };
        let label = self.label_by(step);
        if step.is_open && label < self.labels[step.far as usize] {
            let predecessor = self.beyond(step.start, end);
            self.wait(residual, step.far, label, predecessor);
        }
    }
}
