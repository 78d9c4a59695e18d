//! How nodes stand in trees.

use containers::both;
use std::alloc::{AllocError, Global};

/// How a node stands in its tree. Node 0 stands for none.
#[derive(Clone, Copy)]
pub struct Branch {
    /// The node above it, and the place, at the node itself, of the arc that leads there.
    pub above: u32,
    pub place: u32,
    /// The first node that hangs on it.
    pub first: u32,
    /// The nodes behind it and before it among those that hang on the same node.
    pub next: u32,
    pub before: u32,
    /// The node that hangs on it at which a visit goes on.
    pub visit: u32,
    /// How many of its ends lead to no node that is nearer, as long as it has this label.
    pub current: u32,
    /// The root that waits behind it.
    pub behind: u32,
}

impl Branch {
    /// A node that is a tree by itself.
    const ALONE: Branch = Branch {
        above: 0,
        place: u32::MAX,
        first: 0,
        next: 0,
        before: 0,
        visit: 0,
        current: 0,
        behind: 0,
    };
}

/// The trees of all nodes. Their room is touched only once there is a tree.
#[derive(Drop)]
pub struct Forest {
    branches: Vec<Branch>,
    /// How far each node is from the deficits at least: a table of its own, since most looks ask for this alone.
    labels: Vec<u32>,
    /// How many steps were taken: looks at ends and at nodes, arcs that were turned round or pushed along.
    pub steps: u64,
}

impl Forest {
    /// Room for so many entries of nodes.
    ///
    /// # Errors
    /// Memory for the table was refused.
    pub fn new(alloc: Global, entries: usize) -> Result<Forest, AllocError> {
        let branches = Vec::with_capacity(alloc, entries);
        let (branches, labels) = both(branches, Vec::with_capacity(alloc, entries))?;
        Ok(Forest {
            branches,
            labels,
            steps: 0,
        })
    }

    /// Makes each node a tree by itself, of label 0.
    pub fn begin(&mut self) {
        self.branches.clear();
        let _filled = self
            .branches
            .resize(self.branches.capacity(), Branch::ALONE);
        self.labels.clear();
        let _filled = self.labels.resize(self.labels.capacity(), 0);
        self.steps = 0;
    }

    /// Counts steps.
    #[inline(always)]
    pub fn count(&mut self, steps: u64) {
        self.steps = self.steps.saturating_add(steps);
    }

    /// The number of entries of nodes.
    pub fn entries(&self) -> usize {
        self.branches.len()
    }

    /// How a node stands.
    #[inline(always)]
    pub fn at(&self, v: u32) -> Branch {
        match self.branches.get(v as usize) {
            Some(branch) => *branch,
            None => Branch::ALONE,
        }
    }

    /// The same, to be changed, if it is a node.
    #[inline(always)]
    pub fn at_mut(&mut self, v: u32) -> Option<&mut Branch> {
        self.branches.get_mut(v as usize)
    }

    /// The label of a node.
    #[inline(always)]
    pub fn label(&self, v: u32) -> u32 {
        match self.labels.get(v as usize) {
            Some(label) => *label,
            None => u32::MAX,
        }
    }

    /// Gives a node a label, and gives the one that it had.
    #[inline(always)]
    pub fn set_label(&mut self, v: u32, label: u32) -> u32 {
        let was = self.label(v);
        if let Some(own) = self.labels.get_mut(v as usize) {
            *own = label;
        }
        if let Some(branch) = self.at_mut(v) {
            branch.current = 0;
        }
        was
    }

    /// Hangs a root on a node, by the arc at this place.
    #[inline(always)]
    pub fn hang(&mut self, v: u32, above: u32, place: u32) {
        let next = self.at(above).first;
        if let Some(own) = self.at_mut(v) {
            own.above = above;
            own.place = place;
            own.next = next;
            own.before = 0;
        }
        if let Some(branch) = self.at_mut(next) {
            branch.before = v;
        }
        if let Some(branch) = self.at_mut(above) {
            branch.first = v;
        }
    }

    /// Makes a node a root, and gives how it stood. A visit that would go on at it goes on behind it.
    #[inline(always)]
    pub fn cut(&mut self, v: u32) -> Branch {
        let was = self.at(v);
        if was.above == 0 {
            return was;
        }
        if let Some(own) = self.at_mut(v) {
            own.above = 0;
        }
        if let Some(branch) = self.at_mut(was.next) {
            branch.before = was.before;
        }
        if was.before != 0 {
            if let Some(branch) = self.at_mut(was.before) {
                branch.next = was.next;
            }
        }
        if let Some(above) = self.at_mut(was.above) {
            if was.before == 0 {
                above.first = was.next;
            }
            if above.visit == v {
                above.visit = was.next;
            }
        }
        was
    }

    /// Makes a node a tree by itself, whatever hung on it.
    #[inline(always)]
    pub fn free(&mut self, v: u32) {
        if let Some(own) = self.at_mut(v) {
            *own = Branch::ALONE;
        }
    }

    /// The next node that hangs on one and has its label, in a visit of these.
    #[inline(always)]
    pub fn next_alike(&mut self, u: u32) -> Option<u32> {
        let label = self.label(u);
        let mut v = self.at(u).visit;
        for _ in 0..self.entries() {
            if v == 0 {
                break;
            }
            self.count(1);
            let next = self.at(v).next;
            if self.label(v) == label {
                self.go_on(u, next);
                return Some(v);
            }
            v = next;
        }
        self.go_on(u, 0);
        None
    }

    /// Has the visit of the nodes that hang on one go on at this one.
    #[inline(always)]
    fn go_on(&mut self, u: u32, v: u32) {
        if let Some(branch) = self.at_mut(u) {
            branch.visit = v;
        }
    }

    /// Begins a visit of the nodes that hang on one.
    #[inline(always)]
    pub fn begin_visit(&mut self, u: u32) {
        let first = self.at(u).first;
        self.go_on(u, first);
    }

    /// The node that comes after one in a tree, each node before those that hang on it; none after the last.
    #[inline(always)]
    pub fn after(&mut self, v: u32, root: u32) -> Option<u32> {
        let branch = self.at(v);
        if branch.first != 0 {
            return Some(branch.first);
        }
        let mut u = v;
        for _ in 0..self.entries() {
            if u == root || u == 0 {
                return None;
            }
            self.count(1);
            let branch = self.at(u);
            if branch.next != 0 {
                return Some(branch.next);
            }
            u = branch.above;
        }
        None
    }
}
