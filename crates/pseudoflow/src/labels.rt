//! The labels of nodes, and the roots in excess that wait by theirs.

use crate::forest::Forest;
use std::alloc::{AllocError, Global};

/// The nodes of one label: how many there are, and the first and the last root of them that waits.
#[derive(Clone, Copy)]
struct Level {
    nodes: usize,
    first: u32,
    last: u32,
}

impl Level {
    const EMPTY: Level = Level {
        nodes: 0,
        first: 0,
        last: 0,
    };
}

/// Trees, and the labels of their nodes. A residual arc leads at most one label down.
#[derive(Drop)]
pub(crate) struct Labels {
    pub forest: Forest,
    levels: Vec<Level>,
    /// No root that waits has a greater label.
    pub highest: u32,
}

impl Labels {
    /// Room for so many entries of nodes.
    ///
    /// # Errors
    /// Memory for a table was refused.
    pub fn new(alloc: Global, entries: usize) -> Result<Labels, AllocError> {
        let forest = Forest::new(alloc, entries)?;
        let levels = Vec::with_capacity(alloc, entries)?;
        Ok(Labels {
            forest,
            levels,
            highest: 0,
        })
    }

    /// Makes each node a tree by itself, of label 0.
    pub fn begin(&mut self) {
        self.forest.begin();
        self.levels.clear();
        let _filled = self.levels.resize(self.levels.capacity(), Level::EMPTY);
        let nodes = self.forest.entries().saturating_sub(1);
        if let Some(level) = self.levels.get_mut(0) {
            level.nodes = nodes;
        }
        self.highest = 1;
    }

    /// The nodes of a label.
    #[inline(always)]
    fn level(&self, label: u32) -> Level {
        match self.levels.get(label as usize) {
            Some(level) => *level,
            None => Level::EMPTY,
        }
    }

    /// Gives a node a label.
    #[inline(always)]
    pub fn set(&mut self, v: u32, label: u32) {
        let was = self.forest.set_label(v, label);
        if let Some(level) = self.levels.get_mut(was as usize) {
            level.nodes = level.nodes.saturating_sub(1);
        }
        if let Some(level) = self.levels.get_mut(label as usize) {
            level.nodes = level.nodes.saturating_add(1);
        }
    }

    /// Gives a node the next label.
    #[inline(always)]
    pub fn raise(&mut self, v: u32) {
        let label = self.forest.label(v).saturating_add(1);
        self.set(v, label);
    }

    /// Lets a root wait behind those of its label.
    #[inline(always)]
    pub fn wait(&mut self, v: u32) {
        let label = self.forest.label(v);
        if let Some(branch) = self.forest.at_mut(v) {
            branch.behind = 0;
        }
        let Some(level) = self.levels.get_mut(label as usize) else {
            return;
        };
        let last = level.last;
        level.last = v;
        if level.first == 0 {
            level.first = v;
        } else if let Some(before) = self.forest.at_mut(last) {
            before.behind = v;
        }
    }

    /// Takes the first root of a label that waits.
    #[inline(always)]
    fn take(&mut self, label: u32) -> Option<u32> {
        let first = self.level(label).first;
        if first == 0 {
            return None;
        }
        let behind = self.forest.at(first).behind;
        if let Some(level) = self.levels.get_mut(label as usize) {
            level.first = behind;
        }
        Some(first)
    }

    /// Takes a root of the greatest label. Where no node has the label below, no residual path leads from there to a deficit,
    /// and the trees are set aside.
    pub fn take_highest(&mut self) -> Option<u32> {
        let highest = self.highest;
        for k in 0..highest {
            let label = highest - k;
            if self.level(label).first == 0 {
                continue;
            }
            if self.level(label - 1).nodes > 0 {
                self.highest = label;
                return self.take(label);
            }
            self.set_aside(label);
        }
        self.raise_lowest();
        self.highest = 1;
        self.take(1)
    }

    /// Sets the trees aside whose roots of this label wait.
    fn set_aside(&mut self, label: u32) {
        for _ in 0..self.forest.entries() {
            let Some(root) = self.take(label) else {
                return;
            };
            self.lift(root);
        }
    }

    /// Gives all nodes of a tree a label that none comes to.
    fn lift(&mut self, root: u32) {
        let mut v = root;
        for _ in 0..self.forest.entries() {
            self.set(v, u32::MAX);
            let Some(next) = self.forest.after(v, root) else {
                return;
            };
            v = next;
        }
    }

    /// Raises the roots of label 0 that wait: they came into excess.
    fn raise_lowest(&mut self) {
        for _ in 0..self.forest.entries() {
            let Some(root) = self.take(0) else {
                return;
            };
            self.raise(root);
            self.wait(root);
        }
    }
}
