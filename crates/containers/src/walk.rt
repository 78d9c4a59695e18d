//! The walk of a blocking flow.

use std::alloc::{AllocError, Global};

/// An arc of a walk.
#[derive(Clone, Copy)]
struct Hop {
    /// The node that the walk came from, and the arc's place there.
    from: u32,
    place: u32,
    /// How much had been pushed when the walk took this arc, and how much has been when the arc is filled.
    before: i64,
    filled: i64,
    /// How much has been pushed when this arc or one before it in its row is filled.
    limit: i64,
}

/// An arc that a walk left: the node that the walk had come from, the arc's place there, and how much was pushed along it.
#[derive(Clone, Copy)]
pub struct Left {
    pub from: usize,
    pub place: u32,
    pub amount: i64,
}

/// Arcs one after the other, to which one is added and from which one is taken at the same end. One more than there was room
/// asked for is not taken, and the room is touched only where arcs are.
#[derive(Drop)]
struct Row {
    hops: Vec<Hop>,
}

impl Row {
    /// An empty row.
    ///
    /// # Errors
    /// Memory for the table was refused.
    fn new(alloc: Global, most: usize) -> Result<Row, AllocError> {
        let hops = Vec::with_capacity(alloc, most)?;
        Ok(Row { hops })
    }

    /// Adds an arc.
    #[inline(always)]
    fn add(&mut self, hop: Hop) {
        let limit = self.limit().min(hop.filled);
        if self.hops.len() < self.hops.capacity() {
            self.hops.push_reserved(Hop { limit, ..hop });
        }
    }

    /// How much has been pushed when an arc is filled.
    #[inline(always)]
    fn limit(&self) -> i64 {
        match self.hops.last() {
            Some(hop) => hop.limit,
            None => i64::MAX,
        }
    }

    /// The same of the last arc alone, if there is one.
    #[inline(always)]
    fn last_limit(&self) -> Option<i64> {
        let hop = self.hops.last()?;
        Some(hop.filled)
    }
}

/// Arcs one after the other, and how much was pushed along them. Flow is moved along an arc when it is taken off, so that a
/// push costs no more than the arcs that it fills. What lies beyond an arc that was filled is kept, as far as the root, where
/// the next walk may come upon it: so along 500 levels a push took a third of the steps. Sums wrap, so that they are short:
/// where they saturated, stairs took an eighth more.
#[derive(Drop)]
pub struct Walk {
    /// The arcs of the walk, from where it began.
    walked: Row,
    /// The arcs that are kept, from the root on.
    kept: Row,
    /// The root to which they lead.
    root: u32,
    pushed: i64,
}

impl Walk {
    /// An empty walk.
    ///
    /// # Errors
    /// Memory for a table was refused.
    pub fn new(alloc: Global, most: usize) -> Result<Walk, AllocError> {
        let walked = Row::new(alloc, most)?;
        let kept = Row::new(alloc, most)?;
        Ok(Walk {
            walked,
            kept,
            root: 0,
            pushed: 0,
        })
    }

    /// Begins anew.
    pub fn clear(&mut self) {
        self.walked.hops.clear();
        self.kept.hops.clear();
        self.root = 0;
        self.pushed = 0;
    }

    /// Goes on from a node by an arc of this place and room.
    #[inline(always)]
    pub fn add(&mut self, from: u32, place: u32, room: i64) {
        let filled = self.with_more(room);
        self.walked.add(Hop {
            from,
            place,
            before: self.pushed,
            filled,
            limit: filled,
        });
    }

    /// How much more fits along the walk and what is kept: at most `most`.
    pub fn room(&self, most: i64) -> i64 {
        let limit = self.walked.limit().min(self.kept.limit());
        most.min(limit.wrapping_sub(self.pushed))
    }

    /// Pushes from the root to the beginning of the walk.
    pub fn push(&mut self, amount: i64) {
        self.pushed = self.pushed.saturating_add(amount);
    }

    /// How much has been pushed after so much more.
    #[inline(always)]
    fn with_more(&self, more: i64) -> i64 {
        self.pushed.wrapping_add(more)
    }

    /// Whether so much fits along all arcs of the walk.
    #[inline(always)]
    pub fn is_open(&self, least: i64) -> bool {
        self.walked.limit() >= self.with_more(least)
    }

    /// Whether there is a last arc and so much fits along it.
    #[inline(always)]
    pub fn is_last_open(&self, least: i64) -> bool {
        match self.walked.last_limit() {
            Some(limit) => limit >= self.with_more(least),
            None => false,
        }
    }

    /// Whether so much fits along all arcs that are kept.
    #[inline(always)]
    pub fn is_kept_open(&self, least: i64) -> bool {
        self.kept.limit() >= self.with_more(least)
    }

    /// Whether an arc is kept and so much fits along that on which the walk would go on.
    #[inline(always)]
    pub fn is_next_open(&self, least: i64) -> bool {
        match self.kept.last_limit() {
            Some(limit) => limit >= self.with_more(least),
            None => false,
        }
    }

    /// Takes the last arc off.
    #[inline(always)]
    pub fn take(&mut self) -> Option<Left> {
        let hop = self.walked.hops.pop()?;
        Some(self.left(&hop))
    }

    /// Takes the arc off on which the walk would go on.
    #[inline(always)]
    pub fn take_kept(&mut self) -> Option<Left> {
        let hop = self.kept.hops.pop()?;
        Some(self.left(&hop))
    }

    /// What is told of an arc that is taken off.
    #[inline(always)]
    fn left(&self, hop: &Hop) -> Left {
        Left {
            from: hop.from as usize,
            place: hop.place,
            amount: self.pushed.wrapping_sub(hop.before),
        }
    }

    /// Keeps the last arc, and gives the node from which it goes on.
    #[inline(always)]
    pub fn keep(&mut self) -> Option<usize> {
        let hop = self.walked.hops.pop()?;
        self.kept.add(hop);
        Some(hop.from as usize)
    }

    /// Goes on along the next arc that is kept, and gives the node from which that goes on.
    #[inline(always)]
    pub fn go_on(&mut self) -> Option<usize> {
        let hop = self.kept.hops.pop()?;
        self.walked.add(hop);
        Some(hop.from as usize)
    }

    /// The node from which what is kept goes on; the root where no arc is kept.
    #[inline(always)]
    pub fn kept_from(&self) -> usize {
        match self.kept.hops.last() {
            Some(hop) => hop.from as usize,
            None => self.root as usize,
        }
    }

    /// The root to which what is kept leads; 0 where nothing was pushed yet.
    #[inline(always)]
    pub fn root(&self) -> usize {
        self.root as usize
    }

    /// Sets the root.
    pub fn set_root(&mut self, root: u32) {
        self.root = root;
    }
}
