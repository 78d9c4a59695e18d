//! Lists of places of arcs' ends.

use std::alloc::{AllocError, Global};

/// The place of no arc.
pub const NO_PLACE: u32 = u32::MAX;

/// Places in the order in which they came, as many as there was room asked for: one more is not listed. The room is
/// touched only where places are listed.
#[derive(Drop)]
pub struct Places {
    list: Vec<u32>,
}

impl Places {
    /// An empty list.
    ///
    /// # Errors
    /// Memory for the list was refused.
    pub fn new(alloc: Global, most: usize) -> Result<Places, AllocError> {
        let list = Vec::with_capacity(alloc, most)?;
        Ok(Places { list })
    }

    /// Forgets all.
    pub fn clear(&mut self) {
        self.list.clear();
    }

    /// Lists a place behind the others.
    #[inline(always)]
    pub fn add(&mut self, place: u32) {
        if self.list.len() < self.list.capacity() {
            self.list.push_reserved(place);
        }
    }

    /// Whether there is no room for one more.
    #[inline(always)]
    pub fn is_full(&self) -> bool {
        self.list.len() >= self.list.capacity()
    }

    /// Those that are listed.
    pub fn listed(&self) -> &[u32] {
        &self.list
    }
}
