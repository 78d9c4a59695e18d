//! Lists of arcs or of nodes, each once.

use crate::places::Places;
use std::alloc::{AllocError, Global};
use std::marker::Model;

/// Arcs, or nodes, in the order in which they were first noted, each once. Their numbers are below a limit, as which
/// the list is seen; until it is opened the limit is 0, nothing is listed, and its room is not touched.
#[derive(Drop)]
pub struct Noted {
    marks: Vec<bool>,
    arcs: Places,
}

impl Model for Noted {
    ghost use Rattle.std.specs.Prelude.{ℕ, length};

    ghost Value = { ℕ };

    ghost view = { λ n. length n.marks.items };
}

impl Noted {
    /// An empty list that is not open yet.
    ///
    /// # Errors
    /// Memory for a table was refused.
    pub fn new(alloc: Global, arcs: usize) -> Result<Noted, AllocError> {
        Noted::with_room(alloc, arcs, arcs)
    }

    /// The same, with room for so many of them: one more is not listed.
    ///
    /// # Errors
    /// Memory for a table was refused.
    pub fn with_room(alloc: Global, arcs: usize, most: usize) -> Result<Noted, AllocError> {
        let marks = Vec::with_capacity(alloc, arcs)?;
        let arcs = Places::new(alloc, most)?;
        Ok(Noted { marks, arcs })
    }

    /// Opens the list.
    pub fn open(&mut self) {
        let _filled = self.marks.resize(self.marks.capacity(), false);
    }

    /// Lists an arc, or a node, if it is not listed.
    #[inline(always)]
    pub fn note(&mut self, k: u32) {
        let place = k as usize;
        if self.arcs.is_full() {
            return;
        }
        if place < self.marks.len() && !self.marks[place] {
            self.marks[place] = true;
            self.arcs.add(k);
        }
    }

    /// Lists the arc, or the node, of this place so, if it has a number.
    #[inline(always)]
    pub fn note_place(&mut self, place: usize) {
        if let Ok(k) = u32::try_from(place) {
            self.note(k);
        }
    }

    /// Those that are listed.
    pub fn listed(&self) -> &[u32] {
        self.arcs.listed()
    }

    /// Forgets all.
    pub fn clear(&mut self) {
        take_off(&mut self.marks, self.arcs.listed());
        self.arcs.clear();
    }
}

/// Takes the marks off these arcs.
fn take_off(marks: &mut [bool], arcs: &[u32]) {
    for k in arcs {
        let place = *k as usize;
        if place < marks.len() {
            marks[place] = false;
        }
    }
}
