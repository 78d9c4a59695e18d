//! What stood in a table before it was written.

ghost use Rattle.std.specs.Prelude.{◌≡◌, ℤ, ◌<◌, ◌≤◌, List, length, IfOk};
ghost use Rattle.residual_graph.specs.Limits.{row_limit};

use crate::touched::Touched;
use std::alloc::{AllocError, Global};

/// The places at which a table was written since the journal was cleared, and what stood there before: so it can be
/// brought back at no more cost than these places.
#[derive(Drop)]
pub struct Journal {
    /// What stood at the places written. Nothing is known of other entries.
    pub before: Vec<i64>,
    pub written: Touched,
}

ghost use Rattle.tracked.specs.Journal.{HasNoted, IsCleared, IsJournal, IsSince};

impl Journal {
    /// A journal of a table that has at most so many entries.
    ///
    /// # Errors
    /// Memory for a table was refused.
    pub fn new(alloc: Global, size: usize) -> Result<Journal, AllocError>
        requires { size ≤ row_limit }
        ensures journal { IfOk result IsJournal }
        ensures room { IfOk result (λ j. length j.before.items ≡ size) }
    {
        let before = vec![in alloc; 0; size]?;
        let written = Touched::new(alloc, size)?;
        Ok(Journal { before, written })
    }

    /// Begins with a table of so many entries, for which there is room.
    pub fn clear(&mut self)
        requires journal { IsJournal self.old }
        ensures { IsCleared self.old self.new }
    {
        self.written.clear();
    }

    /// Notes what stands at a place of the table, which is to be written.
    pub fn note(&mut self, table: &[i64], place: usize)
        requires journal { IsJournal self.old }
        requires place { place < length table.now }
        requires room { length table.now ≤ length self.old.before.items }
        ensures { HasNoted self.old self.new table.now place }
    {
        if !self.written.is_noted(place) {
            self.before[place] = table[place];
            self.written.note(place);
        }
    }

    /// Brings back what stood in the table.
    pub fn bring_back(&self, table: &mut [i64])
        requires journal { IsJournal self.now }
        requires room { length table.old ≤ length self.now.before.items }
        ensures { (xs : List ℤ) → IsSince self.now xs table.old → table.new ≡ xs }
    {
        for place in self.written.places() {
            let k = *place as usize;
            if k >= table.len() {
                continue;
            }
            table[k] = self.before[k];
        }
    }
}
