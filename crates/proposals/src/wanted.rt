//! What a proposal comes to.

use std::alloc::{AllocError, Global};

/// An arc whose flow is to change.
#[derive(Clone, Copy)]
pub struct FlowChange {
    pub arc: u32,
    /// The place of the next change at the same node: who goes over the changes writes it.
    pub next: u32,
    /// The wanted flow; once the change is made, the flow that stood there.
    pub flow: i64,
}

/// What is wanted of a flow. Nothing is known of the numbers, nor of how many there are.
#[derive(Drop)]
pub struct Wanted {
    /// Each arc whose flow is to change. What goes round in circles is left out when the proposal is tried.
    pub changes: Vec<FlowChange>,
}

impl Wanted {
    /// Room for changes of so many arcs.
    ///
    /// # Errors
    /// Memory for a table was refused.
    pub fn new(alloc: Global, arcs: usize) -> Result<Wanted, AllocError> {
        let changes = Vec::with_capacity(alloc, arcs)?;
        Ok(Wanted { changes })
    }

    /// Lists the arc in this row where it is to have another flow than it has, as far as there is room.
    pub(crate) fn list(&mut self, k: usize, flow: i64, goal: i64) {
        if flow == goal || self.changes.len() >= self.changes.capacity() {
            return;
        }
        if let Ok(arc) = u32::try_from(k) {
            self.changes.push_reserved(FlowChange {
                arc,
                next: 0,
                flow: goal,
            });
        }
    }
}
