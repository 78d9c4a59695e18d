//! The room of steps.

ghost use Rattle.std.specs.Prelude.{◌≡◌, ◌<◌, ◌^◌, IfOk};

use crate::candidates::Candidates;
use crate::reach::Reach;
use containers::Places;
use std::alloc::{AllocError, Global};

/// What a step writes down of a set: the tight residual arcs out of its first node, the others, and the nodes that it
/// reaches.
#[derive(Drop)]
pub struct Sets {
    pub(crate) tight: Places,
    pub(crate) candidates: Candidates,
    pub(crate) reach: Reach,
    /// How many ends of arcs were looked at.
    pub(crate) looks: u64,
}

impl Sets {
    /// Room for sets of all nodes, and for all arcs out of them: an arc leaves a set at one end.
    ///
    /// # Errors
    /// Memory for a table was refused.
    pub fn new(alloc: Global, entries: usize, arcs: usize) -> Result<Sets, AllocError>
        requires { arcs < 2 ^ 32 }
        ensures { IfOk result (λ sets. sets.reach ≡ entries) }
    {
        let tight = Places::new(alloc, arcs)?;
        let candidates = Candidates::new(alloc, arcs)?;
        let reach = Reach::new(alloc, entries)?;
        Ok(Sets {
            tight,
            candidates,
            reach,
            looks: 0,
        })
    }
}
