//! The tables in which a proposal is tried.

ghost use Rattle.std.specs.Prelude.{◌≤◌, IfOk};
ghost use Rattle.residual_graph.specs.Limits.{row_limit};
ghost use Rattle.flow_changes.specs.Exchange.{IsTrialFor};

use crate::order::Order;
use containers::both;
use std::alloc::{AllocError, Global};
use tracked::Journal;

/// What stood in the excess before a proposal is tried, and the order of its nodes. What stood in the flow is kept in the
/// changes of the proposal.
#[derive(Drop)]
pub struct Trial {
    pub excess: Journal,
    pub order: Order,
}

impl Trial {
    /// Tables for so many entries.
    ///
    /// # Errors
    /// Memory for a table was refused.
    pub fn new(alloc: Global, entries: usize) -> Result<Trial, AllocError>
        requires { entries ≤ row_limit }
        ensures { IfOk result (IsTrialFor entries) }
    {
        let excess = Journal::new(alloc, entries);
        let order = Order::new(alloc, entries);
        let (excess, order) = both(excess, order)?;
        Ok(Trial { excess, order })
    }
}
