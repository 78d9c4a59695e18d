//! The residual arcs at each node, side by side: a quick table, from which proposals, the tree of labels and the marks of cuts
//! are read.
//!
//! That every call is safe and ends, and that the nodes it names are there, is proved, and nothing of the flow that stands in
//! it: who takes an answer that was found by it tests that.
#![tactic(auto)]

mod arc;
mod arcs;
mod limits;
mod link;
mod order;
mod places;
mod span;
mod table;

pub use arc::Arc;
pub use arcs::ArcEnds;
pub use limits::{COST_LIMIT, ROOM_LIMIT};
pub use link::Link;
pub use table::{Ends, ResidualEnds};
