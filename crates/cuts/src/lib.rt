//! Why supply is left over or demand is not met: the nodes out of balance, the nodes that those in excess reach or that reach
//! those in deficit, and marks for such a set, the cut.
//!
//! A table of nodes has one entry a node, by the node's number, and entry 0 stands for no node; a table of arcs has one
//! entry a row of the graph. Flow, excess and deficit are in units of flow.
#![tactic(auto)]

mod cut;
mod excess;
mod side;

pub use cut::Cut;
pub use excess::{Excess, note_unbalanced};
pub use side::{OnSide, mark_side};
