//! The residual graph of a flow: the residual arcs that a flow leaves along the arcs of a network, and a walk over the ends of
//! arcs at a node.
//!
//! A table of nodes has one entry a node, by the node's number, and entry 0 stands for no node; a table of arcs has one
//! entry a row of the graph. Flow is in units of flow; costs and potentials are in cost a unit of flow.
#![tactic(auto)]

mod graph;
mod residual;
mod side;

pub use graph::Graph;
pub use residual::{ResidualArc, Way};
pub use side::Side;
