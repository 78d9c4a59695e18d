//! Searches in the residual graph of a flow: from the nodes in excess to all that they reach, and for the greatest
//! potentials of all nodes, with a tree that keeps them from flow to flow.
//!
//! A table of nodes has one entry a node, by the node's number, and entry 0 stands for no node; a table of arcs has one
//! entry a row of the graph. Flow and excess are in units of flow; costs, potentials and labels in cost a unit of flow.
#![tactic(auto)]

mod forest;
mod labels;
mod levels;
mod progress;
mod residual_network;
mod search;
mod step;
mod tree;

pub use residual_network::Residual;
pub use tree::Tree;
