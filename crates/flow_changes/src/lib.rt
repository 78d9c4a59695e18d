//! The changes from one flow to another: laid out without circles, made, and tested by the excess that they leave. Changes
//! that turn in no circle and bring each node nearer to balance are pushes along paths.
//!
//! A table of nodes has one entry a node, by the node's number, and entry 0 stands for no node; a table of arcs has one
//! entry a row of the graph. Flow and excess are in units of flow.
#![tactic(auto)]

pub mod exchange;
mod order;
mod trial;

pub use order::Order;
pub use trial::Trial;
