//! How nodes were come to: each by a residual arc from a node of lower rank, its predecessor; and the tests that labels
//! which are told with predecessors are the greatest potentials that certify a flow.
//!
//! A table of nodes has one entry a node, by the node's number, and entry 0 stands for no node; a table of arcs has one
//! entry a row of the graph. Flow is in units of flow; costs, potentials and labels in cost a unit of flow.
#![tactic(auto)]

mod predecessor;

pub use predecessor::{Predecessor, are_traced, is_traced, leaving, reduced_along};
