//! Greatest flows by pseudoflows (Hochbaum, "The pseudoflow algorithm: a new algorithm for the maximum-flow problem", Operations
//! Research 56, 2008; in the order of Chandran and Hochbaum, Operations Research 57, 2009).
//!
//! Nodes stand in trees of residual arcs, and what is out of balance lies at their roots alone. A tree whose root is in excess
//! looks for a residual arc from one of its nodes to one that is nearer to the deficits, by a label that tells how far these
//! are at least; there it is hung on, and its excess goes down to the other root as far as the arcs have room. So what many
//! nodes have too much moves together, where searches push along one path after the other.
//!
//! That every call is safe and ends is proved, and nothing of what flow it leads to: what comes of it is a proposal.
#![tactic(auto)]

mod forest;
mod labels;
mod solving;

pub use forest::{Branch, Forest};
pub use solving::Pseudoflow;
