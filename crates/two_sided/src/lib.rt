//! Pushes near an edit, where few nodes are out of balance: searches from both sides at once, on a proposal.
//!
//! Proved is that no index, sum or cast leaves its range, and that the tables keep their sizes. Nothing is proved of
//! what is proposed.
#![tactic(auto)]

mod between;
mod front;

pub use between::Between;
