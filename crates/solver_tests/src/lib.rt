//! Tests of the crates that solve problems, by what they export. They are a crate of their own, since the functions of
//! a crate are proved once more with the tests that stand in it.
#![tactic(auto)]

#[cfg(test)]
mod proposals_taken;
mod start;
mod steps;

pub use start::{MOST_ROWS, are_ready, start_flow};
pub use steps::{prepare, take_up};
