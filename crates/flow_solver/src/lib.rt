//! Solves flow problems: a flow that potentials certify is led to balance, by proposals and by searches, and after an edit
//! from where it stands.
#![tactic(auto)]

mod answer;
mod balance;
mod edit;
mod part;
mod potentials;
mod settle;
mod start;
mod swaps;
mod tables;
mod verdict;

pub use part::Part;
pub use tables::Tables;
pub use verdict::Verdict;
