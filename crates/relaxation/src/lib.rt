//! Relaxation: steps of dual ascent that bring a flow towards balance, where it and its potentials stay complementary
//! (Bertsekas and Tseng, "Relaxation methods for minimum cost ordinary and generalized network flow problems").
//!
//! What comes of it is a proposal. That every step is safe, that it ends and that each number stays within its limits is
//! proved, and nothing else: who takes a proposal up tests whether its potentials certify its flow. So a step is given up
//! where a number would leave its limits. Sums over several nodes, which are only compared, may wrap; of a lawful network
//! none does.
#![tactic(auto)]

mod ascent;
mod candidates;
mod grow;
mod limits;
mod proposal;
mod reach;
mod ring;
mod sets;
mod signs;
mod step;
mod windows;

pub use ascent::ascend;
pub use limits::REST_LIMIT;
pub use proposal::Proposal;
pub use ring::Ring;
pub use sets::Sets;
pub use signs::seen;
pub use windows::{Limits, Outcome, relax};
