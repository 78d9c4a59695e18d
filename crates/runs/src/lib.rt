//! What every run shares: texts that are read from their sources, and how a run ends.
#![tactic(auto)]

mod end;
mod read;

pub use end::{End, Text};
pub use read::{ReadError, read_answer, read_problem};
