//! The engine that checks answers.
#![tactic(auto)]

mod checking;

pub use checking::check;
