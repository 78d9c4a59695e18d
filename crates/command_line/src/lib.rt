//! What the words of a command line ask the program `mcf` for, or why they are refused.
#![tactic(auto)]

mod commands;
mod help;
mod parse;
mod tasks;

pub use parse::task;
pub use tasks::{DEFAULT_EXTRA, EXTRA_LIMIT, Task, Usage};
