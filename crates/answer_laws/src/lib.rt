//! Laws of answers: what is written is read as what it tells, and what is written with a proof is right to `check`.
#![tactic(auto)]

mod reading;
mod solved;

pub use reading::written_answers_are_read;
pub use solved::{shown_answers_are_right, shown_answers_check_valid, solved_answers_check_valid};
