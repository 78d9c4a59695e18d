//! What the calls of C do to a session that is there, and to room that C has for a problem's answer.
#![tactic(auto)]

mod answer;
mod array_fault;
mod array_text;
mod arrays;
mod fault;
mod library;
mod lists;
mod status;
mod statuses;
mod view;

pub use answer::{AnswerRoom, solve_text};
pub use array_fault::ArrayFault;
pub use array_text::arrays_are_as_their_text;
pub use arrays::{Arrays, open_arrays};
pub use fault::Fault;
pub use library::{open_session, redo, take_line, undo};
pub use lists::{give_cut, give_flow, give_potentials};
pub use status::{CLOSED, FAULT, MEMORY, NOT_THERE, OPEN, OTHER_LENGTH, TOO_SHORT};
pub use statuses::statuses_are;
pub use view::{View, look};
