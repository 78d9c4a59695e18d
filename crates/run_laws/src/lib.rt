//! Laws of whole runs: what the texts determine of the bytes that are written, what undo, redo and `back` show, and
//! what the turns of a text are.
#![tactic(auto)]

mod answers;
mod determined;
mod near;
mod returned;
mod turns;
mod undone;

pub use answers::{answers_agree, certified_of_each_best};
pub use determined::{
    moments_show_the_same, same_texts_give_the_same_bytes, solve_and_session_agree, solves_agree,
    steps_agree,
};
pub use near::runs_move_little;
pub use returned::back_shows_the_same;
pub use turns::turns_are_the_lines;
pub use undone::{redo_shows_the_same, undo_shows_the_same};
