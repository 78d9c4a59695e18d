//! A session of edits of a flow problem, with undo and redo of whole moments, and marks of moments.
#![tactic(auto)]

mod differences;
mod laws;
mod limits;
mod marks;
mod record;
mod refusal;
mod reply;
mod session;
mod step;
mod swaps;
mod turns;

pub use flow_solver::Part;
pub use laws::{marks_are_few, moves_are_steps};
pub use limits::limits_are;
pub use marks::{MARK_LIMIT, Mark};
pub use record::Record;
pub use refusal::{Refusal, StepRefusal};
pub use reply::Reply;
pub use session::Session;
