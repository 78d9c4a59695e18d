//! Tables that note where they were written, so that what stood in them before is kept, compared with and brought back at
//! no more cost than these places.
//!
//! Places are the indices of a table: of the nodes, or of the rows of the arcs.
#![tactic(auto)]

mod journal;
mod touched;
mod tracked;

pub use journal::Journal;
pub use touched::Touched;
pub use tracked::Tracked;
