//! What a handle leads to.

use dimacs_text::Group;
use session::Session;

/// A session of a flow problem: its moments, of which one is present, and the group of lines that stands open. The
/// table of the group's edits takes 48 kB, so a call needs more stack than that.
#[derive(Drop)]
pub struct Plan {
    pub(crate) session: Session,
    pub(crate) group: Option<Group>,
}
