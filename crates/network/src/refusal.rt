//! Why an edit is refused.

ghost use Rattle.std.specs.Prelude.{◌≡◌};
ghost use Rattle.network.specs.Refusal.{number_of};

use dimacs_text::{CommandFault, LineFault};

/// Why an instance does not take an edit.
#[derive(Clone, Copy, Debug, PartialEq, Eq)]
pub enum EditRefusal {
    /// Problems of this kind do not have the edit.
    NotForKind,
    OutOfRange,
    NoSuchArc,
    NoSuchNode,
    /// The lower bound of the arc would be above its capacity.
    LowAboveCap,
    /// The new arc would not lead from the source side to the sink side.
    NotAcrossSides,
    /// There are as many arcs as there is room for.
    TableFull,
}

impl EditRefusal {
    /// Its number, which is that of a line where a line is refused for the same.
    pub fn number(self) -> u8
        ensures { result ≡ number_of self }
    {
        match self {
            EditRefusal::NotForKind => CommandFault::NotForKind.number(),
            EditRefusal::OutOfRange => LineFault::OutOfRange.number(),
            EditRefusal::NoSuchArc => 20,
            EditRefusal::NoSuchNode => 21,
            EditRefusal::LowAboveCap => 22,
            EditRefusal::NotAcrossSides => 27,
            EditRefusal::TableFull => 24,
        }
    }
}
