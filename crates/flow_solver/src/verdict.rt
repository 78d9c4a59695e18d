//! What is told of an instance.

/// Whether an instance has a legal flow.
#[derive(Clone, Copy, Debug, PartialEq, Eq)]
pub enum Verdict {
    /// It has, and the flow is a best one of this worth.
    Best(i128),
    /// It has none, and the cut shows it by this shortage.
    Infeasible(i64),
}
