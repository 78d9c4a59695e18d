//! What a step is answered by.

/// What a step is answered by, where it is not refused.
#[derive(Clone, Copy, Debug, PartialEq, Eq)]
pub enum Reply {
    /// The verdict of the present moment.
    Verdict,
    /// The solution of the present moment, with its potentials where it is to be proved.
    Solution { proof: bool },
}
