//! The ranges of numbers. A step that would leave them is given up.

/// A potential, either way.
pub(crate) const POTENTIAL_LIMIT: i64 = 150_000_000_000_000_000;
/// The excess or deficit of a node.
pub const REST_LIMIT: i64 = 4_000_000_000_000_000_000;
