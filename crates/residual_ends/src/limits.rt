//! The ranges of numbers: an arc past them is left out.

/// A cost, either way.
pub const COST_LIMIT: i64 = 1_000_000_000_000;
/// The rooms of an arc, both ways together.
pub const ROOM_LIMIT: i64 = 2_000_000_000;
