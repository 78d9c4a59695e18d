//! What a call tells: 0 where it did what it was asked for, the number of a refusal, or a number below 0.

/// The handle has no session.
pub const CLOSED: i32 = -1;
/// The handle has a session already.
pub const OPEN: i32 = -2;
/// The room has another length than what is to be copied there.
pub const OTHER_LENGTH: i32 = -3;
/// The present moment has none: no flow where it is infeasible, no cut where it is feasible.
pub const NOT_THERE: i32 = -4;
/// The text has a fault.
pub const FAULT: i32 = -5;
/// Memory was refused.
pub const MEMORY: i32 = -6;
/// A list of the answer has no room.
pub const TOO_SHORT: i32 = -7;
