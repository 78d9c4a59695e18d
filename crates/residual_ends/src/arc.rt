//! An arc as a proposal takes it over.

ghost use Rattle.std.specs.Prelude.{◌≡◌, IsTrue};
ghost use Rattle.residual_ends.specs.Limits.{IsInLimits};

use crate::limits::{COST_LIMIT, ROOM_LIMIT};

/// An arc as a proposal takes it over: nodes, by their places in the tables of nodes; bounds; the cost of a unit; and the
/// flow that it carries.
#[derive(Clone, Copy)]
pub struct Arc {
    pub tail: u32,
    pub head: u32,
    pub low: i64,
    pub cap: i64,
    pub cost: i64,
    pub flow: i64,
}

impl Arc {
    /// The arc with no more room than the limits allow: where it has more, a part on either side of its flow.
    pub(crate) fn narrowed(self) -> Arc
        ensures tail { result.tail ≡ self.tail }
        ensures head { result.head ≡ self.head }
    {
        if self.cap <= ROOM_LIMIT {
            return self;
        }
        Arc {
            low: self.low.max(self.flow.saturating_sub(ROOM_LIMIT / 2)),
            cap: self.cap.min(self.flow.saturating_add(ROOM_LIMIT / 2)),
            ..self
        }
    }

    /// Whether its numbers are within the limits.
    pub(crate) fn is_in_limits(&self) -> bool
        ensures { IsTrue result → IsInLimits self.now }
    {
        if self.low < 0 || self.low > self.flow || self.flow > self.cap {
            return false;
        }
        if self.cap - self.low > ROOM_LIMIT {
            return false;
        }
        self.cost >= -COST_LIMIT && self.cost <= COST_LIMIT
    }
}
