//! An end of an arc at a node.

ghost use Rattle.std.specs.Prelude.{◌≡◌, pos, ◌+◌, ◌≤◌, ◌≤ℤ◌, IfSome};
ghost use Rattle.residual_ends.specs.Limits.{IsInLimits, IsWithin, cost_limit, room_limit};

use crate::arc::Arc;

/// An end of an arc at a node, with all that a step asks of it: 24 bytes, which is what a look at it costs.
#[derive(Clone, Copy)]
pub struct Link {
    /// The node at the arc's other end.
    pub other: u32,
    /// The place of the arc's other end.
    pub opposite: u32,
    /// The cost of a unit along the residual arc that leaves the node here.
    pub cost: i64,
    /// The room of the residual arc that leaves the node here.
    leaving: u32,
    /// The room of the residual arc that enters the node here.
    entering: u32,
    ghost cost_in: { IsWithin cost_limit cost },
    ghost rooms_in: { leaving + entering ≤ room_limit },
}

impl Link {
    /// An end of no arc.
    pub const NONE: Link = Link {
        other: 0,
        opposite: 0,
        cost: 0,
        leaving: 0,
        entering: 0,
    };

    /// The room of the residual arc that leads on from the node: ahead it leaves the node, behind it enters it.
    #[inline(always)]
    pub fn room<const AHEAD: bool>(&self) -> i64
        ensures low { pos 0 ≤ℤ result }
        ensures high { result ≤ℤ pos room_limit }
    {
        i64::from(if AHEAD { self.leaving } else { self.entering })
    }

    /// The room of the residual arc that leads to the node: ahead it enters the node, behind it leaves it.
    #[inline(always)]
    pub fn room_back<const AHEAD: bool>(&self) -> i64
        ensures low { pos 0 ≤ℤ result }
        ensures high { result ≤ℤ pos room_limit }
    {
        i64::from(if AHEAD { self.entering } else { self.leaving })
    }

    /// The ends of an arc at its tail and at its head, which have these places.
    #[inline(always)]
    pub(crate) fn both_of(arc: &Arc, tail: u32, head: u32) -> (Link, Link)
        requires { IsInLimits arc.now }
        ensures tail { result.0.other ≡ arc.now.head }
        ensures head { result.1.other ≡ arc.now.tail }
    {
        let ahead = (arc.cap - arc.flow) as u32;
        let back = (arc.flow - arc.low) as u32;
        let at_tail = Link {
            other: arc.head,
            opposite: head,
            cost: arc.cost,
            leaving: ahead,
            entering: back,
        };
        let at_head = Link {
            other: arc.tail,
            opposite: tail,
            cost: -arc.cost,
            leaving: back,
            entering: ahead,
        };
        (at_tail, at_head)
    }

    /// The end where the other one has this place.
    pub(crate) fn facing(self, opposite: u32) -> Link
        ensures { result.other ≡ self.other }
    {
        Link {
            other: self.other,
            opposite,
            cost: self.cost,
            leaving: self.leaving,
            entering: self.entering,
        }
    }

    /// The end when so much flow more leaves the node there, where that fits.
    #[inline(always)]
    pub(crate) fn moved(self, amount: i64) -> Option<Link>
        requires { IsWithin room_limit amount }
        ensures { IfSome result (λ moved. moved.other ≡ self.other) }
    {
        let leaving = i64::from(self.leaving) - amount;
        let entering = i64::from(self.entering) + amount;
        if leaving < 0 || entering < 0 {
            return None;
        }
        Some(Link {
            other: self.other,
            opposite: self.opposite,
            cost: self.cost,
            leaving: leaving as u32,
            entering: entering as u32,
        })
    }
}
