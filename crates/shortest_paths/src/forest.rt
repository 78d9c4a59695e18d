//! How the nodes of a tree of labels hang together.
//!
//! Proved is that each call returns, and that no index leaves its range.

use crate::residual_network::Residual;
use crate::step::Step;
use std::alloc::{AllocError, Global};

/// The residual arc by which a node hangs on another one, and the nodes that hang on it. Node 0 stands for none.
#[derive(Clone, Copy)]
pub(crate) struct Joint {
    /// The end at which the residual arc leaves; no arc has this end where it is not known.
    pub end: u32,
    /// The node at that end, or 0 where the residual arc does not lead to this node.
    pub above: u32,
    pub cost: i64,
    /// Whether the residual arc has room, and whether the one back to that node has.
    pub is_open: bool,
    pub is_open_back: bool,
    /// The first node that hangs on it.
    pub first: u32,
    /// The nodes behind it and before it among those that hang on the same node.
    pub next: u32,
    pub before: u32,
}

/// A node that hangs on none, and on which none hangs.
const ALONE: Joint = Joint {
    end: u32::MAX,
    above: 0,
    cost: 0,
    is_open: false,
    is_open_back: false,
    first: 0,
    next: 0,
    before: 0,
};

/// The joints of all nodes, or of none where no tree was mended yet: a first solve does not touch them. What stands of
/// residual arcs in them is a copy, since the rows lie far apart.
#[derive(Drop)]
pub(crate) struct Forest {
    joints: Vec<Joint>,
}

impl Forest {
    /// Room for so many nodes.
    ///
    /// # Errors
    /// Memory for a table was refused.
    pub fn new(alloc: Global, entries: usize) -> Result<Forest, AllocError> {
        let joints = Vec::with_capacity(alloc, entries)?;
        Ok(Forest { joints })
    }

    /// Forgets how nodes hang.
    pub fn clear(&mut self) {
        self.joints.clear();
    }

    /// Whether there is a joint for each node.
    pub fn is_grown(&self) -> bool {
        !self.joints.is_empty()
    }

    /// Begins with all nodes alone.
    pub fn grow(&mut self) {
        let _filled = self.joints.resize(self.joints.capacity(), ALONE);
    }

    /// How a node hangs.
    #[inline(always)]
    pub fn joint(&self, v: u32) -> Joint {
        match self.joints.get(v as usize) {
            Some(joint) => *joint,
            None => ALONE,
        }
    }

    /// Has a node hang by the residual arc that leaves at this end, and by no other.
    pub fn hang(&mut self, residual: Residual<'_>, v: u32, end: u32) {
        self.take_off(v);
        let mut joint = self.joint(v);
        joint.end = end;
        joint.above = 0;
        if let Some(step) = Step::at(residual, end) {
            if step.far == v {
                joint.above = step.start;
                joint.cost = step.cost;
                joint.is_open = step.is_open;
                joint.is_open_back = step.is_open_back;
            }
        }
        joint.before = 0;
        joint.next = self.joint(joint.above).first;
        if let Some(own) = self.joints.get_mut(v as usize) {
            *own = joint;
        }
        if joint.above == 0 {
            return;
        }
        if let Some(next) = self.joints.get_mut(joint.next as usize) {
            next.before = v;
        }
        if let Some(above) = self.joints.get_mut(joint.above as usize) {
            above.first = v;
        }
    }

    /// Takes a node off the list of those that hang on the same one.
    fn take_off(&mut self, v: u32) {
        let joint = self.joint(v);
        if joint.above == 0 {
            return;
        }
        if let Some(next) = self.joints.get_mut(joint.next as usize) {
            next.before = joint.before;
        }
        if joint.before != 0 {
            if let Some(before) = self.joints.get_mut(joint.before as usize) {
                before.next = joint.next;
            }
        } else if let Some(above) = self.joints.get_mut(joint.above as usize) {
            above.first = joint.next;
        }
    }
}
