//! Residual arcs as their rows and the flow have them.

ghost use Rattle.std.specs.Prelude.{◌<◌, IfSome, length};

use crate::residual_network::Residual;
use predecessors::leaving;

/// A residual arc.
#[derive(Clone, Copy)]
pub(crate) struct Step {
    /// The end at which it leaves.
    pub end: u32,
    /// The node at that end, and the one to which it leads.
    pub start: u32,
    pub far: u32,
    pub cost: i64,
    /// Whether it has room, and whether the one that leads back has.
    pub is_open: bool,
    pub is_open_back: bool,
}

impl Step {
    /// The residual arc that leaves at this end, where an arc has such an end.
    pub fn at(residual: Residual<'_>, end: u32) -> Option<Step>
        ensures start { IfSome result (λ step. step.start < length residual.entry.potentials.now) }
        ensures far { IfSome result (λ step. step.far < length residual.entry.potentials.now) }
    {
        let arc = leaving(end);
        let k = arc.arc as usize;
        if k >= residual.graph.rows().len() {
            return None;
        }
        let row = residual.graph.row(k);
        Some(Step {
            end,
            start: arc.way.start(&row),
            far: arc.way.end(&row),
            cost: arc.way.unit_cost(&row),
            is_open: arc.way.room(&row, residual.flow[k]) > 0,
            is_open_back: arc.way.other().room(&row, residual.flow[k]) > 0,
        })
    }
}

/// The end at the other node of an arc.
pub(crate) fn across(end: u32) -> u32 {
    end ^ 1
}

/// The end of an arc at its tail.
pub(crate) fn tail_of(arc: u32) -> u32 {
    arc.saturating_mul(2)
}
