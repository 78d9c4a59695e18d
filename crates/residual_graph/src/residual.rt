//! The residual arcs that a flow leaves.

ghost use Rattle.std.specs.Prelude.{◌≡◌, FitsSigned};
ghost use Rattle.std.specs.Int.{w64};
ghost use Rattle.residual_graph.specs.Residual.{start_of, end_of, cost_of, room_of, other_way, turned};
ghost use Rattle.residual_graph.specs.Walk.{end_way};

use dimacs_text::ArcRow;

/// A residual arc: the row of an arc, and the way in which the residual arc goes along it.
#[derive(Clone, Copy)]
pub struct ResidualArc {
    pub arc: u32,
    pub way: Way,
}

impl ResidualArc {
    /// The residual arc that goes along the same arc in the other way.
    pub fn turned(self) -> Self
        ensures { result ≡ turned self }
    {
        ResidualArc {
            arc: self.arc,
            way: self.way.other(),
        }
    }
}

/// The way in which a residual arc goes along its arc.
#[derive(Clone, Copy)]
pub enum Way {
    /// From the tail to the head: more flow.
    Forward,
    /// From the head to the tail: less flow.
    Backward,
}

impl Way {
    /// The way in which the residual arc from an end of an arc goes along it: end 2k is the tail of arc k, end
    /// 2k + 1 its head.
    pub fn of_end(end: u32) -> Self
        ensures { result ≡ end_way end }
    {
        if end % 2 == 0 {
            Way::Forward
        } else {
            Way::Backward
        }
    }

    /// The other way.
    pub fn other(self) -> Self
        ensures { result ≡ other_way self }
    {
        match self {
            Way::Forward => Way::Backward,
            Way::Backward => Way::Forward,
        }
    }

    /// The node from which the residual arc goes.
    pub fn start(self, row: &ArcRow) -> u32
        ensures { result ≡ start_of row.now self }
    {
        match self {
            Way::Forward => row.tail,
            Way::Backward => row.head,
        }
    }

    /// The node to which the residual arc goes.
    pub fn end(self, row: &ArcRow) -> u32
        ensures { result ≡ end_of row.now self }
    {
        match self {
            Way::Forward => row.head,
            Way::Backward => row.tail,
        }
    }

    /// What a unit of flow along the residual arc costs.
    pub fn unit_cost(self, row: &ArcRow) -> i64
        requires { FitsSigned w64 (cost_of row.now self) }
        ensures { result ≡ cost_of row.now self }
    {
        match self {
            Way::Forward => row.cost,
            Way::Backward => -row.cost,
        }
    }

    /// How much more flow fits along the residual arc.
    pub fn room(self, row: &ArcRow, flow: i64) -> i64
        requires { FitsSigned w64 (room_of row.now flow self) }
        ensures { result ≡ room_of row.now flow self }
    {
        match self {
            Way::Forward => row.cap - flow,
            Way::Backward => flow - row.low,
        }
    }
}
