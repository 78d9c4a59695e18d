//! The two sides of a flow.

ghost use Rattle.std.specs.Prelude.{IsTrue, ◌↔◌};
ghost use Rattle.residual_graph.specs.Side.{IsRoot};

/// The two sides of a flow: ahead are the nodes that those in excess reach along residual arcs, and behind those that
/// reach one in deficit. The roots of a side are the nodes in excess, or those in deficit.
#[derive(Clone, Copy)]
pub enum Side {
    Ahead,
    Behind,
}

impl Side {
    /// Whether a node with this excess is a root.
    pub fn is_root(self, excess: i64) -> bool
        ensures { IsTrue result ↔ IsRoot self excess }
    {
        match self {
            Side::Ahead => excess > 0,
            Side::Behind => excess < 0,
        }
    }
}
