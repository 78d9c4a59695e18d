//! Where the ends of arcs at a node stand.

ghost use Rattle.std.specs.Prelude.{◌≤◌};

/// Where the links of a node stand. The places behind them are free, up to where those of the next node begin.
#[derive(Clone, Copy)]
pub(crate) struct Span {
    pub first: u32,
    /// The place behind the last one.
    pub end: u32,
    ghost order: { first ≤ end },
}

impl Span {
    /// Of no link.
    pub const NONE: Span = Span { first: 0, end: 0 };
}

/// Where the parts of a node's ends stop, once they are in order.
#[derive(Clone, Copy)]
pub(crate) struct Borders {
    /// The place behind the ends with room both ways.
    pub free: u32,
    /// The place behind those with room to leave the node alone.
    pub leaving: u32,
}

impl Borders {
    /// Of no link.
    pub const NONE: Borders = Borders {
        free: 0,
        leaving: 0,
    };
}
