//! What an answer text says.

use dimacs_lines::Sequence;

/// What an `f` line says: the flow of an arc, with its ends, which are nodes counted from 1.
#[derive(Clone, Copy, Debug, PartialEq, Eq)]
pub struct FlowLine {
    pub tail: u32,
    pub head: u32,
    pub flow: i64,
}

/// An answer to a problem, as it was read: nothing says yet that it is right.
#[derive(Debug, Drop)]
pub enum Answer {
    /// A flow and its worth, with a line for each arc and a potential for each node, in order.
    Flow {
        value: i128,
        flows: Sequence<FlowLine>,
        potentials: Sequence<i64>,
    },
    /// A shortage, and the nodes of a cut in rising order.
    Cut {
        shortage: i64,
        nodes: Sequence<u32>,
    },
}
