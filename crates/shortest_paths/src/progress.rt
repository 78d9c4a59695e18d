//! How far a search has come.

ghost use Rattle.std.specs.Prelude.{◌≡◌, length};
ghost use Rattle.residual_graph.specs.Limits.{potential_floor};
ghost use Rattle.residual_graph.specs.Residual.{IsPseudoflow};
ghost use Rattle.predecessors.specs.Predecessor.{AreBounded};

use predecessors::Predecessor;
use residual_graph::Graph;

/// What a search looks at: the residual graph of a flow, the potentials that lead it, and how it came to nodes so far.
#[derive(Clone, Copy)]
pub(crate) struct Progress<'a> {
    pub graph: &'a Graph,
    pub flow: &'a [i64],
    pub potentials: &'a [i64],
    pub predecessors: &'a [Predecessor],
    ghost pseudoflow: { IsPseudoflow (length potentials.now) graph.now.rows flow.now },
    ghost bounded: { AreBounded potential_floor potentials.now },
    ghost sized: { length predecessors.now ≡ length potentials.now },
}
