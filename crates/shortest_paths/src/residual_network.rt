//! The residual network of a flow, as the tree of labels reads it.

ghost use Rattle.std.specs.Prelude.{◌≡◌, length};
ghost use Rattle.residual_graph.specs.Graph.{HasEntries};
ghost use Rattle.residual_graph.specs.Residual.{IsPseudoflow};

use residual_ends::ResidualEnds;
use residual_graph::Graph;

/// A network, a flow, and potentials, with an entry for each node, by which searches are led. They serve best where they
/// certify the flow, and where the ends of arcs are in step with it.
#[derive(Clone, Copy)]
pub struct Residual<'a> {
    pub graph: &'a Graph,
    pub flow: &'a [i64],
    pub ends: &'a ResidualEnds,
    pub potentials: &'a [i64],
    ghost pseudoflow: { IsPseudoflow (length potentials.now) graph.now.rows flow.now },
    ghost entries: { HasEntries (length potentials.now) graph.now },
}
