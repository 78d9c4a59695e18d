//! How nodes got their labels.

ghost use Rattle.std.specs.Prelude.{◌≡◌, ◌<◌, IsTrue, length};
ghost use Rattle.network.specs.Flow.{reduced_cost};
ghost use Rattle.predecessors.specs.Limits.{label_floor};
ghost use Rattle.residual_graph.specs.Limits.{potential_floor};
ghost use Rattle.residual_graph.specs.Residual.{AreGreatest, ArePotentials, IsPseudoflow, IsRow, IsWithinRow, number_at};
ghost use Rattle.predecessors.specs.Predecessor.{AllTraced, AreBounded, ComesAlong, IsTracedAt, arc_from, open_node, root_node, row_along};

use dimacs_text::ArcRow;
use network::reduced_cost;
use residual_graph::{Graph, ResidualArc, Way};

/// How a search came to a node, or how a node got a label below 0: by a residual arc from a node of lower rank.
#[derive(Clone, Copy)]
pub struct Predecessor {
    /// The end of an arc at which the residual arc leaves.
    pub end: u32,
    pub rank: u32,
    /// Whether no search came to the node yet, or its label may become lower yet.
    pub is_open: bool,
}

impl Predecessor {
    /// A node to which no search came.
    pub fn open() -> Predecessor
        ensures { result ≡ open_node }
    {
        Predecessor {
            end: 0,
            rank: 0,
            is_open: true,
        }
    }

    /// The residual arc that leads to the node.
    pub fn arc(self) -> ResidualArc
        ensures { result ≡ arc_from self.end }
    {
        leaving(self.end)
    }

    /// A node at which a search begins.
    pub fn root() -> Predecessor
        ensures { result ≡ root_node }
    {
        Predecessor {
            end: 0,
            rank: 0,
            is_open: false,
        }
    }
}

/// The residual arc that leaves at an end of an arc.
pub fn leaving(end: u32) -> ResidualArc
    ensures { result ≡ arc_from end }
{
    ResidualArc {
        arc: end / 2,
        way: Way::of_end(end),
    }
}

/// Whether each label is 0 or comes of that of a node of lower rank, by the residual arc that is told: then no greater
/// potentials certify the flow.
pub fn are_traced(graph: &Graph, flow: &[i64], labels: &[i64], predecessors: &[Predecessor]) -> bool
    requires flow { IsPseudoflow (length labels.now) graph.now.rows flow.now }
    requires labels { ArePotentials (length labels.now) label_floor labels.now }
    ensures traced { IsTrue result → AllTraced graph.now.rows flow.now labels.now
        predecessors.now }
    ensures greatest { IsTrue result → AreGreatest graph.now.rows flow.now labels.now }
{
    if predecessors.len() != labels.len() {
        return false;
    }
    for v in 0..labels.len() {
        if !is_traced(graph, flow, labels, predecessors, v) {
            return false;
        }
    }
    true
}

/// Whether this is so of a node.
pub fn is_traced(
    graph: &Graph,
    flow: &[i64],
    labels: &[i64],
    predecessors: &[Predecessor],
    v: usize,
) -> bool
    requires flow { IsPseudoflow (length labels.now) graph.now.rows flow.now }
    requires labels { ArePotentials (length labels.now) label_floor labels.now }
    requires same_length { length predecessors.now ≡ length labels.now }
    requires node { v < length labels.now }
    ensures { IsTrue result → IsTracedAt graph.now.rows flow.now labels.now predecessors.now v }
{
    if labels[v] == 0 {
        return true;
    }
    let k = predecessors[v].end as usize / 2;
    if k >= graph.rows().len() {
        return false;
    }
    comes_along(&graph.row(k), flow[k], labels, predecessors, v)
}

/// Whether a node's label comes of that of a node of lower rank, by the residual arc that is told, along an arc with this row
/// and this flow.
fn comes_along(
    row: &ArcRow,
    flow: i64,
    labels: &[i64],
    predecessors: &[Predecessor],
    v: usize,
) -> bool
    requires row { IsRow (length labels.now) row.now }
    requires within { IsWithinRow row.now flow }
    requires labels { ArePotentials (length labels.now) label_floor labels.now }
    requires same_length { length predecessors.now ≡ length labels.now }
    requires node { v < length labels.now }
    ensures { IsTrue result → ComesAlong row.now flow labels.now predecessors.now v }
{
    let way = Way::of_end(predecessors[v].end);
    let start = way.start(row) as usize;
    way.room(row, flow) > 0
        && way.end(row) as usize == v
        && predecessors[start].rank < predecessors[v].rank
        && reduced_along(row, labels, way) == 0
}

/// The reduced cost of the residual arc in this way along an arc.
pub fn reduced_along(row: &ArcRow, labels: &[i64], way: Way) -> i64
    requires row { IsRow (length labels.now) row.now }
    requires labels { AreBounded potential_floor labels.now }
    ensures { result ≡ reduced_cost (number_at labels.now) (row_along row.now way) }
{
    let start = way.start(row) as usize;
    let end = way.end(row) as usize;
    reduced_cost(way.unit_cost(row), labels[start], labels[end])
}
