//! Whether potentials certify a flow.

ghost use Rattle.std.specs.Prelude.{◌↔◌, ◌<◌, IsTrue, length};
ghost use Rattle.residual_graph.specs.Residual.{IsPseudoflow, IsRow, IsWithinRow};
ghost use Rattle.augmentation.specs.Certificate.{AreCertifying, AreInRange, KeepsArc, KeepsRow};

use dimacs_text::ArcRow;
use predecessors::reduced_along;
use residual_graph::{Graph, Way};

/// The least potential with which a run of pushes begins.
pub(crate) const FLOOR: i64 = -50_000_000_000_000_000;

/// Whether each potential is in the range with which a run of pushes begins.
pub(crate) fn are_in_range(potentials: &[i64]) -> bool
    ensures { IsTrue result ↔ AreInRange potentials.now }
{
    for p in potentials {
        if *p > 0 || *p < FLOOR {
            return false;
        }
    }
    true
}

/// Whether an arc's flow follows the sign of its reduced cost: then no residual arc along it costs less than what the potentials
/// pay for it.
fn keeps_row(row: &ArcRow, flow: i64, potentials: &[i64]) -> bool
    requires row { IsRow (length potentials.now) row.now }
    requires within { IsWithinRow row.now flow }
    requires potentials { AreInRange potentials.now }
    ensures { IsTrue result ↔ KeepsRow row.now flow potentials.now }
{
    let reduced = reduced_along(row, potentials, Way::Forward);
    if reduced > 0 {
        flow == row.low
    } else if reduced < 0 {
        flow == row.cap
    } else {
        true
    }
}

/// Whether this is so of the arc in a row.
pub(crate) fn keeps_arc(graph: &Graph, flow: &[i64], potentials: &[i64], k: usize) -> bool
    requires arc { k < length graph.now.rows }
    requires flow { IsPseudoflow (length potentials.now) graph.now.rows flow.now }
    requires potentials { AreInRange potentials.now }
    ensures { IsTrue result ↔ KeepsArc graph.now.rows flow.now potentials.now k }
{
    keeps_row(&graph.row(k), flow[k], potentials)
}

/// Whether potentials certify a flow: each is in the range with which a run of pushes begins, and no residual arc has a
/// reduced cost below 0.
pub fn certifies(graph: &Graph, flow: &[i64], potentials: &[i64]) -> bool
    requires { IsPseudoflow (length potentials.now) graph.now.rows flow.now }
    ensures { IsTrue result ↔ AreCertifying graph.now.rows flow.now potentials.now }
{
    if !are_in_range(potentials) {
        return false;
    }
    for k in 0..graph.rows().len() {
        if !keeps_arc(graph, flow, potentials, k) {
            return false;
        }
    }
    true
}
