//! The bounds of the arcs.
ghost use Rattle.std.specs.Prelude.{◌↔◌, IsTrue};
ghost use Rattle.network.specs.Flow.{AllWithinBounds, IsWithinBounds};

use dimacs_text::ArcRow;

/// Does a flow keep an arc's bounds?
pub fn keeps_bounds(arc: &ArcRow, x: i64) -> bool
    ensures { IsTrue result ↔ IsWithinBounds arc.now x }
{
    arc.low <= x && x <= arc.cap
}

/// Is there one flow an arc, each within its bounds?
pub fn is_within_bounds(arcs: &[ArcRow], flow: &[i64]) -> bool
    ensures { IsTrue result ↔ AllWithinBounds arcs.now flow.now }
{
    if arcs.len() != flow.len() {
        return false;
    }
    for (arc, x) in arcs.iter().zip(flow) {
        if !keeps_bounds(arc, *x) {
            return false;
        }
    }
    true
}
