//! Reduced costs, and the sign rule that certifies a flow.
ghost use Rattle.std.specs.Prelude.{◌≡◌, ◌↔◌, ℕ, ◌^◌, ◌≤◌, ◌+ℤ◌, ◌-ℤ◌, All, FitsSigned, IsTrue, length};
ghost use Rattle.std.specs.Int.{w64};
ghost use Rattle.std.specs.List.{AllZip};
ghost use Rattle.network.specs.Flow.{FollowsSign, IsPotential, reduced_cost};
ghost use Rattle.dimacs_lines.specs.Fields.{IsNode};
ghost use Rattle.dimacs_text.specs.Lawful.{IsLawfulRow, IsWithin};
ghost use Rattle.network.specs.Instance.{at_node};

use crate::LEAST_POTENTIAL;
use dimacs_text::{ArcRow, COST_LIMIT};

/// The reduced cost of an arc or of a residual arc: what a unit costs along it, and the potential of the node that it
/// leaves, less that of the node that it comes to.
#[inline(always)]
pub fn reduced_cost(cost: i64, from: i64, to: i64) -> i64
    requires sum { FitsSigned w64 (cost +ℤ from) }
    requires difference { FitsSigned w64 (cost +ℤ from -ℤ to) }
    ensures { result ≡ cost +ℤ from -ℤ to }
{
    cost + from - to
}

/// The reduced cost of an arc by a table of potentials, in which node v has entry v - 1.
pub fn reduced_by(arc: &ArcRow, potentials: &[i64]) -> i64
    requires tail { IsNode (length potentials.now) arc.now.tail }
    requires head { IsNode (length potentials.now) arc.now.head }
    requires cost { IsWithin COST_LIMIT arc.now.cost }
    requires range { (v : ℕ) → IsNode (length potentials.now) v
        → IsPotential (at_node potentials.now v) }
    ensures { result ≡ reduced_cost (at_node potentials.now) arc.now }
{
    let tail = potentials[arc.tail as usize - 1];
    let head = potentials[arc.head as usize - 1];
    reduced_cost(arc.cost, tail, head)
}

/// Does an arc of positive reduced cost carry its low, and one of negative reduced cost its cap?
pub fn follows_sign(arc: &ArcRow, x: i64, potentials: &[i64]) -> bool
    requires tail { IsNode (length potentials.now) arc.now.tail }
    requires head { IsNode (length potentials.now) arc.now.head }
    requires cost { IsWithin COST_LIMIT arc.now.cost }
    requires range { All IsPotential potentials.now }
    ensures { IsTrue result ↔ FollowsSign (at_node potentials.now) arc.now x }
{
    let cost = reduced_by(arc, potentials);
    if cost > 0 {
        x == arc.low
    } else if cost < 0 {
        x == arc.cap
    } else {
        true
    }
}

/// Is there one flow an arc, each by the sign rule?
pub fn follows_signs(arcs: &[ArcRow], flow: &[i64], potentials: &[i64]) -> bool
    requires limits { All (IsLawfulRow (length potentials.now)) arcs.now }
    requires range { All IsPotential potentials.now }
    ensures { IsTrue result ↔ AllZip (FollowsSign (at_node potentials.now)) arcs.now flow.now }
{
    if arcs.len() != flow.len() {
        return false;
    }
    for (arc, x) in arcs.iter().zip(flow) {
        if !follows_sign(arc, *x, potentials) {
            return false;
        }
    }
    true
}

/// Are all potentials in their range?
pub fn are_potentials(potentials: &[i64]) -> bool
    ensures { IsTrue result ↔ All IsPotential potentials.now }
{
    potentials.iter().all(|p| LEAST_POTENTIAL <= *p && *p <= 0)
}
