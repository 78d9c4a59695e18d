//! What a flow costs.
ghost use Rattle.std.specs.Prelude.{◌≡◌, ◌≤◌, ◌*ℤ◌, length};
ghost use Rattle.std.specs.List.{AllZip};
ghost use Rattle.network.specs.Flow.{total_cost};
ghost use Rattle.network.specs.Instance.{HasSmallCost};

use dimacs_text::{ARC_LIMIT, ArcRow};

/// The product of two numbers, which always fits.
fn product(a: i64, b: i64) -> i128
    ensures { result ≡ a *ℤ b }
{
    i128::from(a) * i128::from(b)
}

/// The cost of a flow: the sum of cost times flow over the arcs.
pub(crate) fn total_cost(arcs: &[ArcRow], flow: &[i64]) -> i128
    requires few { length arcs.now ≤ ARC_LIMIT }
    requires terms { AllZip HasSmallCost arcs.now flow.now }
    ensures { result ≡ total_cost arcs.now flow.now }
{
    let mut total = 0;
    for (arc, x) in arcs.iter().zip(flow) {
        total += product(arc.cost, *x);
    }
    total
}
