//! Potentials beside what is known of them.

ghost use Rattle.std.specs.Prelude.{ℕ, ◌<◌, pos, ◌≤ℤ◌, IsTrue, length};
ghost use Rattle.residual_graph.specs.Residual.{number_at};

use tracked::Tracked;

/// The potential of each node, with an entry for no node in front.
#[derive(Drop)]
pub struct Potentials {
    pub table: Tracked<i64>,
    /// Whether they are known to be the greatest that certify the flow.
    pub greatest: bool,
}

/// Whether no potential is below 0: then there are no greater ones, since none is above 0.
pub fn are_none_below_0(potentials: &[i64]) -> bool
    ensures { IsTrue result → (v : ℕ) → v < length potentials.now
        → pos 0 ≤ℤ number_at potentials.now v }
{
    for potential in potentials {
        if *potential < 0 {
            return false;
        }
    }
    true
}
