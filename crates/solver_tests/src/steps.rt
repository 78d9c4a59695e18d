//! The steps of a run of pushes that begins with a proposal.

ghost use Rattle.std.specs.Prelude.{◌≡◌, length};
ghost use Rattle.augmentation.specs.Pseudoflow.{IsCertifiedPseudoflow, IsReady};

use augmentation::{Scratch, adopt, finish};
use cuts::Excess;
use proposals::Wanted;
use residual_graph::Graph;
use tracked::Tracked;

/// Has this proposal at hand, with the potentials that are told to certify it, or where there is none the solver's own.
pub fn prepare(
    graph: &Graph,
    flow: &[i64],
    excess: &Excess,
    potentials: &[i64],
    scratch: &mut Scratch,
    wanted: Option<(Wanted, &[i64])>,
)
    requires state { IsCertifiedPseudoflow graph.now flow.now potentials.now excess.now }
    requires scratch_in { length scratch.old.tree.labels ≡ length potentials.now }
    ensures { scratch.new ≡ scratch.old }
{
    match wanted {
        Some((wanted, told)) => {
            if told.len() == potentials.len() {
                scratch.offer(wanted, excess, told);
            }
        }
        None => scratch.propose(graph, flow, excess, potentials),
    }
}

/// Tries the proposal at hand, then pushes what is left to push; how many pushes came of the one, where it was adopted,
/// and of the other.
pub fn take_up(
    graph: &Graph,
    flow: &mut Tracked<i64>,
    excess: &mut Excess,
    potentials: &mut Tracked<i64>,
    scratch: &mut Scratch,
) -> (Option<u64>, u64)
    requires ready { IsReady graph.now flow.old.entries potentials.old.entries excess.old }
    requires scratch_in { length scratch.old.tree.labels ≡ length potentials.old.entries }
{
    scratch.forget();
    let adopted = adopt(graph, flow, excess, potentials, scratch);
    (adopted, finish(graph, flow, excess, potentials, scratch))
}
