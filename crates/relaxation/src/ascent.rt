//! A step at all nodes in excess at once.

ghost use Rattle.std.specs.Prelude.{◌≡◌, ◌<◌, ◌^◌};

use crate::grow::{look_on, lower_inside, survey_set};
use crate::proposal::Proposal;
use crate::reach::Reach;
use crate::ring::Ring;
use crate::sets::Sets;

/// Lowers the potentials of all nodes that tight residual arcs join to nodes in excess, as a side sees it, to where the
/// residual arcs out of that set can carry what lies there, and fills those that would be of negative reduced cost. After a
/// search and its pushes the nodes in excess that are left reach hardly any in deficit so.
pub fn ascend<const AHEAD: bool>(proposal: &mut Proposal, ring: &mut Ring, sets: &mut Sets)
    requires ring { ring.old ≡ proposal.old }
    requires sets { sets.old.reach ≡ proposal.old }
    requires few { proposal.old < 2 ^ 32 }
    ensures proposal { proposal.new ≡ proposal.old }
    ensures ring { ring.new ≡ ring.old }
    ensures sets { sets.new.reach ≡ sets.old.reach }
{
    reach_all::<AHEAD>(proposal, &mut sets.reach);
    let held = survey_set::<AHEAD>(proposal, sets);
    if held > 0 {
        let _lowered = lower_inside::<AHEAD>(proposal, ring, sets, held);
    }
    sets.reach.clear();
}

/// Takes all nodes in excess into the set, and all that tight residual arcs join to them.
fn reach_all<const AHEAD: bool>(proposal: &Proposal, reach: &mut Reach)
    requires reach { reach.old ≡ proposal.now }
    requires few { proposal.now < 2 ^ 32 }
    ensures { reach.new ≡ reach.old }
{
    for v in 0..proposal.entries() {
        if proposal.excess::<AHEAD>(v) > 0 {
            let _new = reach.note(v, 0, 0);
        }
    }
    for _ in 0..proposal.entries() {
        let Some(u) = reach.take_in() else {
            break;
        };
        let _met = look_on::<AHEAD, false>(proposal, reach, u);
    }
}
