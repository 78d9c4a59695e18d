//! A step at a set of nodes.

ghost use Rattle.std.specs.Prelude.{◌≡◌, ◌<◌, ◌^◌, IfSome};
ghost use Rattle.relaxation.specs.Grow.{MetIn};

use crate::candidates::Candidates;
use crate::proposal::Proposal;
use crate::reach::Reach;
use crate::ring::Ring;
use crate::sets::Sets;
use crate::step::{fill_below, open_cost, wake};
use containers::Places;

/// Why a set grows no more.
enum Growth {
    /// It met this node in deficit.
    Met(usize),
    /// What lies in it is more than the tight residual arcs out of it carry.
    Short,
    /// It has as many nodes as it may have.
    Large,
}

/// Grows a set from a node over tight residual arcs until it meets a node in deficit, to which it pushes, or holds more
/// than they can carry, when the potentials of the set fall. Where nothing can carry that, the node is left.
pub fn grow<const AHEAD: bool>(
    proposal: &mut Proposal,
    ring: &mut Ring,
    sets: &mut Sets,
    s: usize,
    most: usize,
)
    requires node { s < proposal.old }
    requires ring { ring.old ≡ proposal.old }
    requires sets { sets.old.reach ≡ proposal.old }
    requires few { proposal.old < 2 ^ 32 }
    ensures proposal { proposal.new ≡ proposal.old }
    ensures ring { ring.new ≡ ring.old }
    ensures sets { sets.new.reach ≡ sets.old.reach }
{
    match spread::<AHEAD>(proposal, sets, s, most) {
        Growth::Met(target) => push_back::<AHEAD>(proposal, &sets.reach, s, target),
        Growth::Short => {
            let held = survey_set::<AHEAD>(proposal, sets);
            if !lower_inside::<AHEAD>(proposal, ring, sets, held) {
                ring.leave(s);
            }
        }
        Growth::Large => ring.leave(s),
    }
    sets.reach.clear();
}

/// Grows the set.
fn spread<const AHEAD: bool>(proposal: &Proposal, sets: &mut Sets, s: usize, most: usize) -> Growth
    requires node { s < proposal.now }
    requires sets { sets.old.reach ≡ proposal.now }
    requires few { proposal.now < 2 ^ 32 }
    ensures sets { sets.new.reach ≡ sets.old.reach }
    ensures met { MetIn proposal.now result }
{
    let mut held = proposal.excess::<AHEAD>(s);
    begin::<AHEAD>(proposal, &sets.tight, &mut sets.reach, s);
    for _ in 1..most {
        if held > sets.reach.room {
            return Growth::Short;
        }
        let Some(u) = sets.reach.take_in() else {
            return Growth::Short;
        };
        sets.looks = sets
            .looks
            .saturating_add(proposal.ends().at(u).links.len() as u64);
        held = held.wrapping_add(proposal.excess::<AHEAD>(u));
        if let Some(target) = look_on::<AHEAD, true>(proposal, &mut sets.reach, u) {
            return Growth::Met(target);
        }
    }
    Growth::Large
}

/// Begins the set with a node, and notes where the tight residual arcs lead that were listed of it.
fn begin<const AHEAD: bool>(proposal: &Proposal, tight: &Places, reach: &mut Reach, s: usize)
    requires node { s < proposal.now }
    requires reach { reach.old ≡ proposal.now }
    requires few { proposal.now < 2 ^ 32 }
    ensures { reach.new ≡ reach.old }
{
    let _new = reach.note(s, 0, 0);
    let _first = reach.take_in();
    for place in tight.listed() {
        let Some(link) = proposal.ends().link(*place) else {
            continue;
        };
        let room = link.room::<AHEAD>();
        if room > 0 {
            let _new = reach.note(link.other as usize, *place, room);
        }
    }
}

/// Notes the nodes outside the set to which tight residual arcs lead on from a node of it, up to the first one in deficit if
/// that ends the set, and gives that.
pub fn look_on<const AHEAD: bool, const ENDS: bool>(
    proposal: &Proposal,
    reach: &mut Reach,
    u: usize,
) -> Option<usize>
    requires node { u < proposal.now }
    requires reach { reach.old ≡ proposal.now }
    requires few { proposal.now < 2 ^ 32 }
    ensures reach { reach.new ≡ reach.old }
    ensures met { IfSome result (λ v. v < proposal.now) }
{
    let potentials = proposal.potentials();
    let potential = proposal.potential(u);
    let ends = proposal.ends().at(u);
    for (k, link) in ends.links.iter().enumerate() {
        let more = link.room::<AHEAD>();
        let v = link.other as usize;
        // One test of both: of the tight arcs at a node half are open, which a processor can't guess.
        let off = potentials[v] ^ (potential + link.cost);
        let shut = more.wrapping_sub(1) >> 63;
        if off | shut != 0 || reach.is_inside(v) {
            continue;
        }
        let is_new = reach.note(v, ends.first + k as u32, more);
        if ENDS && is_new && proposal.excess::<AHEAD>(v) < 0 {
            return Some(v);
        }
    }
    None
}

/// Pushes what fits from `s` to `target` along the arcs by which the nodes between them were reached.
fn push_back<const AHEAD: bool>(proposal: &mut Proposal, reach: &Reach, s: usize, target: usize)
    requires s { s < proposal.old }
    requires target { target < proposal.old }
    requires reach { reach.now ≡ proposal.old }
    ensures { proposal.new ≡ proposal.old }
{
    let lack = -proposal.excess::<AHEAD>(target);
    let mut amount = proposal.excess::<AHEAD>(s).min(lack);
    let mut v = target;
    for _ in 0..proposal.entries() {
        if v == s {
            break;
        }
        let Some((start, room)) = arc_to::<AHEAD>(proposal, reach, v) else {
            return;
        };
        amount = amount.min(room);
        v = start;
    }
    let mut v = target;
    for _ in 0..proposal.entries() {
        if v == s {
            break;
        }
        let Some((start, _)) = arc_to::<AHEAD>(proposal, reach, v) else {
            return;
        };
        proposal.push::<AHEAD>(reach.parent(v), amount);
        v = start;
    }
}

/// The node from which a node was reached, and the room of the arc between them.
fn arc_to<const AHEAD: bool>(proposal: &Proposal, reach: &Reach, v: usize) -> Option<(usize, i64)>
    requires node { v < proposal.now }
    requires reach { reach.now ≡ proposal.now }
    ensures { IfSome result (λ arc. arc.0 < proposal.now) }
{
    let link = proposal.ends().link(reach.parent(v))?;
    let opposite = proposal.ends().link(link.opposite)?;
    Some((opposite.other as usize, link.room::<AHEAD>()))
}

/// Lowers the potentials of the set to where the residual arcs out of it, which are listed, can carry so much, and fills those
/// that would be of negative reduced cost; says whether there is such room.
pub fn lower_inside<const AHEAD: bool>(
    proposal: &mut Proposal,
    ring: &mut Ring,
    sets: &mut Sets,
    held: i64,
) -> bool
    requires ring { ring.old ≡ proposal.old }
    requires sets { sets.old.reach ≡ proposal.old }
    requires few { proposal.old < 2 ^ 32 }
    ensures proposal { proposal.new ≡ proposal.old }
    ensures ring { ring.new ≡ ring.old }
    ensures sets { sets.new.reach ≡ sets.old.reach }
{
    let Some(shift) = sets.candidates.least_shift(held) else {
        return false;
    };
    fill_below::<AHEAD>(proposal, ring, &sets.candidates, shift);
    for u in sets.reach.inside() {
        let _lowered = proposal.lower::<AHEAD>(*u as usize, shift);
        wake(proposal, ring, *u as usize);
    }
    true
}

/// Lists the residual arcs out of the set that may be needed, and gives what lies in it.
pub fn survey_set<const AHEAD: bool>(proposal: &Proposal, sets: &mut Sets) -> i64
    requires sets { sets.old.reach ≡ proposal.now }
    ensures { sets.new.reach ≡ sets.old.reach }
{
    let mut held: i64 = 0;
    for u in sets.reach.inside() {
        held = held.wrapping_add(proposal.excess::<AHEAD>(*u as usize));
    }
    sets.candidates.begin(held);
    for u in sets.reach.inside() {
        let u = *u as usize;
        let looks = proposal.ends().at(u).links.len() as u64;
        sets.looks = sets.looks.saturating_add(looks);
        survey_out::<AHEAD>(proposal, &sets.reach, &mut sets.candidates, u);
    }
    held
}

/// Lists the residual arcs that lead from a node of the set out of it.
fn survey_out<const AHEAD: bool>(
    proposal: &Proposal,
    reach: &Reach,
    candidates: &mut Candidates,
    u: usize,
)
    requires node { u < proposal.now }
    requires reach { reach.now ≡ proposal.now }
{
    let potential = proposal.potential(u);
    let ends = proposal.ends().at(u);
    for (k, link) in ends.links.iter().enumerate() {
        let reduced_cost = open_cost::<AHEAD>(proposal, potential, link);
        if candidates.may_need(reduced_cost) && !reach.is_inside(link.other as usize) {
            let place = ends.first + k as u32;
            candidates.add(reduced_cost, place, link.room::<AHEAD>());
        }
    }
}
