//! A step at a node out of balance.

ghost use Rattle.std.specs.Prelude.{◌≡◌, ◌<◌, ◌^◌};
ghost use Rattle.relaxation.specs.Limits.{IsWithin, potential_limit};

use crate::candidates::{CLOSED, Candidates};
use crate::grow::grow;
use crate::proposal::Proposal;
use crate::ring::Ring;
use crate::sets::Sets;
use containers::Places;
use residual_ends::Link;

/// Brings a node towards balance that is in excess on this side. Where its tight residual arcs cannot carry what lies there,
/// it fills them and lowers its potential to where the next ones can; then it grows a set from the node.
pub fn relax_node<const AHEAD: bool>(
    proposal: &mut Proposal,
    ring: &mut Ring,
    sets: &mut Sets,
    s: usize,
    most: usize,
)
    requires node { s < proposal.old }
    requires ring { ring.old ≡ proposal.old }
    requires sets { sets.old.reach ≡ proposal.old }
    requires few { proposal.old < 2 ^ 32 }
    ensures proposal { proposal.new ≡ proposal.old }
    ensures ring { ring.new ≡ ring.old }
    ensures sets { sets.new.reach ≡ sets.old.reach }
{
    survey::<AHEAD>(proposal, sets, s);
    let tight = meet::<AHEAD>(proposal, &sets.tight, s);
    if proposal.excess::<AHEAD>(s) > tight {
        if !lower_node::<AHEAD>(proposal, ring, sets, s) {
            ring.leave(s);
            return;
        }
        let _tight = meet::<AHEAD>(proposal, &sets.tight, s);
    }
    if proposal.excess::<AHEAD>(s) > 0 {
        grow::<AHEAD>(proposal, ring, sets, s, most);
    }
}

/// Lists the residual arcs that lead on from a node: those that are tight, and the others.
fn survey<const AHEAD: bool>(proposal: &Proposal, sets: &mut Sets, s: usize)
    requires node { s < proposal.now }
    ensures { sets.new.reach ≡ sets.old.reach }
{
    sets.tight.clear();
    sets.candidates.begin(proposal.excess::<AHEAD>(s));
    let potential = proposal.potential(s);
    let ends = proposal.ends().at(s);
    sets.looks = sets.looks.saturating_add(ends.links.len() as u64);
    for (k, link) in ends.links.iter().enumerate() {
        let reduced_cost = open_cost::<AHEAD>(proposal, potential, link);
        if !sets.candidates.may_need(reduced_cost) || link.other as usize == s {
            continue;
        }
        let place = ends.first + k as u32;
        if reduced_cost == 0 {
            sets.tight.add(place);
        } else {
            sets.candidates
                .add(reduced_cost, place, link.room::<AHEAD>());
        }
    }
}

/// The reduced cost of a residual arc that leads on from a node of this potential, as a side sees it, if it has room.
#[inline(always)]
pub fn open_cost<const AHEAD: bool>(proposal: &Proposal, potential: i64, link: &Link) -> i64
    requires other { link.now.other < proposal.now }
    requires potential { IsWithin potential_limit potential }
{
    let reduced_cost = proposal.reduced_cost::<AHEAD>(potential, link);
    if link.room::<AHEAD>() > 0 {
        reduced_cost
    } else {
        CLOSED
    }
}

/// Pushes from a node to its neighbours in deficit over tight residual arcs, and gives the room that those still have.
fn meet<const AHEAD: bool>(proposal: &mut Proposal, tight: &Places, s: usize) -> i64
    requires node { s < proposal.old }
    ensures { proposal.new ≡ proposal.old }
{
    let mut left: i64 = 0;
    for place in tight.listed() {
        let Some(link) = proposal.ends().link(*place) else {
            continue;
        };
        let room = link.room::<AHEAD>();
        let lack = -proposal.excess::<AHEAD>(link.other as usize);
        let amount = lack.min(room).min(proposal.excess::<AHEAD>(s));
        if amount > 0 {
            proposal.push::<AHEAD>(*place, amount);
            left = left.wrapping_add(room - amount);
        } else {
            left = left.wrapping_add(room);
        }
    }
    left
}

/// Fills the tight residual arcs of a node, and lowers its potential to where the next ones can carry the rest; says
/// whether there are such.
fn lower_node<const AHEAD: bool>(
    proposal: &mut Proposal,
    ring: &mut Ring,
    sets: &mut Sets,
    s: usize,
) -> bool
    requires node { s < proposal.old }
    requires ring { ring.old ≡ proposal.old }
    requires few { proposal.old < 2 ^ 32 }
    ensures proposal { proposal.new ≡ proposal.old }
    ensures ring { ring.new ≡ ring.old }
    ensures sets { sets.new.reach ≡ sets.old.reach }
{
    for place in sets.tight.listed() {
        fill::<AHEAD>(proposal, ring, *place);
    }
    sets.tight.clear();
    let Some(shift) = sets.candidates.least_shift(proposal.excess::<AHEAD>(s)) else {
        return false;
    };
    if !proposal.lower::<AHEAD>(s, shift) {
        return false;
    }
    fill_below::<AHEAD>(proposal, ring, &sets.candidates, shift);
    sets.candidates.list_tight(shift, &mut sets.tight);
    true
}

/// Fills the residual arcs of a reduced cost below this one.
pub fn fill_below<const AHEAD: bool>(
    proposal: &mut Proposal,
    ring: &mut Ring,
    candidates: &Candidates,
    shift: i64,
)
    requires ring { ring.old ≡ proposal.old }
    requires few { proposal.old < 2 ^ 32 }
    ensures proposal { proposal.new ≡ proposal.old }
    ensures ring { ring.new ≡ ring.old }
{
    for arc in candidates.listed() {
        if arc.reduced_cost < shift {
            fill::<AHEAD>(proposal, ring, arc.place);
        }
    }
}

/// Fills a residual arc.
fn fill<const AHEAD: bool>(proposal: &mut Proposal, ring: &mut Ring, place: u32)
    requires ring { ring.old ≡ proposal.old }
    requires few { proposal.old < 2 ^ 32 }
    ensures proposal { proposal.new ≡ proposal.old }
    ensures ring { ring.new ≡ ring.old }
{
    let Some(link) = proposal.ends().link(place) else {
        return;
    };
    proposal.push::<AHEAD>(place, link.room::<AHEAD>());
    wake(proposal, ring, link.other as usize);
}

/// Lets a node wait for a step if it is to be served.
pub fn wake(proposal: &Proposal, ring: &mut Ring, v: usize)
    requires node { v < proposal.now }
    requires ring { ring.old ≡ proposal.now }
    requires few { proposal.now < 2 ^ 32 }
    ensures { ring.new ≡ ring.old }
{
    if proposal.is_to_serve(v) {
        ring.add(v);
    }
}
