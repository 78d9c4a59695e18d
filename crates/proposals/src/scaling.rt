//! Capacity scaling: searches that first use only residual arcs of much room, then in stages those of less.

ghost use Rattle.std.specs.Prelude.{◌≡◌, ◌<◌, ◌^◌};

use crate::search::Search;
use crate::solving::{Fuel, Goals, MOST_PAIRS, take_turns};
use relaxation::Proposal;

/// The most stages: no arc has room of 2^30 or more.
const STAGES: usize = 30;
/// Each stage asks for so many times less room: 8 was quicker than 2 and 4 on plain networks and in plans.
const NARROWING: u32 = 8;
/// In the first stage at most so many percent of the residual arcs have too little room. With more, flow goes a long way
/// round them, and the next stage begins with many arcs to be filled: a plan of vehicles took five times as long. 10 was
/// slower on grids with small capacities.
const CLOSED_PERCENT: u64 = 25;
/// In the first stage at least so many percent of what is out of balance lie at nodes that searches begin at or look for.
/// 50 and 90 led to more searches on dense networks and on road networks.
const HELD_PERCENT: u64 = 75;

/// Brings a flow nearer to balance in stages. In each, searches use the residual arcs of some room or more, as long as there
/// are paths of such arcs from as much excess to as much deficit. The next stage asks for less room: arcs that have it, and a
/// negative reduced cost by now, are filled first. So few large pushes take the place of many small ones.
pub fn scale(proposal: &mut Proposal, search: &mut Search, fuel: Fuel)
    requires { search.old ≡ proposal.old }
    ensures proposal { proposal.new ≡ proposal.old }
    ensures search { search.new ≡ search.old }
{
    let fuel = Fuel { apart: 0, ..fuel };
    let mut least = first_least(proposal);
    for _ in 0..STAGES {
        if least < 2 {
            break;
        }
        begin_stage(proposal, least);
        let _done = take_turns(proposal, search, &mut Goals::ALL, MOST_PAIRS, fuel);
        if search.has_surplus {
            break;
        }
        least /= NARROWING;
    }
    begin_stage(proposal, 1);
}

/// The room that an arc needs in the first stage: 1 where no stages are worth while. Then enough of what is out of balance lies
/// at nodes where it is so much, and few enough residual arcs have less room.
pub fn first_least(proposal: &Proposal) -> u32 {
    let rooms = rooms_by_size(proposal);
    let rests = rests_by_size(proposal);
    let mut closed: u64 = 0;
    let mut held = rests[0];
    let mut least: u32 = 1;
    for size in 1..STAGES {
        closed = closed.saturating_add(rooms[size]);
        held = held.saturating_sub(rests[size]);
        if held.saturating_mul(100) < rests[0].saturating_mul(HELD_PERCENT)
            || closed.saturating_mul(100) > rooms[0].saturating_mul(CLOSED_PERCENT)
        {
            break;
        }
        least = least.saturating_mul(2);
    }
    least
}

/// How many residual arcs have room of each size; at place 0 how many there are.
fn rooms_by_size(proposal: &Proposal) -> [u64; STAGES] {
    let mut rooms = [0; STAGES];
    for v in 0..proposal.entries() {
        for link in proposal.ends().at(v).links {
            let room = link.room::<true>().unsigned_abs();
            if room > 0 {
                add_at(&mut rooms, room, 1);
            }
        }
    }
    rooms
}

/// How much is to be served at nodes where it is of each size; at place 0 how much there is.
fn rests_by_size(proposal: &Proposal) -> [u64; STAGES] {
    let mut rests = [0; STAGES];
    for v in 0..proposal.entries() {
        if proposal.is_to_serve(v) {
            let rest = proposal.rest(v).unsigned_abs();
            add_at(&mut rests, rest, rest);
        }
    }
    rests
}

/// Adds to what is of the size of a number, which is less than 2 to that power and no less than half of it, and to what there is.
#[inline(always)]
fn add_at(table: &mut [u64; STAGES], number: u64, more: u64) {
    let size = 64u32.saturating_sub(number.leading_zeros()) as usize;
    if size > 0 && size < STAGES {
        table[size] = table[size].saturating_add(more);
    }
    table[0] = table[0].saturating_add(more);
}

/// Lets searches use residual arcs of so much room, and fills those of a negative reduced cost.
pub fn begin_stage(proposal: &mut Proposal, least: u32)
    ensures { proposal.new ≡ proposal.old }
{
    proposal.least = least;
    for v in 0..proposal.entries() {
        fill_at(proposal, v);
    }
}

/// Fills the residual arcs of a negative reduced cost that leave a node, where searches use them.
fn fill_at(proposal: &mut Proposal, v: usize)
    requires { v < proposal.old }
    ensures { proposal.new ≡ proposal.old }
{
    let potential = proposal.potential(v);
    let first = proposal.ends().at(v).first;
    for k in 0..proposal.ends().at(v).links.len() {
        let place = first.saturating_add(k as u32);
        let Some(link) = proposal.ends().link(place) else {
            return;
        };
        let room = link.room::<true>();
        let reduced_cost = proposal.reduced_cost::<true>(potential, &link);
        if reduced_cost < 0 && proposal.is_open(room) {
            proposal.push::<true>(place, room);
        }
    }
}
