//! A network parted at a cut of which each arc is full, where more lies on one side than can leave it.

ghost use Rattle.std.specs.Prelude.{◌≡◌, ◌<◌, length};

use crate::greatest::make_greatest;
use crate::search::Search;
use crate::tables::arc_of;
use containers::State;
use dimacs_text::ArcRow;
use relaxation::{Proposal, seen};
use residual_ends::Arc;

/// The network is parted where a greatest flow leaves something at so many nodes, or at one in so many of a small network: plans
/// of lots and of tariff took half of the time, and parallel arcs between two nodes a hundredth. Where less was left, networks
/// took up to four times as long.
const MANY_LEFT: usize = 64;

const A_PART_LEFT: usize = 16;

/// Such a flow is looked for where at one in so many of these nodes something was left before, or can't leave its node. Where it
/// was looked for at any rate, groups in networks took up to twice as long.
const A_PART_LIKELY: usize = 2;

/// At how many nodes a greatest flow has to leave something, for the network to be parted, where it is likely that it does: so
/// many were out of balance before, and stay so. Else 0.
pub fn least_left(proposal: &Proposal, before: usize) -> usize {
    let mut stuck: usize = 0;
    for v in 0..proposal.entries() {
        if is_stuck(proposal, v) {
            stuck = stuck.saturating_add(1);
        }
    }
    let least = MANY_LEFT.min(proposal.entries() / A_PART_LEFT).max(1);
    if stuck > 0 && stuck.saturating_add(before).saturating_mul(A_PART_LIKELY) >= least {
        least
    } else {
        0
    }
}

/// Whether more lies at a node than can leave it, or it lacks more than can come to it.
fn is_stuck(proposal: &Proposal, v: usize) -> bool
    requires { v < proposal.now }
{
    let rest = proposal.rest(v);
    let mut left = rest.unsigned_abs();
    if left == 0 {
        return false;
    }
    for link in proposal.ends().at(v).links {
        let room = if rest > 0 {
            link.room::<true>()
        } else {
            link.room::<false>()
        };
        if link.other as usize != v {
            left = left.saturating_sub(room.unsigned_abs());
        }
    }
    left > 0
}

/// Makes the flow a greatest one. Where it leaves something at so many nodes, parts those that what is left in excess reaches
/// from the others.
pub fn mark_sides(proposal: &mut Proposal, search: &mut Search, least_left: usize)
    requires { search.old ≡ proposal.old }
    ensures proposal { proposal.new ≡ proposal.old }
    ensures search { search.new ≡ search.old }
{
    make_greatest(proposal, search);
    if proposal.nodes_to_serve() < least_left {
        return;
    }
    search.start();
    let _length = search.search::<true>(proposal, usize::MAX);
    // Where nothing lacks, the search did not go on from the nodes in excess.
    let keep_all = search.width() > 0 && search.goals == 0;
    for v in 0..search.entries() {
        let is_reached = search.frontier.state(v) == State::Settled;
        let _put = proposal.sides.push(keep_all || is_reached);
    }
}

/// Whether an arc leads out of the side that keeps excess, or else into it; neither where both its nodes lie on one side.
fn leads_out(sides: &[bool], row: &ArcRow) -> Option<bool> {
    let keeps_at_tail = *sides.get(row.tail as usize)?;
    let keeps_at_head = *sides.get(row.head as usize)?;
    if keeps_at_tail == keeps_at_head {
        None
    } else {
        Some(keeps_at_tail)
    }
}

/// Has the arcs of the cut, from this flow on, carry all that they can out of the side that keeps excess and as little as they
/// may into it, and closes them.
pub fn close_cut(proposal: &mut Proposal, rows: &[ArcRow], flow: &[i64])
    requires { length flow.now ≡ length rows.now }
    ensures { proposal.new ≡ proposal.old }
{
    for k in 0..rows.len() {
        let row = &rows[k];
        let Some(is_out) = leads_out(&proposal.sides, row) else {
            continue;
        };
        let goal = if is_out { row.cap } else { row.low };
        let closed = Arc {
            low: goal,
            cap: goal,
            ..arc_of(row, goal)
        };
        if !proposal.ends.renew(k, &closed) {
            continue;
        }
        if let Some(ends) = proposal.ends().ends_of(k) {
            let more = goal.saturating_sub(flow[k]);
            proposal.add_rest(ends.head.other as usize, more.saturating_neg());
            proposal.add_rest(ends.tail.other as usize, more);
        }
    }
}

/// Opens the arcs of the cut, and lowers the potentials of the side that keeps excess to where such arcs are full.
pub fn join(proposal: &mut Proposal, rows: &[ArcRow])
    ensures { proposal.new ≡ proposal.old }
{
    let mut shift = 0;
    for k in 0..rows.len() {
        let row = &rows[k];
        let Some(is_out) = leads_out(&proposal.sides, row) else {
            continue;
        };
        let goal = if is_out { row.cap } else { row.low };
        let _opened = proposal.ends.renew(k, &arc_of(row, goal));
        if let Some(ends) = proposal.ends().ends_of(k) {
            let potential = proposal.potential(ends.head.other as usize);
            let cost = proposal.reduced_cost::<true>(potential, &ends.tail);
            shift = shift.max(if is_out { cost } else { -cost });
        }
    }
    for v in 0..proposal.entries() {
        if shift > 0 && proposal.sides.get(v) == Some(&true) {
            let _within = proposal.lower::<true>(v, shift);
        }
    }
    proposal.sides.clear();
}

impl Search {
    /// Looks whether all that was settled has more, as a side sees it, than can leave it: then no flow is legal. It does so where
    /// this was asked for, and in stages: there a search often settles all that it comes to over arcs of much room, and so what
    /// lies before the arcs that hold up the flow. At the end of all stages nothing would be spared any more.
    pub(crate) fn look_for_surplus<const AHEAD: bool>(&mut self, proposal: &Proposal)
        requires { proposal.now ≡ self.old }
        ensures { self.new ≡ self.old }
    {
        if !self.looks_for_surplus || proposal.least < 2 {
            return;
        }
        let mut surplus: i64 = 0;
        for v in self.frontier.settled().listed() {
            let v = *v as usize;
            surplus = surplus.saturating_add(seen::<AHEAD>(proposal.rest(v)));
            for link in proposal.ends().at(v).links {
                if self.frontier.state(link.other as usize) != State::Settled {
                    surplus = surplus.saturating_sub(link.room::<AHEAD>());
                }
            }
        }
        self.has_surplus = surplus > 0;
    }
}
