//! What stays out of balance goes home.

ghost use Rattle.std.specs.Prelude.{◌≡◌, length};
ghost use Rattle.relaxation.specs.Limits.{IsWithin, rest_limit};

use crate::search::Search;
use crate::solving::{Fuel, Goals, MOST_PAIRS, take_turns};
use relaxation::{Proposal, REST_LIMIT, seen};

/// With walks along any tight arcs after each search: by searches alone a group in a dense network took six times as long.
const HOME: Fuel = Fuel {
    few: usize::MAX,
    in_turn: false,
    ..Fuel::USUAL
};

/// Sends excess home along shortest paths, as a side sees it: from nodes that have more than at the start to nodes that
/// had some then and have less now. What lies at home is kept apart meanwhile.
pub fn give_back<const AHEAD: bool>(proposal: &mut Proposal, search: &mut Search, home: &[i64])
    requires search { search.old ≡ proposal.old }
    requires home { length home.now ≡ proposal.old }
    ensures proposal { proposal.new ≡ proposal.old }
    ensures search { search.new ≡ search.old }
{
    search.apart.clear();
    for v in 0..proposal.entries() {
        let sent = seen::<AHEAD>(astray::<AHEAD>(proposal.excess::<AHEAD>(v), home[v]));
        let _kept = search.apart.push(proposal.rest(v).saturating_sub(sent));
        proposal.set_rest(v, sent);
    }
    let _done = take_turns(proposal, search, &mut Goals::ALL, MOST_PAIRS, HOME);
    for v in 0..proposal.entries().min(search.apart.len()) {
        proposal.add_rest(v, search.apart[v]);
    }
}

/// How much more excess a node has than at the start, as a side sees it; below 0 how much less, as far as there was some.
fn astray<const AHEAD: bool>(excess: i64, home: i64) -> i64
    ensures { IsWithin rest_limit result }
{
    let home = seen::<AHEAD>(home.clamp(-REST_LIMIT, REST_LIMIT)).max(0);
    let more = if excess > home {
        excess.saturating_sub(home)
    } else {
        excess.max(0).saturating_sub(home)
    };
    more.clamp(-REST_LIMIT, REST_LIMIT)
}
