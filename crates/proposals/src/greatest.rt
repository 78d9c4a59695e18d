//! A greatest flow from one that stands, which may leave something at any node.

ghost use Rattle.std.specs.Prelude.{◌≡◌, ◌<◌};

use crate::search::Search;
use crate::solving::{Fuel, Goals, MOST_PAIRS, take_turns};
use pseudoflow::Pseudoflow;
use relaxation::{Proposal, REST_LIMIT, seen};

/// More than ever lies at a node.
const PLENTY: i64 = REST_LIMIT / 2;

/// So many pairs of searches are made between nodes out of balance before what is left goes home. With none groups in level
/// graphs took twice as long, with 4 those in stairs did.
const SOME_PAIRS: usize = 1;

/// Over ways of at most so many arcs searches lead to a greatest flow sooner than trees do.
const NEAR: u32 = 24;

/// Searches as for a greatest flow that leave the sides together.
const TOGETHER: Fuel = Fuel {
    apart: 0,
    ..Fuel::GREATEST
};

/// The same with walks along any tight arcs after each search: so all goes home in a few searches, however long the ways are.
const HOME: Fuel = Fuel {
    few: usize::MAX,
    ..TOGETHER
};

/// Makes a flow a greatest one: where its arcs cost nothing, that takes few searches.
pub(crate) fn make_greatest(proposal: &mut Proposal, search: &mut Search)
    requires { search.old ≡ proposal.old }
    ensures proposal { proposal.new ≡ proposal.old }
    ensures search { search.new ≡ search.old }
{
    proposal.level();
    let _done = take_turns(proposal, search, &mut Goals::ALL, MOST_PAIRS, TOGETHER);
}

/// Brings a flow that has no return arc to a greatest one. The return arc is held to carry so much more than it does: that lies
/// at the source, and is lacking at the sink, and what cannot pass stays there. First what other nodes have too much goes where
/// some lack it or back to the source, and what they lack comes from the sink: so the rest is as at a first solve, and as quick.
/// Searches lead to it while ways are short, and trees where they are long.
pub fn solve_from(
    proposal: &mut Proposal,
    search: &mut Search,
    trees: &mut Pseudoflow,
    source: usize,
    sink: usize,
    more: i64,
)
    requires search { search.old ≡ proposal.old }
    requires source { source < proposal.old }
    requires sink { sink < proposal.old }
    ensures proposal { proposal.new ≡ proposal.old }
    ensures search { search.new ≡ search.old }
{
    // No arc has a cost: so each residual arc is tight.
    proposal.level();
    push_near(proposal, search, trees, SOME_PAIRS, TOGETHER);
    bring_home::<true>(proposal, search, trees, source, sink);
    bring_home::<false>(proposal, search, trees, sink, source);
    proposal.add_rest(source, more);
    proposal.add_rest(sink, more.saturating_neg());
    if push_near(proposal, search, trees, MOST_PAIRS, Fuel::GREATEST) {
        return;
    }
    bring_home::<true>(proposal, search, trees, source, sink);
    let _done = take_turns(
        proposal,
        search,
        &mut Goals::ALL,
        MOST_PAIRS,
        Fuel::GREATEST,
    );
}

/// Makes so many pairs of searches, with all pushes after each, while ways are short; once they are not, pushes by trees. Says
/// whether searches alone served.
fn push_near(
    proposal: &mut Proposal,
    search: &mut Search,
    trees: &mut Pseudoflow,
    pairs: usize,
    fuel: Fuel,
) -> bool
    requires { search.old ≡ proposal.old }
    ensures proposal { proposal.new ≡ proposal.old }
    ensures search { search.new ≡ search.old }
{
    let near = Fuel {
        levels: NEAR,
        ..fuel
    };
    search.is_far = false;
    let _done = take_turns(proposal, search, &mut Goals::ALL, pairs, near);
    if search.is_far {
        trees.push_all::<true>(proposal);
    }
    !search.is_far
}

/// Moves what lies in excess, as a side sees it, to the root of that side. What lies at the two roots is kept apart meanwhile.
fn bring_home<const AHEAD: bool>(
    proposal: &mut Proposal,
    search: &mut Search,
    trees: &mut Pseudoflow,
    root: usize,
    other: usize,
)
    requires search { search.old ≡ proposal.old }
    requires root { root < proposal.old }
    requires other { other < proposal.old }
    ensures proposal { proposal.new ≡ proposal.old }
    ensures search { search.new ≡ search.old }
{
    let at_root = proposal.rest(root);
    let at_other = proposal.rest(other);
    let lack = seen::<AHEAD>(-PLENTY);
    proposal.set_rest(other, 0);
    proposal.set_rest(root, lack);
    trees.push_all::<AHEAD>(proposal);
    let _done = take_turns(proposal, search, &mut Goals::ALL, MOST_PAIRS, HOME);
    let brought = proposal.rest(root).saturating_sub(lack);
    proposal.set_rest(root, at_root);
    proposal.set_rest(other, at_other);
    proposal.add_rest(root, brought);
}
