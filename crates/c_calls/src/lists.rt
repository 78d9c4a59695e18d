//! The lists of the present moment, copied to where C has room for them.

ghost use Rattle.std.specs.Prelude.{◌≡◌, ◌≢◌, pos, length};
ghost use Rattle.network.specs.Flow.{IsGreatestPotential};
ghost use Rattle.network.specs.Instance.{IsBest, at_node, reduced};
ghost use Rattle.flow_solver.specs.Answer.{IsAnswered};
ghost use Rattle.session.specs.Parts.{flow_of};
ghost use Rattle.session.specs.Session.{present};
ghost use Rattle.c_calls.specs.Library.{CertifyFlow, IsBreachOf, IsChosen, NoneIsLegal, arc_count, given, given_of, has_cut, has_flow, is_feasible, node_count};

use crate::status::{NOT_THERE, OTHER_LENGTH};
use flow_solver::Verdict;
use session::Session;

/// Copies the best flow, one entry an arc in their order.
pub fn give_flow(session: &Session, room: &mut [i64]) -> i32
    ensures status { result ≡ given_of (present session.now) has_flow arc_count (length room.old) }
    ensures copied { result ≡ pos 0 → room.new ≡ flow_of (present session.now) }
    ensures best { result ≡ pos 0 → IsBest (present session.now).instance room.new }
    ensures unchanged { result ≢ pos 0 → room.new ≡ room.old }
{
    give(is_feasible(session), session.flow(), room)
}

/// Copies the greatest potentials that certify the best flow, one entry a node in their order.
pub fn give_potentials(session: &Session, room: &mut [i64]) -> i32
    ensures status { result ≡ given_of (present session.now) has_flow node_count (length room.old) }
    ensures copied { result ≡ pos 0 → room.new ≡ (present session.now).potentials }
    ensures certified { result ≡ pos 0 → CertifyFlow room.new (present session.now) }
    ensures greatest { result ≡ pos 0 → IsGreatestPotential
        (reduced (present session.now).instance) (present session.now).flow (at_node room.new) }
    ensures unchanged { result ≢ pos 0 → room.new ≡ room.old }
{
    give(is_feasible(session), session.potentials(), room)
}

/// Copies the chosen cut that shows why no flow is legal, one mark a node in their order.
pub fn give_cut(session: &Session, room: &mut [bool]) -> i32
    ensures status { result ≡ given_of (present session.now) has_cut node_count (length room.old) }
    ensures copied { result ≡ pos 0 → room.new ≡ (present session.now).cut }
    ensures none_legal { result ≡ pos 0 → NoneIsLegal (present session.now) }
    ensures breach { result ≡ pos 0 → IsBreachOf room.new (present session.now) }
    ensures chosen { result ≡ pos 0 → IsChosen room.new (present session.now) }
    ensures unchanged { result ≢ pos 0 → room.new ≡ room.old }
{
    give(!is_feasible(session), session.cut(), room)
}

/// Whether the present moment has a legal flow.
fn is_feasible(session: &Session) -> bool
    ensures value { result ≡ is_feasible (present session.now).verdict }
    ensures answered { IsAnswered (present session.now) }
{
    match session.verdict() {
        Verdict::Best(_) => true,
        Verdict::Infeasible(_) => false,
    }
}

/// Copies a list that is there to a room of its length, and tells whether it did.
fn give<T: Copy>(there: bool, list: &[T], room: &mut [T]) -> i32
    ensures status { result ≡ given there (length list.now) (length room.old) }
    ensures copied { result ≡ pos 0 → room.new ≡ list.now }
    ensures unchanged { result ≢ pos 0 → room.new ≡ room.old }
{
    if !there {
        return NOT_THERE;
    }
    if list.len() != room.len() {
        return OTHER_LENGTH;
    }
    room.copy_from_slice(list);
    0
}
