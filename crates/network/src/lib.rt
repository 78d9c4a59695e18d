//! Networks, flows, and the checkers of answers to a flow problem.
#![tactic(auto)]

mod bounds;
mod check;
mod cost;
mod cut;
mod edit;
mod edited;
mod limits;
mod net;
mod refusal;
mod signs;
mod start;
mod views;

ghost use Rattle.std.specs.Prelude.{vec_capacity};
ghost use Rattle.network.specs.Instance.{Instance};
ghost use Rattle.network.specs.Representation.{arcs_in, ends_in, instance_of, IsSound};

pub use check::{check_best, check_cut};
use dimacs_text::ArcRow;
pub use edited::{edits_follow, edits_keep_lawful};
pub use limits::limits_are;
pub use net::ends_come_once;
pub use refusal::EditRefusal;
pub use signs::{reduced_by, reduced_cost};
pub use start::{build, build_from};
use std::marker::Model;

/// The least potential, in cost a unit of flow; the greatest is 0.
pub const LEAST_POTENTIAL: i64 = -50_000_000_000_000_000;
/// The capacity of the return arc, in units of flow. No flow exceeds it: it is what all arcs together can carry at
/// most.
pub const RETURN_CAP: i64 = 100_000_000_000_000;

/// What is asked for.
#[derive(Clone, Copy, Debug, PartialEq, Eq)]
pub(crate) enum Goal {
    /// A least-cost flow that sends out each node's supply.
    LeastCost,
    /// A greatest flow from the source to the sink.
    GreatestFlow { source: u32, sink: u32 },
    /// A cheapest perfect assignment.
    Assignment,
}

/// The two forms of the value of a cut.
#[derive(Clone, Copy, Debug, PartialEq, Eq)]
pub(crate) enum CutForm {
    /// What a set has to send out beyond what its arcs can carry off.
    Surplus,
    /// What a set has to send out by its lower bounds beyond what it has and can receive.
    Shortfall,
}

/// An instance, with the list of the arcs' ends at each node.
#[derive(Drop)]
pub struct Network {
    nodes: u32,
    goal: Goal,
    /// Those of the reduced instance, so that every kind is balanced alike.
    supplies: Vec<i64>,
    /// Those of the reduced instance too: the return arc, where there is one, then the arcs.
    rows: Vec<ArcRow>,
    /// How many arcs there may be; all room for them is reserved.
    room: usize,
    /// The greatest end at each node. An entry is the number of an end and 1, or 0 where there is none.
    first: Vec<u32>,
    /// The greatest end below each end at its node, in such entries.
    next: Vec<u32>,
}

impl Model for Network {
    ghost Value = { Instance };

    ghost view = { λ n. instance_of n.nodes n.goal n.supplies.items (arcs_in n.goal n.rows.items) n.room };

    ghost invariant = { λ n. IsSound n.nodes n.goal n.supplies.items n.rows.items n.room (ends_in n.first.items) (ends_in n.next.items)
        (vec_capacity n.rows) (vec_capacity n.next) };
}
