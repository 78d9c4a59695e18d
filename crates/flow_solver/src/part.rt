//! Places of an instance, and what a change of it replaced there.

ghost use Rattle.std.specs.Prelude.{◌≡◌, IsOk, None, Some};
ghost use Rattle.network.specs.Edited.{edited};
ghost use Rattle.dimacs_lines.specs.Fields.{IsNode};
ghost use Rattle.network.specs.Instance.{IsLawful, arc_at, reduced_supply};

use crate::answer::supply_at;
use crate::edit::{arc_of, edited_row, edited_supply};
use crate::verdict::Verdict;
use dimacs_text::{ArcRow, Edit};
use network::{Network, edits_keep_lawful};

/// A place of an instance where another one differs, with what the other one has there.
#[derive(Clone, Copy, Debug, PartialEq, Eq)]
pub enum Part {
    /// The bounds and the cost of an arc, which is counted from 1.
    Arc { k: u32, row: ArcRow },
    /// The supply of a node, which is counted from 1.
    Supply { id: u32, value: i64 },
    /// An added arc that only this one has: one of the last, of which each has a part.
    Last,
    /// An added arc that only the other one has, with its flow.
    Gone { row: ArcRow, flow: i64 },
}

/// What a change replaced, beside the snapshots of the `Tracked` tables.
#[derive(Drop)]
pub struct Before {
    /// What each edit since then replaced, one after the other. No edit takes an arc off, so none is gone.
    pub log: Vec<Part>,
    /// What was told of the instance, as long as the change can be taken back.
    pub verdict: Option<Verdict>,
}

ghost use Rattle.flow_solver.specs.Part.{before_all, place_of_edit, place_of_part, CanTakeBackAll, TakesBack};

/// What an accepted edit will replace.
pub fn part_of(net: &Network, edit: &Edit) -> Part
    requires lawful { IsLawful net.now }
    requires accepted { IsOk (edited net.now edit.now) }
    ensures takes_back { TakesBack net.now edit.now result }
    ensures place { place_of_part result ≡ place_of_edit edit.now }
{
    edits_keep_lawful();
    match edit {
        Edit::Supply { .. } => {
            let (id, _) = edited_supply(net, edit);
            Part::Supply {
                id,
                value: supply_at(net, id),
            }
        }
        Edit::Add { .. } => Part::Last,
        _ => {
            let (k, _) = edited_row(net, edit);
            Part::Arc {
                k,
                row: arc_of(net, u64::from(k)),
            }
        }
    }
}

/// The arc with this number before all that is logged, if it was there.
pub fn row_before(net: &Network, log: &[Part], k: u32) -> Option<ArcRow>
    requires { CanTakeBackAll log.now net.now }
    ensures { result ≡ arc_at (before_all log.now net.now).arcs k }
{
    let mut row = net.arc(k);
    let mut arcs = net.arcs();
    let mut i = log.len();
    while i > 0 {
        i -= 1;
        match log[i] {
            Part::Arc { k: arc, row: other } => {
                if arc == k {
                    row = Some(other);
                }
            }
            Part::Supply { .. } => {}
            Part::Last => {
                if arcs == k {
                    row = None;
                }
                arcs -= 1;
            }
            Part::Gone { .. } => unreachable!(),
        }
    }
    row
}

/// What a node had to send out before all that is logged, if it is a node.
pub fn supply_before(net: &Network, log: &[Part], id: u32) -> Option<i64>
    requires { CanTakeBackAll log.now net.now }
    ensures node { IsNode net.now.nodes id
        → result ≡ Some (reduced_supply (before_all log.now net.now).demand id) }
    ensures no_node { ¬ IsNode net.now.nodes id → result ≡ None }
{
    if id > net.nodes() {
        return None;
    }
    let mut supply = net.reduced_supply(id);
    let mut i = log.len();
    while i > 0 {
        i -= 1;
        if let Part::Supply { id: node, value } = log[i] {
            if node == id {
                supply = Some(value);
            }
        }
    }
    supply
}
