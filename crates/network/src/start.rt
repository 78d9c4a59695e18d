//! The instance that a problem begins with.
ghost use Rattle.std.specs.Prelude.{◌≡◌, All, AllPairs, IfOk, vec_len};
ghost use Rattle.dimacs_lines.specs.Fields.{IsNode};
ghost use Rattle.dimacs_text.specs.Lawful.{NamesOthers};
ghost use Rattle.dimacs_text.specs.Problem.{node_of, sink_of, source_of};
ghost use Rattle.network.specs.Instance.{by_node, first};
ghost use Rattle.network.specs.Representation.{instance_of, CanBegin};
ghost use Rattle.network.specs.Start.{goal_of, marked_supply, supply_or, unmarked_supply};

use crate::{Goal, Network};
use dimacs_text::{ARC_LIMIT, Kind, NodeMark, Problem};
use std::alloc::{AllocError, Global};

/// The node that is named as the source, or 0.
fn source_of(marks: &[NodeMark]) -> u32
    ensures { result ≡ source_of marks.now }
{
    for mark in marks {
        if let NodeMark::Source(id) = mark {
            return *id;
        }
    }
    0
}

/// The node that is named as the sink, or 0.
fn sink_of(marks: &[NodeMark]) -> u32
    ensures { result ≡ sink_of marks.now }
{
    for mark in marks {
        if let NodeMark::Sink(id) = mark {
            return *id;
        }
    }
    0
}

/// What a problem asks for.
fn goal_of(kind: Kind, marks: &[NodeMark]) -> Goal
    ensures { result ≡ goal_of kind marks.now }
{
    match kind {
        Kind::Min => Goal::LeastCost,
        Kind::Max => Goal::GreatestFlow {
            source: source_of(marks),
            sink: sink_of(marks),
        },
        Kind::Asn => Goal::Assignment,
    }
}

/// The supply that a mark gives its node in the reduced instance.
fn marked_supply(mark: &NodeMark) -> i64
    ensures { result ≡ marked_supply mark.now }
{
    match mark {
        NodeMark::Supply { value, .. } => *value,
        NodeMark::Source(_) | NodeMark::Sink(_) => 0,
        NodeMark::Side(_) => 1,
    }
}

/// The supply in the reduced instance of a node that no mark names.
fn unmarked_supply(kind: Kind) -> i64
    ensures { result ≡ unmarked_supply kind }
{
    match kind {
        Kind::Min | Kind::Max => 0,
        Kind::Asn => -1,
    }
}

/// The supplies of the reduced instance.
fn supplies_of(
    alloc: Global,
    nodes: u32,
    marks: &[NodeMark],
    unmarked: i64,
) -> Result<Vec<i64>, AllocError>
    requires nodes { All (λ mark. IsNode nodes (node_of mark)) marks.now }
    requires once { AllPairs NamesOthers marks.now }
    ensures { IfOk result
        (λ supplies. supplies.items ≡ by_node nodes (λ v. supply_or marks.now v unmarked)) }
{
    let mut supplies = vec![in alloc; unmarked; nodes as usize]?;
    for mark in marks {
        supplies[mark.node() as usize - 1] = marked_supply(mark);
    }
    Ok(supplies)
}

/// An instance before its arcs are put in.
#[derive(Drop)]
pub(crate) struct Frame {
    pub(crate) goal: Goal,
    /// Those of the reduced instance.
    pub(crate) supplies: Vec<i64>,
    /// How many arcs there may be.
    pub(crate) room: usize,
}

/// The frame of a problem, with room for `extra` arcs more, up to the limit.
fn frame_of(alloc: Global, problem: &Problem, extra: u32) -> Result<Frame, AllocError>
    ensures begins { IfOk result
        (λ frame. CanBegin frame.goal frame.supplies.items problem.now.arcs frame.room) }
    ensures instance { IfOk result
        (λ frame. instance_of (vec_len frame.supplies) frame.goal frame.supplies.items
        problem.now.arcs frame.room ≡ first problem.now extra) }
{
    let kind = problem.kind();
    let marks = problem.marks();
    let supplies = supplies_of(alloc, problem.nodes(), marks, unmarked_supply(kind))?;
    Ok(Frame {
        goal: goal_of(kind, marks),
        supplies,
        room: (ARC_LIMIT as usize).min(problem.arcs().len() + extra as usize),
    })
}

/// The network of a problem, with room for `extra` arcs more, up to the limit. All room for arcs is taken here.
pub fn build(alloc: Global, problem: &Problem, extra: u32) -> Result<Network, AllocError>
    ensures { IfOk result (λ network. network ≡ first problem.now extra) }
{
    let frame = frame_of(alloc, problem, extra)?;
    let arcs = Vec::from_slice(alloc, problem.arcs())?;
    Network::new(alloc, frame, arcs)
}

/// The same of a problem that is given up: its table of arcs becomes that of the network.
pub fn build_from(alloc: Global, problem: Problem, extra: u32) -> Result<Network, AllocError>
    ensures { IfOk result (λ network. network ≡ first problem extra) }
{
    let frame = frame_of(alloc, &problem, extra)?;
    Network::new(alloc, frame, problem.into_arcs())
}
