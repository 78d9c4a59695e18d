//! What a problem text says.

ghost use Rattle.std.specs.Prelude.{◌≡◌};

use std::marker::Model;

/// The kinds of problems of the DIMACS network formats (First DIMACS Implementation Challenge, 1991).
#[derive(Clone, Copy, Debug, PartialEq, Eq)]
pub enum Kind {
    /// Minimum-cost flow.
    Min,
    /// Maximum flow.
    Max,
    /// Assignment.
    Asn,
}

/// What a node line says.
#[derive(Clone, Copy, Debug, PartialEq, Eq)]
pub enum NodeMark {
    /// `min`: a node and its supply, -`SUPPLY_LIMIT` to `SUPPLY_LIMIT`; a negative one is a demand.
    Supply { id: u32, value: i64 },
    /// `max`: the source.
    Source(u32),
    /// `max`: the sink.
    Sink(u32),
    /// `asn`: a node of the source side.
    Side(u32),
}

impl NodeMark {
    ghost use Rattle.dimacs_text.specs.Problem.{node_of};

    /// The node that it names, counted from 1.
    pub fn node(&self) -> u32
        ensures { result ≡ node_of self.now }
    {
        match self {
            NodeMark::Supply { id, .. } => *id,
            NodeMark::Source(id) => *id,
            NodeMark::Sink(id) => *id,
            NodeMark::Side(id) => *id,
        }
    }
}

/// An arc: nodes counted from 1; bounds in units of flow, `0 <= low <= cap <= CAP_LIMIT`; cost a unit of flow. `max`:
/// low and cost 0; `asn`: low 0, cap 1, or 0 once closed. The return arc of `network` is of this type too, but
/// belongs to no problem: its cap is greater than `CAP_LIMIT`, its cost -1.
#[derive(Clone, Copy, Debug, PartialEq, Eq)]
pub struct ArcRow {
    pub tail: u32,
    pub head: u32,
    pub low: i64,
    pub cap: i64,
    pub cost: i64,
}

/// What the problem line says.
#[derive(Clone, Copy)]
pub struct Size {
    pub kind: Kind,
    pub nodes: u32,
    pub arcs: u32,
}

/// The most nodes of a problem.
pub const NODE_LIMIT: u32 = 50_000;
/// The most arcs of a problem.
pub const ARC_LIMIT: u32 = 100_000;
/// The greatest capacity, and lower bound.
pub const CAP_LIMIT: u64 = 1_000_000_000;
/// The greatest cost, either way.
pub const COST_LIMIT: i64 = 1_000_000_000_000;
/// The greatest supply, either way.
pub const SUPPLY_LIMIT: i64 = 1_000_000_000;

/// A problem, which keeps the limits and the rules of its kind, whether a `ProblemReader` or a caller made it.
#[derive(Drop)]
pub struct Problem {
    kind: Kind,
    nodes: u32,
    marks: Vec<NodeMark>,
    arcs: Vec<ArcRow>,
}

impl Model for Problem {
    ghost use Rattle.dimacs_text.specs.Reading.{ProblemValue};

    ghost Value = { ProblemValue };

    ghost view = { λ p. record { kind = p.kind; nodes = p.nodes; marks = p.marks.items; arcs = p.arcs.items } };

    ghost use Rattle.dimacs_text.specs.Lawful.{IsProblem};

    ghost invariant = { λ p. IsProblem p.kind p.nodes p.marks.items p.arcs.items };
}

impl Problem {
    ghost use Rattle.dimacs_text.specs.Lawful.{IsProblem};

    /// A problem of what its lines say. Its marks and arcs have to keep the limits and the rules of the kind.
    pub fn new(size: Size, marks: Vec<NodeMark>, arcs: Vec<ArcRow>) -> Self
        requires { IsProblem size.kind size.nodes marks.items arcs.items }
        ensures { result ≡ record {
          kind = size.kind;
          nodes = size.nodes;
          marks = marks.items;
          arcs = arcs.items;
        } }
    {
        Problem {
            kind: size.kind,
            nodes: size.nodes,
            marks,
            arcs,
        }
    }

    /// The kind.
    pub fn kind(&self) -> Kind
        ensures { result ≡ self.now.kind }
    {
        self.kind
    }

    /// The number of nodes, 1 to `NODE_LIMIT`. Each problem is lawful.
    pub fn nodes(&self) -> u32
        ensures value { result ≡ self.now.nodes }
        ensures lawful { IsProblem self.now.kind self.now.nodes self.now.marks self.now.arcs }
    {
        self.nodes
    }

    /// What the node lines say, in order.
    pub fn marks(&self) -> &[NodeMark]
        ensures { result.now ≡ self.now.marks }
    {
        self.marks.as_slice()
    }

    /// What the arc lines say, in order.
    pub fn arcs(&self) -> &[ArcRow]
        ensures { result.now ≡ self.now.arcs }
    {
        self.arcs.as_slice()
    }

    /// The same of a problem that is given up: the table itself.
    pub fn into_arcs(self) -> Vec<ArcRow>
        ensures { result.items ≡ self.arcs }
    {
        let Problem { arcs, .. } = self;
        arcs
    }
}
