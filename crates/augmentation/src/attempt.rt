//! The tables in which proposals are made and tried.

ghost use Rattle.std.specs.Prelude.{◌≡◌, ◌≤◌, IfOk, length};
ghost use Rattle.residual_graph.specs.Graph.{HasEntries};
ghost use Rattle.residual_graph.specs.Limits.{row_limit};
ghost use Rattle.residual_graph.specs.Residual.{IsPseudoflow};
ghost use Rattle.augmentation.specs.Attempt.{IsAttemptFor};

use containers::both;
use cuts::Excess;
use flow_changes::Trial;
use proposals::{Aim, Proposals, Wanted};
use residual_graph::Graph;
use std::alloc::{AllocError, Global};

/// The most arcs for which a proposal has room.
const MOST_ARCS: usize = 1_000_000_000;

/// A proposal: what makes it, what it comes to, and the tables in which it is tried.
#[derive(Drop)]
pub struct Attempt {
    pub proposals: Proposals,
    pub wanted: Wanted,
    pub trial: Trial,
    /// Whether a proposal was made that nobody tried yet.
    is_at_hand: bool,
}

impl Attempt {
    /// Tables for so many entries, and for so many arcs.
    ///
    /// # Errors
    /// Memory for a table was refused.
    pub fn new(alloc: Global, entries: usize, arcs: usize) -> Result<Attempt, AllocError>
        requires { entries ≤ row_limit }
        ensures { IfOk result (λ a. IsAttemptFor entries a) }
    {
        let arcs = arcs.min(MOST_ARCS);
        let proposals = Proposals::new(alloc, entries, arcs);
        let wanted = Wanted::new(alloc, arcs);
        let trial = Trial::new(alloc, entries);
        let (proposals, (wanted, trial)) = both(proposals, both(wanted, trial))?;
        Ok(Attempt {
            proposals,
            wanted,
            trial,
            is_at_hand: false,
        })
    }

    /// Proposes where to lead a flow, its excess and potentials: the first time from afar, else near the nodes out of
    /// balance.
    pub(crate) fn propose(
        &mut self,
        graph: &Graph,
        flow: &[i64],
        excess: &Excess,
        potentials: &[i64],
    )
        requires tables { IsAttemptFor (length potentials.now) self.old }
        requires graph { HasEntries (length potentials.now) graph.now }
        requires flow { IsPseudoflow (length potentials.now) graph.now.rows flow.now }
        requires excess { length excess.now ≡ length potentials.now }
        ensures { IsAttemptFor (length potentials.now) self.new }
    {
        if self.is_at_hand {
            self.is_at_hand = false;
            return;
        }
        if self.proposals.is_fresh() {
            self.propose_from_afar(graph, flow, excess, potentials);
            return;
        }
        self.proposals
            .catch_up(graph.rows(), flow, &self.wanted.changes);
        self.proposals.propose_near(
            graph.rows(),
            flow,
            excess.entries(),
            potentials,
            excess.unbalanced.places(),
            aim_of(graph),
        );
        self.proposals.write(graph.rows(), flow, &mut self.wanted);
    }

    /// Makes the first proposal from afar, or, where it comes out early that no flow is legal, proposes a greatest flow, whatever
    /// it costs, and says whether it is that. Another proposal is at hand from then on.
    pub(crate) fn propose_or_part(
        &mut self,
        graph: &Graph,
        flow: &[i64],
        excess: &Excess,
        potentials: &[i64],
    ) -> bool
        requires tables { IsAttemptFor (length potentials.now) self.old }
        requires graph { HasEntries (length potentials.now) graph.now }
        requires flow { IsPseudoflow (length potentials.now) graph.now.rows flow.now }
        requires excess { length excess.now ≡ length potentials.now }
        ensures { IsAttemptFor (length potentials.now) self.new }
    {
        if !self.proposals.is_fresh() || aim_of(graph) == Aim::GreatestFlow {
            return false;
        }
        let is_parted = self
            .proposals
            .propose_or_part(graph.rows(), flow, excess.entries(), potentials);
        self.proposals.write(graph.rows(), flow, &mut self.wanted);
        self.is_at_hand = !is_parted;
        is_parted
    }

    /// Brings the ends in step with a flow that was led to what is wanted.
    pub(crate) fn follow(&mut self, graph: &Graph, flow: &[i64])
        requires { length flow.now ≡ length graph.now.rows }
        ensures { self.new ≡ self.old }
    {
        if self.trial.order.has_circles {
            self.proposals
                .follow(graph.rows(), flow, &self.wanted.changes);
        } else {
            self.proposals.follow(graph.rows(), flow, &[]);
        }
    }

    /// Brings the ends in step with a flow.
    pub(crate) fn keep_step(&mut self, graph: &Graph, flow: &[i64])
        requires { length flow.now ≡ length graph.now.rows }
        ensures { self.new ≡ self.old }
    {
        self.proposals
            .catch_up(graph.rows(), flow, &self.wanted.changes);
        self.proposals.take_over_arcs(graph.rows(), flow);
    }

    /// Takes over now what the next proposal near an edit would have to take over.
    pub(crate) fn prepare(
        &mut self,
        graph: &Graph,
        flow: &[i64],
        excess: &Excess,
        potentials: &[i64],
    )
        requires tables { IsAttemptFor (length potentials.now) self.old }
        requires flow { IsPseudoflow (length potentials.now) graph.now.rows flow.now }
        requires excess { length excess.now ≡ length potentials.now }
        ensures { IsAttemptFor (length potentials.now) self.new }
    {
        self.proposals
            .catch_up(graph.rows(), flow, &self.wanted.changes);
        self.proposals.take_over(
            graph.rows(),
            flow,
            excess.entries(),
            potentials,
            excess.unbalanced.places(),
        );
    }

    /// Proposes where to lead a flow, its excess and potentials, and looks at all nodes for that.
    pub(crate) fn propose_from_afar(
        &mut self,
        graph: &Graph,
        flow: &[i64],
        excess: &Excess,
        potentials: &[i64],
    )
        requires tables { IsAttemptFor (length potentials.now) self.old }
        requires graph { HasEntries (length potentials.now) graph.now }
        requires flow { IsPseudoflow (length potentials.now) graph.now.rows flow.now }
        requires excess { length excess.now ≡ length potentials.now }
        ensures { IsAttemptFor (length potentials.now) self.new }
    {
        let aim = aim_of(graph);
        self.proposals
            .propose(graph.rows(), flow, excess.entries(), potentials, aim);
        self.proposals.write(graph.rows(), flow, &mut self.wanted);
    }
}

/// What proposals are to reach.
fn aim_of(graph: &Graph) -> Aim {
    if graph.return_arcs() > 0 {
        Aim::GreatestFlow
    } else {
        Aim::LeastCost
    }
}
