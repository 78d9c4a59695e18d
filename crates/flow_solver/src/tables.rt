//! A network with an answer to it, and what stood before its last change.

mod changes;
mod exchanges;

ghost use Rattle.std.specs.Prelude.{◌≡◌, ◌≢◌, AllPairs, ◌≤◌, IfOk, IfSome, IsSome, None, Some, length, ◌+◌};
ghost use Rattle.dimacs_lines.specs.Fields.{IsNode};
ghost use Rattle.network.specs.Instance.{arc_at, reduced_supply};
ghost use Rattle.network.specs.Rows.{return_arcs};
ghost use Rattle.tracked.specs.Touched.{NameChanges};
ghost use Rattle.flow_solver.specs.Edit.{IsCertifiedMoment};
ghost use Rattle.flow_solver.specs.Moment.{IsStart, arc_flows};
ghost use Rattle.flow_solver.specs.Part.{LeadsBefore};

use crate::balance::Balance;
use crate::part::{Before, Part, row_before, supply_before};
use crate::potentials::Potentials;
use crate::start::{start_balance, start_nodes};
use crate::verdict::Verdict;
use augmentation::Scratch;
use cuts::Cut;
use dimacs_text::{ArcRow, GROUP_LIMIT, NODE_LIMIT};
use network::Network;
use residual_graph::Graph;
use std::alloc::{AllocError, Global};
use std::marker::Model;
use tracked::Tracked;

/// A network with a flow, the potentials and the cut that prove what is told of it, the room of the searches, and, after
/// a change, what stood before it.
///
/// All tables have their final size from the start. An exchange or a solve forgets what stood before the last change.
#[derive(Drop)]
pub struct Tables {
    graph: Graph,
    flow: Tracked<i64>,
    potentials: Potentials,
    balance: Balance,
    cut: Cut,
    scratch: Scratch,
    verdict: Verdict,
    before: Before,
}

impl Model for Tables {
    ghost use Rattle.std.specs.Prelude.{drop};
    ghost use Rattle.flow_solver.specs.TablesView.{TablesView};
    ghost use Rattle.flow_solver.specs.Part.{before_of};
    ghost use Rattle.flow_solver.specs.Tables.{AreConsistent, kept_by};

    ghost Value = { TablesView };

    ghost view = { λ t. record {
      moment = record { instance = t.graph.net; flow = t.flow.entries; potentials = drop 1 t.potentials.table.entries; verdict = t.verdict; cut = drop 1 t.cut.entries };
      kept = kept_by t.flow t.potentials.table t.cut t.before.log.items;
      before = before_of t.before.verdict t.graph.net (kept_by t.flow t.potentials.table t.cut t.before.log.items);
    } };

    ghost invariant = { λ t. AreConsistent t.graph t.flow t.potentials t.balance t.cut t.scratch t.before };
}

impl Tables {
    /// The tables of a network at the start: each arc of the reduced instance whose cost is below 0 at its cap, every
    /// other at its low, and potentials 0.
    ///
    /// # Errors
    /// Memory for a table was refused.
    pub fn new(alloc: Global, net: Network) -> Result<Tables, AllocError>
        ensures start { IfOk result (λ t. IsStart net t.moment) }
        ensures before { IfOk result (λ t. t.before ≡ None) }
        ensures certified { IfOk result (λ t. IsCertifiedMoment t.moment) }
    {
        let log = Vec::with_capacity(alloc, GROUP_LIMIT)?;
        let graph = Graph::new(net);
        let (flow, balance) = start_balance(alloc, &graph)?;
        let arcs = graph.network().room() as usize + 1;
        let (potentials, cut, scratch) = start_nodes(alloc, graph.network().nodes(), arcs)?;
        Ok(Tables {
            graph,
            flow,
            potentials,
            balance,
            cut,
            scratch,
            verdict: Verdict::Best(0),
            before: Before { log, verdict: None },
        })
    }

    /// The network.
    pub fn network(&self) -> &Network
        ensures { result.now ≡ self.now.moment.instance }
    {
        self.graph.network()
    }

    /// The flow of each arc, in the order of the arcs.
    pub fn flow(&self) -> &[i64]
        ensures value { result.now ≡ arc_flows self.now.moment }
        ensures one_an_arc { length result.now ≡ length self.now.moment.instance.arcs }
    {
        &self.flow.entries()[self.graph.return_arcs()..]
    }

    /// The potential of each node, in the order of the nodes.
    pub fn potentials(&self) -> &[i64]
        ensures value { result.now ≡ self.now.moment.potentials }
        ensures one_a_node { length result.now ≡ self.now.moment.instance.nodes }
        ensures few { length result.now ≤ NODE_LIMIT }
    {
        &self.potentials.table.entries()[1..]
    }

    /// A mark for each node, set where the node is in the cut.
    pub fn cut(&self) -> &[bool]
        ensures value { result.now ≡ self.now.moment.cut }
        ensures one_a_node { length result.now ≡ self.now.moment.instance.nodes }
        ensures few { length result.now ≤ NODE_LIMIT }
    {
        &self.cut.table().entries()[1..]
    }

    /// The verdict.
    pub fn verdict(&self) -> Verdict
        ensures { result ≡ self.now.moment.verdict }
    {
        self.verdict
    }

    /// The flow of each arc before the last change.
    pub fn old_flow(&self) -> &[i64]
        requires { IsSome self.now.before }
        ensures { IfSome self.now.before (λ old. result.now ≡ arc_flows old) }
    {
        let first = self.graph.network().return_arcs();
        &self.flow.before()[first..]
    }

    /// The potential of each node before the last change.
    pub fn old_potentials(&self) -> &[i64]
        requires { IsSome self.now.before }
        ensures { IfSome self.now.before (λ old. result.now ≡ old.potentials) }
    {
        &self.potentials.table.before()[1..]
    }

    /// The marks of the nodes before the last change.
    pub fn old_cut(&self) -> &[bool]
        requires { IsSome self.now.before }
        ensures { IfSome self.now.before (λ old. result.now ≡ old.cut) }
    {
        &self.cut.table().before()[1..]
    }

    /// What was told of the instance before the last change.
    pub fn old_verdict(&self) -> Verdict
        requires { IsSome self.now.before }
        ensures { IfSome self.now.before (λ old. result ≡ old.verdict) }
    {
        match self.before.verdict {
            Some(verdict) => verdict,
            None => unreachable!(),
        }
    }

    /// Places of the flow, in no order, which name each arc whose flow the last change altered, and maybe others: arc k has
    /// place k - 1, and place k where a return arc stands first. The flow of every arc not named is what it was.
    pub fn touched_flow(&self) -> &[u32]
        requires { IsSome self.now.before }
        ensures named { IfSome self.now.before
            (λ old. NameChanges (return_arcs old.instance.demand) result.now
            (arc_flows old) (arc_flows self.now.moment)) }
        ensures apart { AllPairs ◌≢◌ result.now }
    {
        self.flow.places()
    }

    /// Nodes, in no order, which are all those whose potential the last change altered, and maybe others; 0 may be there,
    /// and is no node. The potential of every node not named is what it was.
    pub fn touched_potentials(&self) -> &[u32]
        requires { IsSome self.now.before }
        ensures named { IfSome self.now.before
            (λ old. NameChanges 1 result.now old.potentials self.now.moment.potentials) }
        ensures apart { AllPairs ◌≢◌ result.now }
    {
        self.potentials.table.places()
    }

    /// Nodes, in no order, which are all those whose mark the last change altered, and maybe others; 0 may be there, and is
    /// no node. The mark of every node not named is what it was.
    pub fn touched_cut(&self) -> &[u32]
        requires { IsSome self.now.before }
        ensures named { IfSome self.now.before
            (λ old. NameChanges 1 result.now old.cut self.now.moment.cut) }
        ensures apart { AllPairs ◌≢◌ result.now }
    {
        self.cut.table().places()
    }

    /// What each edit of the last change replaced, in their order: the parts that lead back before it, the last first.
    pub fn old_parts(&self) -> &[Part]
        requires { IsSome self.now.before }
        ensures logged { result.now ≡ self.now.kept.log }
        ensures back { LeadsBefore result.now self.now }
    {
        &self.before.log
    }

    /// The arc with this number before the last change, if it was there.
    pub fn old_row(&self, k: u32) -> Option<ArcRow>
        requires { IsSome self.now.before }
        ensures { IfSome self.now.before (λ old. result ≡ arc_at old.instance.arcs k) }
    {
        row_before(self.graph.network(), &self.before.log, k)
    }

    /// What a node had to send out before the last change, if it is a node.
    pub fn old_supply(&self, id: u32) -> Option<i64>
        requires { IsSome self.now.before }
        ensures node { IfSome self.now.before (λ old. IsNode old.instance.nodes id
            → result ≡ Some (reduced_supply old.instance.demand id)) }
        ensures no_node { IfSome self.now.before
            (λ old. ¬ IsNode old.instance.nodes id → result ≡ None) }
    {
        supply_before(self.graph.network(), &self.before.log, id)
    }
}
