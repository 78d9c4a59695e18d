//! Exchanges: what stands at one place goes, and something else comes. Each forgets what stood before the last change.

ghost use Rattle.std.specs.Prelude.{◌≡◌, ◌-◌, ◌<◌, ◌≤◌, ◌++◌, ◌∷◌, [], None, length, slice_index_or};
ghost use Rattle.dimacs_lines.specs.Fields.{IsNode};
ghost use Rattle.dimacs_text.specs.Lawful.{IsWithin};
ghost use Rattle.dimacs_text.specs.declared.problem.TheConstants.{SUPPLY_LIMIT};
ghost use Rattle.dimacs_text.specs.declared.problem.Kind.TheVariants.{Min};
ghost use Rattle.network.specs.Flow.{IsPotential};
ghost use Rattle.network.specs.Edited.{with_last};
ghost use Rattle.network.specs.Instance.{kind_of, reduced};
ghost use Rattle.flow_solver.specs.TablesView.{IsFlowValue, IsRowOf, HasEnds, flow_or, supplies_in, with_flow_at, with_last_arc, with_mark_at, with_potential_at, with_row_at, with_supply_at};
ghost use Rattle.flow_solver.specs.Moment.{ReturnMatches, VerdictFits, with_verdict};

use super::Tables;
use crate::answer::supply_at;
use crate::balance::{add_difference, carry_over, reprice};
use crate::swaps::{carry_worth, exchange_node};
use crate::verdict::Verdict;
use dimacs_text::ArcRow;

impl Tables {
    /// Exchanges the flow of an arc.
    pub fn swap_flow(&mut self, k: u32, value: &mut i64)
        requires there { (1 ≤ k) × (k ≤ length self.old.moment.instance.arcs) }
        requires flow { IsFlowValue value.old }
        ensures moment { self.new.moment ≡ with_flow_at self.old.moment k value.old }
        ensures value { value.new ≡ flow_or self.old.moment k value.old }
        ensures kept { self.new.kept ≡ self.old.kept }
        ensures before { self.new.before ≡ None }
    {
        self.before.verdict = None;
        self.potentials.greatest = false;
        let place = self.graph.return_arcs() + (k as usize - 1);
        carry_over(
            &mut self.balance.excess,
            &self.graph.rows()[place],
            self.flow.get(place),
            *value,
        );
        self.flow.exchange(place, value);
    }

    /// Exchanges the potential of a node.
    pub fn swap_potential(&mut self, id: u32, value: &mut i64)
        requires node { IsNode self.old.moment.instance.nodes id }
        requires potential { IsPotential value.old }
        ensures moment { self.new.moment ≡ with_potential_at self.old.moment id value.old }
        ensures value { value.new ≡ slice_index_or self.old.moment.potentials (id - 1) value.old }
        ensures kept { self.new.kept ≡ self.old.kept }
        ensures before { self.new.before ≡ None }
    {
        self.before.verdict = None;
        self.potentials.greatest = false;
        exchange_node(&mut self.potentials.table, id, value);
        self.scratch.note_potential(id as usize);
    }

    /// Exchanges the mark of a node.
    pub fn swap_mark(&mut self, id: u32, value: &mut bool)
        requires { IsNode self.old.moment.instance.nodes id }
        ensures moment { self.new.moment ≡ with_mark_at self.old.moment id value.old }
        ensures value { value.new ≡ slice_index_or self.old.moment.cut (id - 1) value.old }
        ensures kept { self.new.kept ≡ self.old.kept }
        ensures before { self.new.before ≡ None }
    {
        self.before.verdict = None;
        self.cut.exchange(id as usize, value);
    }

    /// Exchanges what is told of the instance. Where there is a return arc, its flow goes with the worth that is told.
    pub fn swap_verdict(&mut self, verdict: &mut Verdict)
        requires fits { VerdictFits self.old.moment.instance.demand verdict.old }
        requires worth { ReturnMatches self.old.moment }
        ensures moment { self.new.moment ≡ with_verdict self.old.moment verdict.old }
        ensures value { verdict.new ≡ self.old.moment.verdict }
        ensures kept { self.new.kept ≡ self.old.kept }
        ensures before { self.new.before ≡ None }
    {
        self.before.verdict = None;
        self.potentials.greatest = false;
        carry_worth(
            self.graph.network(),
            self.graph.rows(),
            &mut self.flow,
            &mut self.balance,
            *verdict,
        );
        let before = self.verdict;
        self.verdict = *verdict;
        *verdict = before;
    }

    /// Exchanges the bounds and the cost of an arc.
    pub fn swap_row(&mut self, k: u32, row: &mut ArcRow)
        requires ends { HasEnds self.old.moment.instance.arcs k row.old }
        requires row { IsRowOf self.old.moment.instance row.old }
        ensures moment { self.new.moment ≡ with_row_at self.old.moment k row.old }
        ensures row { row.new ≡ slice_index_or self.old.moment.instance.arcs (k - 1) row.old }
        ensures kept { self.new.kept ≡ self.old.kept }
        ensures before { self.new.before ≡ None }
    {
        self.before.verdict = None;
        self.potentials.greatest = false;
        let place = self.graph.return_arcs() + (k as usize - 1);
        let before = self.graph.rows()[place];
        self.balance.cost = reprice(
            self.balance.cost,
            before.cost,
            row.cost,
            self.flow.whole()[place],
        );
        self.scratch.note_all(&self.graph, &[place as u32]);
        self.graph.set_row(k, *row);
        *row = before;
    }

    /// Exchanges what a node of a least-cost problem has to send out.
    pub fn swap_supply(&mut self, id: u32, value: &mut i64)
        requires kind { kind_of self.old.moment.instance.demand ≡ Min }
        requires node { IsNode self.old.moment.instance.nodes id }
        requires limit { IsWithin SUPPLY_LIMIT value.old }
        ensures moment { self.new.moment ≡ with_supply_at self.old.moment id value.old }
        ensures value { value.new
            ≡ slice_index_or (supplies_in self.old.moment.instance.demand) (id - 1) value.old }
        ensures kept { self.new.kept ≡ self.old.kept }
        ensures before { self.new.before ≡ None }
    {
        self.before.verdict = None;
        let before = supply_at(self.graph.network(), id);
        add_difference(&mut self.balance.excess, id as usize, before, *value);
        self.graph.set_supply(id, *value);
        *value = before;
    }

    /// Takes the last arc off, and gives its row and its flow.
    pub fn drop_last(&mut self) -> (ArcRow, i64)
        requires { 0 < length self.old.moment.instance.arcs }
        ensures instance { self.old.moment.instance ≡ with_last self.new.moment.instance result.0 }
        ensures flow { self.old.moment.flow ≡ self.new.moment.flow ++ result.1 ∷ [] }
        ensures rest { self.new.moment ≡ record self.old.moment
            { instance = self.new.moment.instance; flow = self.new.moment.flow } }
        ensures kept { length self.old.kept.flow ≤ length (reduced self.new.moment.instance).arcs
            → self.new.kept ≡ self.old.kept }
        ensures before { self.new.before ≡ None }
    {
        self.before.verdict = None;
        self.potentials.greatest = false;
        let last = self.graph.rows().len() - 1;
        let row = self.graph.rows()[last];
        carry_over(&mut self.balance.excess, &row, self.flow.get(last), 0);
        self.balance.cost = reprice(self.balance.cost, self.flow.whole()[last], 0, row.cost);
        // While its ends can still be told.
        self.scratch.note_all(&self.graph, &[last as u32]);
        let row = self.graph.pop_arc();
        let flow = self.flow.pop();
        (row, flow)
    }

    /// Adds an arc with its flow at the end.
    pub fn put_last(&mut self, row: ArcRow, flow: i64)
        requires room { length self.old.moment.instance.arcs < self.old.moment.instance.room }
        requires row { IsRowOf self.old.moment.instance row }
        requires flow { IsFlowValue flow }
        ensures moment { self.new.moment ≡ with_last_arc self.old.moment row flow }
        ensures kept { self.new.kept ≡ self.old.kept }
        ensures before { self.new.before ≡ None }
    {
        self.before.verdict = None;
        self.potentials.greatest = false;
        carry_over(&mut self.balance.excess, &row, 0, flow);
        self.balance.cost = reprice(self.balance.cost, 0, flow, row.cost);
        let added = self.graph.rows().len();
        self.graph.push_arc(row);
        self.scratch.note_all(&self.graph, &[added as u32]);
        self.flow.push(flow);
    }
}
