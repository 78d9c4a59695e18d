//! Changes: an edit is made by exchanges, and then the flow is settled. What stood before can be restored.

ghost use Rattle.std.specs.Prelude.{◌≡◌, pos, ◌<◌, ◌≤◌, ◌<ℤ◌, ◌≤ℤ◌, ◌++◌, ◌∷◌, [], ◌↔◌, IsTrue, IsOk, IsSome, None, Ok, Some, length};
ghost use Rattle.network.specs.Edited.{edited, edited_all};
ghost use Rattle.flow_solver.specs.declared.part.Part.{Part};
ghost use Rattle.dimacs_text.specs.Lawful.{IsLawfulRow};
ghost use Rattle.network.specs.Instance.{at_node, reduced};
ghost use Rattle.flow_solver.specs.Answer.{IsAnswered};
ghost use Rattle.flow_solver.specs.Edit.{CanMake, ChangeAllTo, ChangesTo, HasPotentials, IsCertifiedMoment, IsMadeIn, IsNearestBy, IsOfAdd, IsOfArc, IsOfSupply, KeepsResidualArcs, KeepsResidualArcsAt, MakeAll, PushesTo, arc_flow, arc_reduced, arc_row, left_in};
ghost use Rattle.flow_solver.specs.Moment.{IsWellFormed, brought_back, kept_of};
ghost use Rattle.flow_solver.specs.Part.{before_all, before_part, AreLogged, CanTakeBack, CanTakeBackAll, IsLogged, LeadsBack};

use super::Tables;
use crate::answer::judge;
use crate::balance::{carry_back, cost_now};
use crate::edit::{added_row, arc_of, edited_row, edited_supply, nearest};
use crate::part::{Part, part_of};
use crate::potentials::are_none_below_0;
use crate::settle::push_and_raise;
use crate::verdict::Verdict;
use augmentation::{mark_cut, prepare, show_cut};
use dimacs_text::{ArcRow, Edit, GROUP_LIMIT};
use network::reduced_by;

impl Tables {
    /// Makes the flow a best one, or marks the cut that shows why no flow is legal, and gives the number of pushes.
    pub fn settle(&mut self) -> u64
        requires { IsCertifiedMoment self.old.moment }
        ensures instance { self.new.moment.instance ≡ self.old.moment.instance }
        ensures answered { IsAnswered self.new.moment }
        ensures pushes { PushesTo result self.old.moment self.new.moment }
        ensures count { pos result ≤ℤ left_in self.old.moment }
        ensures before { self.new.before ≡ None }
        ensures kept { self.new.kept ≡ self.old.kept }
    {
        if self.show_cut() {
            return 0;
        }
        self.push_and_judge()
    }

    /// Looks for the cut alone, where no arc can be added, as in a plain solve, and nothing was solved yet. Says whether it came
    /// out early that no flow is legal: then the cut is marked, and the flow stays as it was, since no edit is likely to go on
    /// from it.
    fn show_cut(&mut self) -> bool
        requires { IsCertifiedMoment self.old.moment }
        ensures instance { self.new.moment.instance ≡ self.old.moment.instance }
        ensures flow { self.new.moment.flow ≡ self.old.moment.flow }
        ensures potentials { self.new.moment.potentials ≡ self.old.moment.potentials }
        ensures kept { self.new.kept ≡ self.old.kept }
        ensures answered { IsTrue result → IsAnswered self.new.moment }
        ensures before { self.new.before ≡ None }
    {
        self.before.verdict = None;
        let potentials = self.potentials.table.entries();
        if self.graph.network().room() as usize > self.graph.rows().len()
            || !are_none_below_0(potentials)
        {
            return false;
        }
        let shown = show_cut(
            &self.graph,
            &mut self.flow,
            potentials,
            &mut self.balance.excess,
            &mut self.scratch,
            &mut self.cut,
        );
        match shown {
            Some(shortage) => {
                self.verdict = Verdict::Infeasible(shortage as i64);
                true
            }
            None => false,
        }
    }

    /// Makes all pushes, and judges by what is left.
    fn push_and_judge(&mut self) -> u64
        requires { IsCertifiedMoment self.old.moment }
        ensures instance { self.new.moment.instance ≡ self.old.moment.instance }
        ensures answered { IsAnswered self.new.moment }
        ensures pushes { PushesTo result self.old.moment self.new.moment }
        ensures count { pos result ≤ℤ left_in self.old.moment }
        ensures before { self.new.before ≡ None }
        ensures kept { self.new.kept ≡ self.old.kept }
    {
        self.before.verdict = None;
        let pushed = push_and_raise(
            &self.graph,
            &mut self.flow,
            &mut self.potentials,
            &mut self.balance.excess,
            &mut self.scratch,
        );
        self.potentials.greatest = true;
        mark_cut(
            &self.graph,
            &self.flow,
            &self.balance.excess,
            &mut self.scratch,
            pushed.are_marked,
            &mut self.cut,
        );
        self.verdict = judge(
            self.graph.network(),
            self.graph.rows(),
            &self.flow,
            &self.balance,
        );
        // Edits list the nodes that they touch, balanced ones too.
        self.balance.excess.tidy();
        pushed.count
    }

    /// Applies an edit that the instance accepts, and answers the new instance from where the flow stands: the flow of
    /// an edited arc goes to the nearest value that its bounds and the sign rule allow. What stood before is kept. Gives
    /// the number of pushes after that, which is at most what was left to send out before and the edit's units.
    pub fn change(&mut self, edit: &Edit) -> u64
        requires certified { IsCertifiedMoment self.old.moment }
        requires accepted { IsOk (edited self.old.moment.instance edit.now) }
        ensures instance { edited self.old.moment.instance edit.now ≡ Ok self.new.moment.instance }
        ensures answered { IsAnswered self.new.moment }
        ensures changed { ChangesTo edit.now self.old.moment self.new.moment result }
        ensures before { self.new.before ≡ Some self.old.moment }
    {
        self.change_all(&[*edit])
    }

    /// Applies edits that the instance accepts one after the other, at most `GROUP_LIMIT`, and answers the instance that
    /// they lead to once, as `change` does for one: the flow of each edited arc goes to the nearest value under the
    /// potentials that stood before them all. What stood before is kept, also where there is no edit.
    pub fn change_all(&mut self, edits: &[Edit]) -> u64
        requires few { length edits.now ≤ GROUP_LIMIT }
        requires certified { IsCertifiedMoment self.old.moment }
        requires accepted { IsOk (edited_all self.old.moment.instance edits.now) }
        ensures instance { edited_all self.old.moment.instance edits.now
            ≡ Ok self.new.moment.instance }
        ensures answered { IsAnswered self.new.moment }
        ensures changed { ChangeAllTo edits.now self.old.moment self.new.moment result }
        ensures logged { AreLogged edits.now self.new.kept.log }
        ensures before { self.new.before ≡ Some self.old.moment }
    {
        let verdict = self.verdict;
        self.snapshot();
        make_all(self, edits);
        let pushes = self.settle();
        self.before.verdict = Some(verdict);
        pushes
    }

    /// Gives back what stood before the last change.
    pub fn restore(&mut self)
        requires { IsSome self.old.before }
        ensures moment { self.old.before ≡ Some self.new.moment }
        ensures before { self.new.before ≡ None }
    {
        if let Some(verdict) = self.before.verdict {
            take_back_all(self);
            self.bring_back(verdict);
        }
    }

    /// Makes an edit that the instance accepts, by exchanges: the flow of the edited arc goes to the nearest value that
    /// its bounds and the sign rule allow under the potentials that stand. So the flow is certified still, and can be
    /// settled.
    fn make(&mut self, edit: &Edit)
        requires { CanMake edit.now self.old.moment }
        ensures { IsMadeIn edit.now self.old self.new }
    {
        match edit {
            Edit::Supply { .. } => self.make_supply(edit),
            Edit::Add { .. } => self.make_arc(edit),
            _ => self.make_row(edit),
        }
    }

    /// Makes an accepted edit of an arc.
    fn make_row(&mut self, edit: &Edit)
        requires can { CanMake edit.now self.old.moment }
        requires of_arc { IsOfArc edit.now }
        ensures { IsMadeIn edit.now self.old self.new }
    {
        let (k, mut row) = edited_row(self.graph.network(), edit);
        let before = self.flow_of(k);
        let mut flow = self.nearest_flow(&row, before);
        // Tight arcs alone keep potentials from being greater, by the residual arcs along them.
        let stands = self.potentials.greatest && self.keeps_greatest(k, &row, flow);
        self.swap_row(k, &mut row);
        self.swap_flow(k, &mut flow);
        self.potentials.greatest = stands;
    }

    /// Whether no potentials can be greater than before once an arc has this row and this flow: it is not tight, or keeps
    /// its residual arcs.
    fn keeps_greatest(&self, k: u32, row: &ArcRow, flow: i64) -> bool
        requires arc { (1 ≤ k) × (k ≤ length self.now.moment.instance.arcs) }
        requires range { HasPotentials self.now.moment }
        ensures { IsTrue result → arc_reduced self.now.moment k ≡ pos 0
            → KeepsResidualArcsAt self.now.moment k row.now flow }
    {
        !self.is_tight(k) || self.keeps_residual_arcs_along(k, row, flow)
    }

    /// Whether an arc keeps its residual arcs once it has this row and this flow.
    fn keeps_residual_arcs_along(&self, k: u32, row: &ArcRow, flow: i64) -> bool
        requires arc { (1 ≤ k) × (k ≤ length self.now.moment.instance.arcs) }
        ensures { IsTrue result ↔ KeepsResidualArcsAt self.now.moment k row.now flow }
    {
        keeps_residual_arcs(&self.row_of(k), self.flow_of(k), row, flow)
    }

    /// Whether the reduced cost of an arc is 0 under the potentials that stand.
    fn is_tight(&self, k: u32) -> bool
        requires arc { (1 ≤ k) × (k ≤ length self.now.moment.instance.arcs) }
        requires range { HasPotentials self.now.moment }
        ensures { IsTrue result ↔ (arc_reduced self.now.moment k ≡ pos 0) }
    {
        reduced_by(&self.row_of(k), self.potentials()) == 0
    }

    /// The arc with this number.
    fn row_of(&self, k: u32) -> ArcRow
        requires { (1 ≤ k) × (k ≤ length self.now.moment.instance.arcs) }
        ensures row { result ≡ arc_row self.now.moment k }
        ensures lawful { IsLawfulRow self.now.moment.instance.nodes result }
    {
        arc_of(self.graph.network(), u64::from(k))
    }

    /// Its flow.
    fn flow_of(&self, k: u32) -> i64
        requires { (1 ≤ k) × (k ≤ length self.now.moment.instance.arcs) }
        ensures { result ≡ arc_flow self.now.moment k }
    {
        self.flow()[k as usize - 1]
    }

    /// The flow nearest to this one that the arc and the potentials that stand allow.
    fn nearest_flow(&self, row: &ArcRow, flow: i64) -> i64
        requires row { IsLawfulRow self.now.moment.instance.nodes row.now }
        requires range { HasPotentials self.now.moment }
        ensures { IsNearestBy (at_node self.now.moment.potentials) row.now flow result }
    {
        nearest(row, reduced_by(row, self.potentials()), flow)
    }

    /// Makes an accepted edit of a supply.
    fn make_supply(&mut self, edit: &Edit)
        requires can { CanMake edit.now self.old.moment }
        requires of_supply { IsOfSupply edit.now }
        ensures { IsMadeIn edit.now self.old self.new }
    {
        let (id, mut value) = edited_supply(self.graph.network(), edit);
        self.swap_supply(id, &mut value);
    }

    /// Makes an accepted edit that adds an arc.
    fn make_arc(&mut self, edit: &Edit)
        requires can { CanMake edit.now self.old.moment }
        requires of_add { IsOfAdd edit.now }
        ensures { IsMadeIn edit.now self.old self.new }
    {
        let row = added_row(self.graph.network(), edit);
        let flow = self.nearest_flow(&row, 0);
        // One arc more only takes certifying potentials away.
        let stands = self.potentials.greatest;
        self.put_last(row, flow);
        self.potentials.greatest = stands;
    }

    /// Logs what an edit will replace that the instance accepts.
    fn log_edit(&mut self, edit: &Edit)
        requires room { length self.old.kept.log < GROUP_LIMIT }
        requires accepted { IsOk (edited self.old.moment.instance edit.now) }
        ensures moment { self.new.moment ≡ self.old.moment }
        ensures logged { IsLogged self.old.moment.instance edit.now self.old.kept self.new.kept }
    {
        self.before.verdict = None;
        let part = part_of(self.graph.network(), edit);
        let Ok(()) = self.before.log.push(part) else {
            unreachable!()
        };
    }

    /// Takes the last part off the log, if one is there.
    fn pop_part(&mut self) -> Option<Part>
        ensures moment { self.new.moment ≡ self.old.moment }
        ensures some { (part : Part) → result ≡ Some part
            → self.old.kept ≡ record self.new.kept { log = self.new.kept.log ++ part ∷ [] } }
        ensures none { result ≡ None → (self.old.kept.log ≡ []) × (self.new.kept ≡ self.old.kept) }
    {
        self.before.verdict = None;
        self.before.log.pop()
    }

    /// Takes a change of the instance back.
    fn take_back(&mut self, part: Part)
        requires can { CanTakeBack part self.old.moment.instance }
        requires kept { length self.old.kept.flow
            ≤ length (reduced (before_part part self.old.moment.instance)).arcs }
        ensures instance { self.new.moment.instance ≡ before_part part self.old.moment.instance }
        ensures kept { self.new.kept ≡ self.old.kept }
    {
        match part {
            Part::Arc { k: arc, row } => {
                let mut row = row;
                self.swap_row(arc, &mut row);
            }
            Part::Supply { id, value } => {
                let mut value = value;
                self.swap_supply(id, &mut value);
            }
            Part::Last => {
                let _ = self.drop_last();
            }
            Part::Gone { .. } => unreachable!(),
        }
    }

    /// Gets ready for changes, so that the first one need not go over all nodes and arcs: takes a snapshot, and brings
    /// the tables of the searches in step with it.
    pub fn prepare(&mut self)
        requires { IsCertifiedMoment self.old.moment }
        ensures moment { self.new.moment ≡ self.old.moment }
        ensures before { self.new.before ≡ None }
    {
        self.snapshot();
        prepare(
            &self.graph,
            &self.flow,
            &self.balance.excess,
            self.potentials.table.entries(),
            &mut self.scratch,
        );
    }

    /// Keeps the flow, the potentials and the marks, with an empty log.
    fn snapshot(&mut self)
        ensures moment { self.new.moment ≡ self.old.moment }
        ensures before { self.new.before ≡ None }
        ensures kept { self.new.kept ≡ kept_of self.old.moment }
        ensures sized { IsWellFormed self.new.moment }
    {
        self.before.verdict = None;
        self.balance.cost = cost_now(self.graph.rows(), &self.flow, self.balance.cost);
        // Labels that are held were tested beside what was kept before.
        let changed = self.flow.places();
        self.scratch.note_all(&self.graph, changed);
        self.flow.snapshot();
        self.potentials.table.snapshot();
        self.cut.snapshot();
        self.before.log.clear();
    }

    /// Brings back what was kept, with a verdict.
    fn bring_back(&mut self, verdict: Verdict)
        requires { length self.old.kept.flow ≡ length (reduced self.old.moment.instance).arcs }
        ensures before { self.new.before ≡ None }
        ensures moment { self.new.moment ≡ brought_back self.old.moment self.old.kept verdict }
    {
        self.before.verdict = None;
        self.potentials.greatest = false;
        carry_back(self.graph.rows(), &self.flow, &mut self.balance.excess);
        self.scratch.note_all(&self.graph, self.flow.places());
        self.flow.bring_back();
        self.potentials.table.bring_back();
        self.scratch.note_potentials();
        self.cut.bring_back();
        self.verdict = verdict;
    }
}

/// Whether each residual arc along an arc stays, at its cost, once the arc has another row and another flow.
fn keeps_residual_arcs(old: &ArcRow, before: i64, row: &ArcRow, flow: i64) -> bool
    ensures { IsTrue result ↔ KeepsResidualArcs old.now before row.now flow }
{
    if row.cost != old.cost {
        return false;
    }
    keeps_room(before, old.cap, flow, row.cap) && keeps_room(old.low, before, row.low, flow)
}

/// Whether there is room between two new numbers if there was between the old ones.
fn keeps_room(from: i64, to: i64, new_from: i64, new_to: i64) -> bool
    ensures { IsTrue result ↔ (from <ℤ to → new_from <ℤ new_to) }
{
    to <= from || new_from < new_to
}

/// Makes edits that the instance accepts, one after the other, each once what it replaces is logged.
fn make_all(tables: &mut Tables, edits: &[Edit])
    requires few { length edits.now ≤ GROUP_LIMIT }
    requires fresh { tables.old.kept.log ≡ [] }
    requires certified { IsCertifiedMoment tables.old.moment }
    requires accepted { IsOk (edited_all tables.old.moment.instance edits.now) }
    ensures made { MakeAll edits.now tables.old.moment tables.new.moment }
    ensures certified { IsCertifiedMoment tables.new.moment }
    ensures back { LeadsBack tables.new.kept.log
        tables.old.moment.instance tables.new.moment.instance }
    ensures logged { AreLogged edits.now tables.new.kept.log }
    ensures kept { tables.new.kept ≡ record tables.old.kept { log = tables.new.kept.log } }
{
    for edit in edits {
        tables.log_edit(edit);
        tables.make(edit);
    }
}

/// Takes back all that is logged, the last first.
fn take_back_all(tables: &mut Tables)
    requires can { CanTakeBackAll tables.old.kept.log tables.old.moment.instance }
    requires kept { length tables.old.kept.flow
        ≡ length (reduced (before_all tables.old.kept.log tables.old.moment.instance)).arcs }
    ensures instance { tables.new.moment.instance
        ≡ before_all tables.old.kept.log tables.old.moment.instance }
    ensures kept { tables.new.kept ≡ record tables.old.kept { log = [] } }
{
    while let Some(part) = tables.pop_part() {
        tables.take_back(part);
    }
}
