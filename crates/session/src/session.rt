//! A session: whole moments in the order of time, of which one is present, and marks of moments.

ghost use Rattle.std.specs.Prelude.{◌≡◌, ◌+◌, ◌-◌, ◌^◌, ◌<◌, ◌≤◌, ◌↔◌, [], length, map, IsTrue, IsNone, IfOk, IfSome, OnOk, OnErr, slice_get};
ghost use Rattle.std.specs.Bool.{OnTrue, OnFalse};
ghost use Rattle.std.specs.Option.{option_copied};
ghost use Rattle.history.specs.Boards.{Advances, StepsBack, StepsForward};
ghost use Rattle.dimacs_text.specs.declared.group.TheConstants.{GROUP_LIMIT};
ghost use Rattle.network.specs.Edited.{edited, edited_all};
ghost use Rattle.network.specs.Instance.{first};
ghost use Rattle.flow_solver.specs.Answer.{IsAnswered};
ghost use Rattle.session.specs.declared.refusal.StepRefusal.TheVariants as refusal;
ghost use Rattle.session.specs.Marks.{has_mark, has_place, up_to, AreMarks, IsMovedTo};
ghost use Rattle.session.specs.Parts.{flow_of};
ghost use Rattle.session.specs.Refusal.{ok_or, RefusesAs};
ghost use Rattle.session.specs.Session.{past_count, places_of, present, present_kind, present_marked, AreEdited, EditLeads, EditsLead, IsEdited, LeadsToEarlier, LeadsToLater, MovesToMark, RecordsEdit, RecordsEdits};

use crate::marks::Marks;
use crate::record::Record;
use crate::refusal::{Refusal, StepRefusal};
use dimacs_text::{Edit, Name, Problem};
use flow_solver::{Tables, Verdict};
use history::History;
use network::{Network, build, build_from};
use std::alloc::{AllocError, Allocator, Global};
use std::marker::Model;

/// Past moments, the present one and future ones, each a network with an answer to it; and marks: at most `MARK_LIMIT`
/// names, each of a moment that bears it.
///
/// Its tables take all their memory when it is opened. What a step keeps takes its memory from `A`.
#[derive(Drop)]
pub struct Session<A: Allocator + Copy = Global> {
    tables: Tables,
    history: History<Record<A>, A>,
    marks: Marks,
    alloc: A,
}

impl<A: Allocator + Copy> Model for Session<A> {
    ghost use Rattle.session.specs.Session.{Stack, stack_of, IsSessionAt};

    ghost Value = { Stack };

    ghost view = { λ s. stack_of s.history s.tables.moment s.marks };

    ghost invariant = { λ s. IsSessionAt s.history s.tables.moment s.marks };
}

impl Session {
    /// Opens a session on a problem, with room for `extra` arcs more, up to the limit of arcs.
    ///
    /// # Errors
    /// Memory for the tables was refused.
    pub fn open(alloc: Global, problem: &Problem, extra: u32) -> Result<Self, AllocError>
        ensures past { IfOk result (λ s. s.moments.past ≡ []) }
        ensures future { IfOk result (λ s. s.moments.future ≡ []) }
        ensures records { IfOk result (λ s. s.records ≡ []) }
        ensures marks { IfOk result (λ s. s.marks ≡ []) }
        ensures instance { IfOk result (λ s. s.moments.present.instance ≡ first problem.now extra) }
        ensures answered { IfOk result (λ s. IsAnswered s.moments.present) }
    {
        Session::open_in(alloc, alloc, problem, extra)
    }

    /// The same on a problem that is given up, so that its arcs are not held twice.
    ///
    /// # Errors
    /// Memory for the tables was refused.
    pub fn open_from(alloc: Global, problem: Problem, extra: u32) -> Result<Self, AllocError>
        ensures past { IfOk result (λ s. s.moments.past ≡ []) }
        ensures future { IfOk result (λ s. s.moments.future ≡ []) }
        ensures records { IfOk result (λ s. s.records ≡ []) }
        ensures marks { IfOk result (λ s. s.marks ≡ []) }
        ensures instance { IfOk result (λ s. s.moments.present.instance ≡ first problem extra) }
        ensures answered { IfOk result (λ s. IsAnswered s.moments.present) }
    {
        Session::over(alloc, alloc, build_from(alloc, problem, extra)?)
    }
}

impl<A: Allocator + Copy> Session<A> {
    /// Opens a session as `open` does, whose steps take their memory from `steps`.
    ///
    /// # Errors
    /// Memory for the tables was refused.
    pub fn open_in(
        alloc: Global,
        steps: A,
        problem: &Problem,
        extra: u32,
    ) -> Result<Self, AllocError>
        ensures past { IfOk result (λ s. s.moments.past ≡ []) }
        ensures future { IfOk result (λ s. s.moments.future ≡ []) }
        ensures records { IfOk result (λ s. s.records ≡ []) }
        ensures marks { IfOk result (λ s. s.marks ≡ []) }
        ensures instance { IfOk result (λ s. s.moments.present.instance ≡ first problem.now extra) }
        ensures answered { IfOk result (λ s. IsAnswered s.moments.present) }
    {
        Session::over(alloc, steps, build(alloc, problem, extra)?)
    }

    /// Opens a session on a network.
    fn over(alloc: Global, steps: A, network: Network) -> Result<Self, AllocError>
        ensures past { IfOk result (λ s. s.moments.past ≡ []) }
        ensures future { IfOk result (λ s. s.moments.future ≡ []) }
        ensures records { IfOk result (λ s. s.records ≡ []) }
        ensures marks { IfOk result (λ s. s.marks ≡ []) }
        ensures instance { IfOk result (λ s. s.moments.present.instance ≡ network) }
        ensures answered { IfOk result (λ s. IsAnswered s.moments.present) }
    {
        let mut tables = Tables::new(alloc, network)?;
        tables.settle();
        Ok(Session {
            tables,
            history: History::new(steps),
            marks: Marks::new(),
            alloc: steps,
        })
    }

    /// Gets ready for edits, so that the first one need not go over all nodes and arcs. The session stays as it is.
    pub fn prepare(&mut self)
        ensures { self.new ≡ self.old }
    {
        self.tables.prepare();
    }

    /// Applies an edit: the present moment becomes past, and the future is dropped with its marks. Gives the number of
    /// pushes. After a refusal the session is as before.
    ///
    /// # Errors
    /// `Cause` with the number of the first refusal of `Network::edited`; `Memory` where a growth was refused.
    pub fn apply(&mut self, edit: &Edit) -> Result<u64, Refusal>
        ensures edited { OnOk result (IsEdited edit.now (present self.old) (present self.new)) }
        ensures advances { OnOk result (Advances self.old.moments self.new.moments) }
        ensures records { OnOk result (RecordsEdit edit.now self.old self.new) }
        ensures marks { OnOk result (self.new.marks ≡ up_to (past_count self.old) self.old.marks) }
        ensures kind { present_kind self.new.moments ≡ present_kind self.old.moments }
        ensures cause { RefusesAs (edited (present self.old).instance edit.now) result }
        ensures pushes { IfOk result (EditLeads edit.now self.old self.new) }
        ensures refused { OnErr result (self.new ≡ self.old) }
    {
        self.apply_group(&[*edit])
    }

    /// Applies edits together, as one step that is solved once: the present moment becomes past, and the future is
    /// dropped with its marks. Gives the number of pushes. After a refusal the session is as before.
    ///
    /// # Errors
    /// `Cause` with the number of the first refusal of `Network::edited_all`; `Memory` where a growth was refused.
    pub fn apply_group(&mut self, edits: &[Edit]) -> Result<u64, Refusal>
        requires few { length edits.now ≤ GROUP_LIMIT }
        ensures edited { OnOk result (AreEdited edits.now (present self.old) (present self.new)) }
        ensures advances { OnOk result (Advances self.old.moments self.new.moments) }
        ensures records { OnOk result (RecordsEdits edits.now self.old self.new) }
        ensures marks { OnOk result (self.new.marks ≡ up_to (past_count self.old) self.old.marks) }
        ensures kind { present_kind self.new.moments ≡ present_kind self.old.moments }
        ensures cause { RefusesAs (edited_all (present self.old).instance edits.now) result }
        ensures pushes { IfOk result (EditsLead edits.now self.old self.new) }
        ensures refused { OnErr result (self.new ≡ self.old) }
    {
        let (past, _) = self.steps();
        let network = self.tables.network();
        network.edited_all(edits).map_err(Refusal::Cause)?;
        self.history.reserve_one()?;
        let pushes = self.tables.change_all(edits);
        match Record::of_last_change(self.alloc, &self.tables) {
            Ok(record) => {
                self.marks.keep_up_to(past);
                self.history.push(record);
                Ok(pushes)
            }
            Err(refused) => {
                self.tables.restore();
                Err(refused.into())
            }
        }
    }

    /// Goes back to the last moment of the past. False where there is none.
    pub fn undo(&mut self) -> bool
        ensures answer { IsTrue result ↔ (0 < length self.old.moments.past) }
        ensures undone { OnTrue result (StepsBack self.old.moments self.new.moments) }
        ensures places { map places_of self.new.records ≡ map places_of self.old.records }
        ensures marks { self.new.marks ≡ self.old.marks }
        ensures kind { present_kind self.new.moments ≡ present_kind self.old.moments }
        ensures unchanged { OnFalse result (self.new ≡ self.old) }
    {
        self.history.undo(&mut self.tables)
    }

    /// Goes on to the first moment of the future. False where there is none.
    pub fn redo(&mut self) -> bool
        ensures answer { IsTrue result ↔ (0 < length self.old.moments.future) }
        ensures redone { OnTrue result (StepsForward self.old.moments self.new.moments) }
        ensures places { map places_of self.new.records ≡ map places_of self.old.records }
        ensures marks { self.new.marks ≡ self.old.marks }
        ensures kind { present_kind self.new.moments ≡ present_kind self.old.moments }
        ensures unchanged { OnFalse result (self.new ≡ self.old) }
    {
        self.history.redo(&mut self.tables)
    }

    /// Puts the name's mark on the present moment, or moves it there. It is no step and not undone, and it cannot fail for
    /// lack of memory.
    ///
    /// # Errors
    /// The number of `StepRefusal::TooManyMarks` where `MARK_LIMIT` other names have marks.
    pub fn mark(&mut self, name: &Name) -> Result<(), u8>
        ensures answer { result ≡ ok_or refusal.TooManyMarks (has_place self.old.marks name.now) }
        ensures marked { OnOk result (self.new ≡ present_marked self.old name.now) }
        ensures few { AreMarks self.new.marks }
        ensures kind { present_kind self.new.moments ≡ present_kind self.old.moments }
        ensures refused { OnErr result (self.new ≡ self.old) }
    {
        if self.put_mark(name) {
            Ok(())
        } else {
            Err(StepRefusal::TooManyMarks.number())
        }
    }

    /// Puts the name's mark on the present moment, or moves it there. False where as many other names have marks as may.
    pub(crate) fn put_mark(&mut self, name: &Name) -> bool
        ensures answer { result ≡ has_place self.old.marks name.now }
        ensures marked { OnTrue result (self.new ≡ present_marked self.old name.now) }
        ensures few { AreMarks self.new.marks }
        ensures kind { present_kind self.new.moments ≡ present_kind self.old.moments }
        ensures unchanged { OnFalse result (self.new ≡ self.old) }
    {
        let (past, _) = self.steps();
        if !self.marks.put(name, past) {
            return false;
        }
        true
    }

    /// Moves to the moment that bears the name, as so many undos or redos do. Nothing is solved, and it cannot fail for
    /// lack of memory.
    ///
    /// # Errors
    /// The number of `StepRefusal::NoSuchMark` where no moment bears the name.
    pub fn back(&mut self, name: &Name) -> Result<(), u8>
        ensures answer { result ≡ ok_or refusal.NoSuchMark (has_mark self.old.marks name.now) }
        ensures moved { MovesToMark name.now self.old self.new }
        ensures places { map places_of self.new.records ≡ map places_of self.old.records }
        ensures marks { self.new.marks ≡ self.old.marks }
        ensures kind { present_kind self.new.moments ≡ present_kind self.old.moments }
        ensures refused { OnErr result (self.new ≡ self.old) }
    {
        if self.move_to_mark(name) {
            Ok(())
        } else {
            Err(StepRefusal::NoSuchMark.number())
        }
    }

    /// Moves to the moment that bears the name. False where none does.
    pub(crate) fn move_to_mark(&mut self, name: &Name) -> bool
        ensures answer { result ≡ has_mark self.old.marks name.now }
        ensures moved { MovesToMark name.now self.old self.new }
        ensures places { map places_of self.new.records ≡ map places_of self.old.records }
        ensures marks { self.new.marks ≡ self.old.marks }
        ensures kind { present_kind self.new.moments ≡ present_kind self.old.moments }
        ensures unchanged { OnFalse result (self.new ≡ self.old) }
    {
        let Some(moment) = self.marks.moment_of(name) else {
            return false;
        };
        let (past, _) = self.steps();
        if moment < past {
            self.undo_steps(past - moment);
        } else {
            self.redo_steps(moment - past);
        }
        true
    }

    /// Goes so many moments back.
    fn undo_steps(&mut self, count: usize)
        requires there { count ≤ length self.old.moments.past }
        ensures moved { IsMovedTo (past_count self.old - count) self.old.moments self.new.moments }
        ensures places { map places_of self.new.records ≡ map places_of self.old.records }
        ensures marks { self.new.marks ≡ self.old.marks }
        ensures kind { present_kind self.new.moments ≡ present_kind self.old.moments }
    {
        for _ in 0..count {
            let _ = self.undo();
        }
    }

    /// Goes so many moments on.
    fn redo_steps(&mut self, count: usize)
        requires there { count ≤ length self.old.moments.future }
        ensures moved { IsMovedTo (past_count self.old + count) self.old.moments self.new.moments }
        ensures places { map places_of self.new.records ≡ map places_of self.old.records }
        ensures marks { self.new.marks ≡ self.old.marks }
        ensures kind { present_kind self.new.moments ≡ present_kind self.old.moments }
    {
        for _ in 0..count {
            let _ = self.redo();
        }
    }

    /// The network of the present moment.
    pub fn network(&self) -> &Network
        ensures { result.now ≡ self.now.moments.present.instance }
    {
        self.tables.network()
    }

    /// The verdict: the worth of a best flow, or the shortage where no legal flow exists.
    pub fn verdict(&self) -> Verdict
        ensures value { result ≡ self.now.moments.present.verdict }
        ensures answered { IsAnswered self.now.moments.present }
    {
        self.tables.verdict()
    }

    /// The flow of each arc, in the order of the arcs.
    pub fn flow(&self) -> &[i64]
        ensures value { result.now ≡ flow_of self.now.moments.present }
        ensures one_an_arc { length result.now ≡ length self.now.moments.present.instance.arcs }
        ensures count { length result.now < 2 ^ 32 - 1 }
    {
        self.tables.flow()
    }

    /// The potential of each node, in the order of the nodes.
    pub fn potentials(&self) -> &[i64]
        ensures value { result.now ≡ self.now.moments.present.potentials }
        ensures one_a_node { length result.now ≡ self.now.moments.present.instance.nodes }
        ensures count { length result.now < 2 ^ 32 - 1 }
    {
        self.tables.potentials()
    }

    /// A mark for each node, set where the node is in the cut.
    pub fn cut(&self) -> &[bool]
        ensures value { result.now ≡ self.now.moments.present.cut }
        ensures one_a_node { length result.now ≡ self.now.moments.present.instance.nodes }
        ensures count { length result.now < 2 ^ 32 - 1 }
    {
        self.tables.cut()
    }

    /// How many moments are past and future.
    pub fn steps(&self) -> (usize, usize)
        ensures past { result.0 ≡ length self.now.moments.past }
        ensures future { result.1 ≡ length self.now.moments.future }
    {
        self.history.steps()
    }

    /// The record between moment i and the next, counted from 0 at the opening, with the values of the one farther from the
    /// present; none from the number of steps on.
    pub fn moved(&self, i: usize) -> Option<&Record<A>>
        ensures there { IsNone result ↔ (past_count self.now + length self.now.moments.future ≤ i) }
        ensures record { option_copied result ≡ slice_get self.now.records i }
        ensures past { i < past_count self.now
            → IfSome result (λ r. LeadsToEarlier self.now i r.now) }
        ensures future { past_count self.now ≤ i
            → IfSome result (λ r. LeadsToLater self.now i r.now) }
    {
        self.history.change(i)
    }
}
