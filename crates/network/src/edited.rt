//! Which edits an instance takes.
ghost use Rattle.std.specs.Prelude.{◌≡◌, ◌≤◌, ◌&&◌, ℕ, ℤ, List, [], ◌∷◌, ◌++◌, length, Ok, Err};
ghost use Rattle.std.specs.Result.{IsOk};
ghost use Rattle.dimacs_text.specs.declared.command.Edit.{Edit};
ghost use Rattle.dimacs_text.specs.declared.problem.TheConstants.{ARC_LIMIT};
ghost use Rattle.network.specs.Edited.{AnswersEditOf, EndsFit, SharesFrame, added, arc_of, count_after, edited, edited_all, edited_by, row_after, is_across, is_bound, is_new_row, is_node, is_within, suits_kind, outcome, tried};
ghost use Rattle.network.specs.Flow.{IsNode};
ghost use Rattle.network.specs.Instance.{Instance, IsLawful, arc_at, reduced};

use crate::refusal::EditRefusal;
use crate::{Goal, Network};
use dimacs_text::{ArcRow, CAP_LIMIT, COST_LIMIT, Edit, Kind, SUPPLY_LIMIT};

/// Is it a bound of an arc?
fn is_bound(x: i64) -> bool
    ensures { result ≡ is_bound x }
{
    0 <= x && x <= CAP_LIMIT as i64
}

/// Is it at most the limit, either way?
fn is_cost(x: i64) -> bool
    ensures { result ≡ is_within COST_LIMIT x }
{
    -COST_LIMIT <= x && x <= COST_LIMIT
}

/// Is it at most the limit, either way?
fn is_supply(x: i64) -> bool
    ensures { result ≡ is_within SUPPLY_LIMIT x }
{
    -SUPPLY_LIMIT <= x && x <= SUPPLY_LIMIT
}

/// Are the numbers of a new arc those of the kind?
fn suits_kind(kind: Kind, low: i64, cap: i64, cost: i64) -> bool
    ensures { result ≡ suits_kind kind low cap cost }
{
    match kind {
        Kind::Min => true,
        Kind::Max => low <= 0 && cost == 0,
        Kind::Asn => low <= 0 && (1 <= cap && cap <= 1),
    }
}

/// Are the numbers of a new arc within the limits, and those of the kind?
fn is_new_row(kind: Kind, low: i64, cap: i64, cost: i64) -> bool
    ensures { result ≡ is_new_row kind low cap cost }
{
    (is_bound(low) && is_bound(cap)) && (is_cost(cost) && suits_kind(kind, low, cap, cost))
}

/// The number of the arc that an edit names, or 0 where it names none.
fn arc_of(edit: &Edit) -> u64
    ensures { result ≡ arc_of edit.now }
{
    match *edit {
        Edit::Cap { arc, .. }
        | Edit::Low { arc, .. }
        | Edit::Cost { arc, .. }
        | Edit::Close { arc } => arc,
        Edit::Supply { .. } | Edit::Add { .. } => 0,
    }
}

/// May an arc have the capacity?
fn cap_edited(row: Option<ArcRow>, cap: i64) -> Result<(), EditRefusal>
    ensures { AnswersEditOf row (λ arc. Edit.Cap arc cap) result }
{
    if !is_bound(cap) {
        return Err(EditRefusal::OutOfRange);
    }
    let row = row.ok_or(EditRefusal::NoSuchArc)?;
    if row.low <= cap {
        Ok(())
    } else {
        Err(EditRefusal::LowAboveCap)
    }
}

/// May an arc have the lower bound?
fn low_edited(row: Option<ArcRow>, low: i64) -> Result<(), EditRefusal>
    ensures { AnswersEditOf row (λ arc. Edit.Low arc low) result }
{
    if !is_bound(low) {
        return Err(EditRefusal::OutOfRange);
    }
    let row = row.ok_or(EditRefusal::NoSuchArc)?;
    if low <= row.cap {
        Ok(())
    } else {
        Err(EditRefusal::LowAboveCap)
    }
}

/// May an arc have the cost?
fn cost_edited(row: Option<ArcRow>, cost: i64) -> Result<(), EditRefusal>
    ensures { AnswersEditOf row (λ arc. Edit.Cost arc cost) result }
{
    if !is_cost(cost) {
        return Err(EditRefusal::OutOfRange);
    }
    close_edited(row)
}

/// May an arc be closed?
fn close_edited(row: Option<ArcRow>) -> Result<(), EditRefusal>
    ensures { AnswersEditOf row (λ arc. Edit.Close arc) result }
{
    match row {
        Some(_) => Ok(()),
        None => Err(EditRefusal::NoSuchArc),
    }
}

/// Arc `k`, if it is there, once an edit is made where so many arcs stand.
fn row_after(k: u64, arcs: usize, row: Option<ArcRow>, edit: &Edit) -> Option<ArcRow>
    requires few { arcs ≤ ARC_LIMIT }
    requires ends { EndsFit edit.now }
    ensures { result ≡ row_after k arcs row edit.now }
{
    match *edit {
        Edit::Cap { arc, cap } if arc == k => Some(ArcRow { cap, ..row? }),
        Edit::Low { arc, low } if arc == k => Some(ArcRow { low, ..row? }),
        Edit::Cost { arc, cost } if arc == k => Some(ArcRow { cost, ..row? }),
        Edit::Close { arc } if arc == k => Some(ArcRow {
            low: 0,
            cap: 0,
            ..row?
        }),
        Edit::Add {
            tail,
            head,
            low,
            cap,
            cost,
        } if arcs as u64 + 1 == k => Some(ArcRow {
            tail: tail as u32,
            head: head as u32,
            low,
            cap,
            cost,
        }),
        _ => row,
    }
}

/// How many arcs stand once an edit is made.
fn count_after(arcs: usize, edit: &Edit) -> usize
    requires { arcs ≤ ARC_LIMIT }
    ensures { result ≡ count_after arcs edit.now }
{
    match edit {
        Edit::Add { .. } => arcs + 1,
        _ => arcs,
    }
}

impl Network {
    /// The arc with this number, if it is there.
    pub(crate) fn numbered_arc(&self, k: u64) -> Option<ArcRow>
        ensures { result ≡ arc_at self.now.arcs k }
    {
        if k == 0 {
            return None;
        }
        self.numbered().get(k as usize - 1).copied()
    }

    /// Is it a node?
    fn is_node(&self, v: u64) -> bool
        ensures { result ≡ is_node self.now.nodes v }
    {
        1 <= v && v <= u64::from(self.nodes)
    }

    /// May an arc lead from the one node to the other?
    fn is_across(&self, tail: u64, head: u64) -> bool
        requires tail { IsNode (reduced self.now) tail }
        requires head { IsNode (reduced self.now) head }
        ensures { result ≡ is_across self.now.demand tail head }
    {
        match self.goal {
            Goal::LeastCost | Goal::GreatestFlow { .. } => true,
            Goal::Assignment => self.supplies[tail as usize - 1] > 0
                && self.supplies[head as usize - 1] <= 0,
        }
    }

    /// May a node have the supply?
    fn supply_edited(&self, node: u64, value: i64) -> Result<(), EditRefusal>
        ensures { (before : Instance) → SharesFrame self.now before
            → result ≡ outcome (edited_by before (Edit.Supply node value)) }
    {
        if !is_supply(value) {
            return Err(EditRefusal::OutOfRange);
        }
        if self.is_node(node) {
            Ok(())
        } else {
            Err(EditRefusal::NoSuchNode)
        }
    }

    /// May an arc of lawful numbers be put between two nodes, where so many arcs stand?
    fn arc_added(
        &self,
        arcs: usize,
        ends: (u64, u64),
        low: i64,
        cap: i64,
    ) -> Result<(), EditRefusal>
        ensures { (before : Instance) (cost : ℤ) → SharesFrame self.now before
            → arcs ≡ length before.arcs
            → result ≡ outcome (added before ends.0 ends.1 low cap cost) }
    {
        let (tail, head) = ends;
        if !self.is_node(tail) || !self.is_node(head) {
            return Err(EditRefusal::NoSuchNode);
        }
        if low > cap {
            return Err(EditRefusal::LowAboveCap);
        }
        if !self.is_across(tail, head) {
            return Err(EditRefusal::NotAcrossSides);
        }
        if arcs < self.room {
            Ok(())
        } else {
            Err(EditRefusal::TableFull)
        }
    }

    /// The first refusal of an edit that applies, if one does, where the arc that it names is this one, if it is there,
    /// and so many arcs stand.
    fn tested(&self, edit: &Edit, row: Option<ArcRow>, arcs: usize) -> Result<(), EditRefusal>
        ensures { (before : Instance) → SharesFrame self.now before
            → row ≡ arc_at before.arcs (arc_of edit.now)
            → arcs ≡ length before.arcs → result ≡ outcome (tried before edit.now) }
    {
        if !edit.is_for(self.kind()) {
            return Err(EditRefusal::NotForKind);
        }
        match *edit {
            Edit::Cap { cap, .. } => cap_edited(row, cap),
            Edit::Low { low, .. } => low_edited(row, low),
            Edit::Cost { cost, .. } => cost_edited(row, cost),
            Edit::Supply { node, value } => self.supply_edited(node, value),
            Edit::Add {
                tail,
                head,
                low,
                cap,
                cost,
            } => {
                if !is_new_row(self.kind(), low, cap, cost) {
                    return Err(EditRefusal::OutOfRange);
                }
                self.arc_added(arcs, (tail, head), low, cap)
            }
            Edit::Close { .. } => close_edited(row),
        }
    }

    /// The arc with this number, if it is there, and how many arcs there are, once the edits are made.
    fn arc_after(&self, edits: &[Edit], k: u64) -> (Option<ArcRow>, usize)
        requires { IsOk (edited_all self.now edits.now) }
        ensures { (after : Instance) → edited_all self.now edits.now ≡ Ok after
            → (result.0 ≡ arc_at after.arcs k) × (result.1 ≡ length after.arcs) }
    {
        let mut row = self.numbered_arc(k);
        let mut arcs = self.numbered().len();
        for edit in edits {
            row = row_after(k, arcs, row, edit);
            arcs = count_after(arcs, edit);
        }
        (row, arcs)
    }

    /// The first refusal of an edit that applies, if one does, once other edits are made.
    fn tested_after(&self, edits: &[Edit], edit: &Edit) -> Result<(), EditRefusal>
        requires { IsOk (edited_all self.now edits.now) }
        ensures { (before : Instance) → edited_all self.now edits.now ≡ Ok before
            → result ≡ outcome (tried before edit.now) }
    {
        let (row, arcs) = self.arc_after(edits, arc_of(edit));
        self.tested(edit, row, arcs)
    }

    /// May the instance be edited so? Else the number of the first refusal that applies: 23 not for this kind, 5 a
    /// number out of range, 20 no such arc, 21 no such node, 22 low above cap, 27 not from the source side to the sink
    /// side, 24 no room for an arc.
    pub fn edited(&self, edit: &Edit) -> Result<(), u8>
        ensures { result ≡ outcome (edited self.now edit.now) }
    {
        self.edited_all(&[*edit])
    }

    /// May the edits be made one after the other? Else the number of the first refusal, where each edit is tested on
    /// what those before it leave. Nothing is changed, and it cannot fail for lack of memory.
    pub fn edited_all(&self, edits: &[Edit]) -> Result<(), u8>
        ensures { result ≡ outcome (edited_all self.now edits.now) }
    {
        for i in 0..edits.len() {
            if let Err(refusal) = self.tested_after(&edits[..i], &edits[i]) {
                return Err(refusal.number());
            }
        }
        Ok(())
    }
}

/// A law, with nothing to run: a lawful instance is lawful once it is edited, so that further edits can follow.
pub fn edits_keep_lawful()
    ensures { (before : Instance) (edit : Edit) (after : Instance) → IsLawful before → edited before edit ≡ Ok after
        → IsLawful after }
{}

/// A law, with nothing to run: what edits that are made together lead to.
pub fn edits_follow()
    ensures one { (before : Instance) (edit : Edit) → edited_all before (edit ∷ []) ≡ edited before edit }
    ensures made { (before between : Instance) (edits : List Edit) (more : List Edit)
        → edited_all before edits ≡ Ok between → edited_all before (edits ++ more) ≡ edited_all between more }
    ensures refused { (before : Instance) (edits : List Edit) (more : List Edit) (number : ℕ)
        → edited_all before edits ≡ Err number → edited_all before (edits ++ more) ≡ Err number }
    ensures lawful { (before : Instance) (edits : List Edit) (after : Instance) → IsLawful before
        → edited_all before edits ≡ Ok after → IsLawful after }
{}
