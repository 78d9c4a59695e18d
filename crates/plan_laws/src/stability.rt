//! How far edits move the flows of arcs that they do not name.

ghost use Rattle.std.specs.Prelude.{◌≡◌, ℕ, ℤ, pos, ◌+ℤ◌, List, [], ◌∷◌};
ghost use Rattle.dimacs_text.specs.declared.command.Edit.{Edit};
ghost use Rattle.network.specs.Edited.{units, units_all};
ghost use Rattle.network.specs.Flow.{total_excess};
ghost use Rattle.network.specs.Instance.{reduced};
ghost use Rattle.flow_solver.specs.Answer.{IsAnswered};
ghost use Rattle.flow_solver.specs.Edit.{ChangeAllTo, ChangesTo};
ghost use Rattle.flow_solver.specs.Moment.{IsWellFormed, Moment};
ghost use Rattle.flow_solver.specs.declared.verdict.Verdict.TheVariants.{Best};
ghost use Rattle.plan_laws.specs.Stability.{IsLeftOut, LeadThrough, MovesWithin, edits_of};

/// A law, with nothing to run: edits that lead from one moment to another change the flow of an arc that they do not name
/// by no more than what was left to send out and their units; where the first moment has a plan, by no more than their
/// units.
pub fn edits_move_little()
    ensures flows { (m n : Moment) (edits : List Edit) (pushes k : ℕ) → IsWellFormed m
        → IsWellFormed n → ChangeAllTo edits m n pushes → IsLeftOut m.instance edits k
        → MovesWithin (total_excess (reduced m.instance) m.flow
        +ℤ pos (units_all m.instance edits)) k m n }
    ensures plans { (m n : Moment) (edits : List Edit) (pushes k : ℕ) (worth : ℤ) → IsAnswered m
        → IsAnswered n → m.verdict ≡ Best worth
        → ChangeAllTo edits m n pushes → IsLeftOut m.instance edits k
        → MovesWithin (pos (units_all m.instance edits)) k m n }
    ensures one { (m n : Moment) (edit : Edit) (pushes k : ℕ) (worth : ℤ) → IsAnswered m
        → IsAnswered n → m.verdict ≡ Best worth
        → ChangesTo edit m n pushes → IsLeftOut m.instance (edit ∷ []) k
        → MovesWithin (pos (units m.instance edit)) k m n }
{}

/// A law, with nothing to run: edits and groups that lead on, one after the other, from a moment with a plan to another
/// moment, whether there are plans between the two or not, change the flow of an arc that they do not name by no more than
/// the units of all of them; from any moment, by no more than those and what was left to send out.
pub fn many_edits_move_little()
    ensures flows { (m n : Moment) (groups : List (List Edit)) (k : ℕ) → IsWellFormed m
        → LeadThrough groups m n → IsLeftOut m.instance (edits_of groups) k
        → MovesWithin (total_excess (reduced m.instance) m.flow
        +ℤ pos (units_all m.instance (edits_of groups))) k m n }
    ensures plans { (m n : Moment) (groups : List (List Edit)) (k : ℕ) (worth : ℤ) → IsAnswered m
        → m.verdict ≡ Best worth
        → LeadThrough groups m n → IsLeftOut m.instance (edits_of groups) k
        → MovesWithin (pos (units_all m.instance (edits_of groups))) k m n }
{}
