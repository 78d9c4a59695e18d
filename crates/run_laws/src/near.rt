//! How far the edits of a run move a plan.

ghost use Rattle.std.specs.Prelude.{◌≡◌, ℕ, ℤ, pos, List};
ghost use Rattle.dimacs_text.specs.Turns.{Turn};
ghost use Rattle.network.specs.Edited.{units_all};
ghost use Rattle.flow_solver.specs.Answer.{IsAnswered};
ghost use Rattle.flow_solver.specs.declared.verdict.Verdict.TheVariants.{Best};
ghost use Rattle.plan_laws.specs.Stability.{IsLeftOut, MovesWithin, edits_of};
ghost use Rattle.session.specs.Session.{present_kind};
ghost use Rattle.session.specs.Step.{SessionState};
ghost use Rattle.engines.specs.Run.{Run};
ghost use Rattle.run_laws.specs.Near.{groups_of};
ghost use Rattle.run_laws.specs.Undone.{AllTurns, MakesEdits, NoneRefuses};

/// A law, with nothing to run: where edits and groups are accepted, one after the other, from a moment with a plan on, the
/// flow of an arc that none of them names changes by no more than the units of all of them, whether there are plans between
/// the two moments or not.
pub fn runs_move_little()
    ensures { (old new : SessionState) (changes : List Turn) (told : List (List ℕ)) (k : ℕ)
        (worth : ℤ)
        → IsAnswered old.moments.present → old.moments.present.verdict ≡ Best worth
        → AllTurns MakesEdits changes → NoneRefuses told → Run old changes told new
        → IsLeftOut old.moments.present.instance
        (edits_of (groups_of (present_kind old.moments) changes)) k
        → MovesWithin (pos (units_all old.moments.present.instance
        (edits_of (groups_of (present_kind old.moments) changes)))) k old.moments.present new.moments.present }
{}
