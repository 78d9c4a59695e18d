//! What `back` shows.

ghost use Rattle.std.specs.Prelude.{◌≡◌, ◌≢◌, ℕ, Bool, List, [], ◌∷◌, ◌++◌, length};
ghost use Rattle.dimacs_io.specs.Line.{refusal_line};
ghost use Rattle.dimacs_text.specs.Turns.{Turn};
ghost use Rattle.session.specs.Marks.{AreMarks};
ghost use Rattle.session.specs.Step.{SessionState};
ghost use Rattle.engines.specs.Run.{Run};
ghost use Rattle.run_laws.specs.Returned.{GivesName, IsBack, LeavesName};
ghost use Rattle.run_laws.specs.Undone.{AllTurns, IsShow};

/// A law, with nothing to run: where a moment is marked and shown, turns come of which none gives the name to another
/// moment, `back` to the name is accepted, and the moment is shown again, the same bytes are written both times, with the
/// proof or without.
pub fn back_shows_the_same()
    ensures { (proof : Bool) (name : List ℕ) (old new : SessionState) (mark first back last : Turn)
        (turns : List Turn) (marked shown moved again : List ℕ) (told : List (List ℕ))
        → AreMarks old.marks → GivesName name mark → IsShow proof first
        → AllTurns (LeavesName name) turns → IsBack name back → IsShow proof last
        → length told ≡ length turns → ((number : ℕ) → marked ≢ refusal_line number)
        → ((number : ℕ) → moved ≢ refusal_line number)
        → Run old (mark ∷ first ∷ turns ++ back ∷ last ∷ [])
        (marked ∷ shown ∷ told ++ moved ∷ again ∷ []) new → again ≡ shown }
{}
