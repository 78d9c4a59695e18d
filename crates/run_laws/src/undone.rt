//! What undo and redo show.

ghost use Rattle.std.specs.Prelude.{◌≡◌, ℕ, Bool, List, [], ◌∷◌, ◌++◌, length};
ghost use Rattle.dimacs_text.specs.Turns.{Turn};
ghost use Rattle.session.specs.Step.{SessionState};
ghost use Rattle.engines.specs.Run.{Run};
ghost use Rattle.run_laws.specs.Undone.{AllTurns, IsRedo, IsShow, IsUndo, MakesEdits, NoneRefuses};

/// A law, with nothing to run: where a moment is shown, edits and groups are accepted, as many lines `undo` come, and the
/// moment is shown again, the same bytes are written both times, with the proof or without.
pub fn undo_shows_the_same()
    ensures { (proof : Bool) (old new : SessionState) (first last : Turn)
        (changes undos : List Turn) (shown again : List ℕ) (told taken : List (List ℕ))
        → IsShow proof first → AllTurns MakesEdits changes → AllTurns IsUndo undos
        → IsShow proof last
        → length told ≡ length changes → length undos ≡ length changes → length taken ≡ length undos
        → NoneRefuses told
        → Run old (first ∷ changes ++ undos ++ last ∷ []) (shown ∷ told ++ taken ++ again ∷ []) new
        → again ≡ shown }
{}

/// A law, with nothing to run: where a moment is shown, lines `undo` are accepted, as many lines `redo` come, and the
/// moment is shown again, the same bytes are written both times, with the proof or without.
pub fn redo_shows_the_same()
    ensures { (proof : Bool) (old new : SessionState) (first last : Turn) (undos redos : List Turn)
        (shown again : List ℕ) (told taken : List (List ℕ))
        → IsShow proof first → AllTurns IsUndo undos → AllTurns IsRedo redos → IsShow proof last
        → length told ≡ length undos → length redos ≡ length undos → length taken ≡ length redos
        → NoneRefuses told
        → Run old (first ∷ undos ++ redos ++ last ∷ []) (shown ∷ told ++ taken ++ again ∷ []) new
        → again ≡ shown }
{}
