//! What steps come to, one after another.
ghost use Rattle.std.specs.Prelude.{◌≡◌, ℕ};
ghost use Rattle.history.specs.Boards.{Timeline, Advances, StepsBack, StepsForward};
ghost use Rattle.history.specs.Repeated.{Repeated};

/// A law, with nothing to run: so many steps back after as many new steps give the past and the present again.
pub fn new_steps_are_undone<B>()
    ensures once { (old mid new : Timeline B) → Advances old mid → StepsBack mid new
        → (new.past ≡ old.past) × (new.present ≡ old.present) }
    ensures repeated { (n : ℕ) (old mid new : Timeline B) → Repeated Advances n old mid
        → Repeated StepsBack n mid new → (new.past ≡ old.past) × (new.present ≡ old.present) }
{}

/// A law, with nothing to run: so many steps forward after as many steps back give all boards again, and the other way
/// round.
pub fn undo_and_redo_are_inverse<B>()
    ensures redo_after_undo { (old mid new : Timeline B) → StepsBack old mid → StepsForward mid new
        → new ≡ old }
    ensures undo_after_redo { (old mid new : Timeline B) → StepsForward old mid → StepsBack mid new
        → new ≡ old }
    ensures redos_after_undos { (n : ℕ) (old mid new : Timeline B) → Repeated StepsBack n old mid
        → Repeated StepsForward n mid new → new ≡ old }
    ensures undos_after_redos { (n : ℕ) (old mid new : Timeline B) → Repeated StepsForward n old mid
        → Repeated StepsBack n mid new → new ≡ old }
{}
