//! What moves along the moments come to, and what marks are.
ghost use Rattle.std.specs.Prelude.{◌≡◌, ◌≢◌, ℕ, ◌+◌, ◌-◌, ◌≤◌, true, Some, List, [], length};
ghost use Rattle.history.specs.Boards.{Timeline, StepsBack, StepsForward};
ghost use Rattle.history.specs.Repeated.{Repeated};
ghost use Rattle.session.specs.Marks.{has_place, marked, up_to, with_mark, AreMarks, IsMovedTo};
ghost use Rattle.session.specs.declared.marks.Mark.{Mark};

/// A law, with nothing to run: as many undos or redos as lead to a moment move to it, and any two moves to it are alike.
pub fn moves_are_steps<B>()
    ensures one { (n : ℕ) (old a b : Timeline B) → IsMovedTo n old a → IsMovedTo n old b → a ≡ b }
    ensures undos { (n : ℕ) (old new : Timeline B) → Repeated StepsBack n old new
        → IsMovedTo (length old.past - n) old new }
    ensures redos { (n : ℕ) (old new : Timeline B) → Repeated StepsForward n old new
        → IsMovedTo (length old.past + n) old new }
{}

/// A law, with nothing to run: no two marks are of one name, at most `MARK_LIMIT` names have marks, a name's mark stands
/// where it was put last, and one that remains when marks are taken away stands where it stood.
pub fn marks_are_few()
    ensures opened { AreMarks [] }
    ensures put { (marks : List Mark) (name : List ℕ) (moment : ℕ) → AreMarks marks
        → has_place marks name ≡ true → AreMarks (with_mark marks name moment) }
    ensures kept { (marks : List Mark) (last : ℕ) → AreMarks marks → AreMarks (up_to last marks) }
    ensures remains { (marks : List Mark) (name : List ℕ) (last moment : ℕ) → AreMarks marks
        → marked (up_to last marks) name ≡ Some moment
        → (marked marks name ≡ Some moment) × (moment ≤ last) }
    ensures found { (marks : List Mark) (name : List ℕ) (moment : ℕ)
        → marked (with_mark marks name moment) name ≡ Some moment }
    ensures others { (marks : List Mark) (name other : List ℕ) (moment : ℕ) → name ≢ other
        → marked (with_mark marks name moment) other ≡ marked marks other }
{}
