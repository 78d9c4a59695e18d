//! The turns of a command text.

ghost use Rattle.std.specs.Prelude.{◌≡◌, List, [], ◌∷◌, ◌++◌};
ghost use Rattle.dimacs_lines.specs.Lines.{Line};
ghost use Rattle.dimacs_text.specs.Turns.{turns_of, and_turn, no_turns};

/// A law, with nothing to run: the turns of lines come one line after the other.
pub fn turns_follow()
    ensures none { turns_of [] ≡ no_turns }
    ensures one_more { (lines : List Line) (line : Line)
        → turns_of (lines ++ line ∷ []) ≡ and_turn (turns_of lines) line }
{}
