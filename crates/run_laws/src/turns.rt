//! What the turns of a text are.

ghost use Rattle.std.specs.Prelude.{◌≡◌, List, Option};
ghost use Rattle.dimacs_lines.specs.Lines.{Line};
ghost use Rattle.dimacs_text.specs.Turns.{Turn, turns_of};
ghost use Rattle.run_laws.specs.Cutting.{AreCut};

/// A law, with nothing to run: put together, the turns of lines are the lines, but for a group that is left open, and
/// there is no other way to cut them so: a turn by itself is no line `group`, and no line inside a group is `end`.
pub fn turns_are_the_lines()
    ensures cut { (lines : List Line)
        → AreCut (turns_of lines).whole (turns_of lines).opened lines }
    ensures only { (turns : List Turn) (opened : Option (List Line)) (lines : List Line)
        → AreCut turns opened lines → turns_of lines ≡ record { whole = turns; opened = opened } }
{}
