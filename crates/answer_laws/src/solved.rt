//! What is written with a proof is right to `check`.

ghost use Rattle.std.specs.Prelude.{◌≡◌, ℕ, List, Ok, true, length};
ghost use Rattle.dimacs_text.specs.Reading.{ProblemValue, reads};
ghost use Rattle.answer_text.specs.declared.answer.Answer.{Answer};
ghost use Rattle.answer_text.specs.Answer.{answers};
ghost use Rattle.network.specs.Instance.{first};
ghost use Rattle.flow_solver.specs.Moment.{Moment};
ghost use Rattle.flow_solver.specs.Answer.{IsAnswered};
ghost use Rattle.checker.specs.Check.{CheckWrites, IsRight};
ghost use Rattle.runs.specs.declared.end.End.{End};
ghost use Rattle.engines.specs.Printing.{solution};
ghost use Rattle.engines.specs.Solve.{Prints};
ghost use Rattle.answer_laws.specs.Ends.{IsValidOrFailed};

/// A law, with nothing to run: what is printed of a moment that answers a problem, with its proof, is read as an answer
/// that is right, whatever room there is for more arcs.
pub fn shown_answers_are_right()
    ensures { (problem : ProblemValue) (m : Moment) (room : ℕ)
        → m.instance ≡ record (first problem 0) { room = room } → IsAnswered m
        → (answer : Answer)
        × (answers problem.nodes (length problem.arcs) (solution true m) ≡ Ok answer)
        × IsRight problem answer }
{}

/// A law, with nothing to run: what a session prints of a moment by `proof`, handed to `check` with a problem text that says
/// what the problem is at that moment, ends Valid, or a read, a write or memory fails.
pub fn shown_answers_check_valid()
    ensures { (check_end : End) (text problem_given answer_given written : List ℕ)
        (problem : ProblemValue) (m : Moment) (room : ℕ)
        → reads text ≡ Ok problem → m.instance ≡ record (first problem 0) { room = room }
        → IsAnswered m
        → CheckWrites check_end text problem_given (solution true m) answer_given written
        → IsValidOrFailed check_end }
{}

/// A law, with nothing to run: what `solve` writes of a problem text with its proof, handed to `check` with the same problem
/// text, ends Valid, or a read, a write or memory fails.
pub fn solved_answers_check_valid()
    ensures { (end check_end : End) (text given problem_given solved answer_given written : List ℕ)
        → Prints end true text given solved
        → CheckWrites check_end text problem_given solved answer_given written
        → IsValidOrFailed check_end }
{}
