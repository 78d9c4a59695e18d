//! The claim, drawn from the contracts of the engines.

ghost use Rattle.std.specs.Prelude.{◌≡◌, ◌≢◌, ◌⊎◌, ℕ, Bool, List, length, Ok, Option, Some};
ghost use Rattle.checker.specs.Check.{CheckOnDevices, ValidSettles};
ghost use Rattle.runs.specs.Devices.{answer_failures, command_failures, problem_failures, write_failures};
ghost use Rattle.answer_text.specs.Answer.{answers};
ghost use Rattle.dimacs_text.specs.Reading.{ProblemValue, reads};
ghost use Rattle.answer_text.specs.declared.answer.Answer.{Answer};
ghost use Rattle.runs.specs.declared.end.End.{End};
ghost use Rattle.runs.specs.declared.end.End.TheVariants.{Solved, Infeasible, Ended, Valid, NotValid, Memory};
ghost use Rattle.engines.specs.Claim.{Written, SolvesRightly, ServesRightly, JudgesRightly, RefusedTurnsChangeNothing, UndoRestores};
ghost use Rattle.engines.specs.Session.{SessionOnDevices};
ghost use Rattle.engines.specs.Solve.{SolveOnDevices};

/// A law, with nothing to run: what the contracts of `solve`, `run_session` and `check` come to if the texts are known
/// and the engine comes to its end.
pub fn the_claim()
    ensures solve { (end : End) (proof : Bool) (text held : List ℕ) (count : ℕ)
        (after : Option (List ℕ))
        → (end ≡ Solved) ⊎ (end ≡ Infeasible)
        → SolveOnDevices end proof (Some text) count (Some held) after
        → Written (SolvesRightly proof text) held after }
    ensures session { (extra : ℕ) (text commands held : List ℕ) (count read : ℕ)
        (after : Option (List ℕ))
        → SessionOnDevices Ended extra (Some text) count (Some commands) read (Some held) after
        → Written (ServesRightly extra text commands) held after }
    ensures refused { RefusedTurnsChangeNothing }
    ensures undone { UndoRestores }
    ensures check { (end : End) (text answer held : List ℕ) (count read : ℕ)
        (after : Option (List ℕ))
        → (end ≡ Valid) ⊎ (end ≡ NotValid)
        → CheckOnDevices end (Some text) count (Some answer) read (Some held) after
        → ValidSettles end (Some text) (Some answer)
        → Written (JudgesRightly text answer) held after }
{}

/// A law, with nothing to run: where the texts are a problem and, for `check`, an answer to it, no call failed and memory was
/// found, an engine comes to its end.
pub fn runs_end()
    ensures solve { (end : End) (proof : Bool) (problem : ProblemValue) (text held : List ℕ)
        (count : ℕ) (after : Option (List ℕ))
        → reads text ≡ Ok problem → SolveOnDevices end proof (Some text) count (Some held) after
        → problem_failures end ≡ 0 → write_failures end ≡ 0 → end ≢ Memory
        → (end ≡ Solved) ⊎ (end ≡ Infeasible) }
    ensures session { (end : End) (extra : ℕ) (problem : ProblemValue) (text commands held : List ℕ)
        (count read : ℕ) (after : Option (List ℕ))
        → reads text ≡ Ok problem
        → SessionOnDevices end extra (Some text) count (Some commands) read (Some held) after
        → problem_failures end ≡ 0 → command_failures end ≡ 0 → write_failures end ≡ 0
        → end ≢ Memory → end ≡ Ended }
    ensures check { (end : End) (problem : ProblemValue) (answer : Answer) (text said held : List ℕ)
        (count read : ℕ) (after : Option (List ℕ))
        → reads text ≡ Ok problem → answers problem.nodes (length problem.arcs) said ≡ Ok answer
        → CheckOnDevices end (Some text) count (Some said) read (Some held) after
        → problem_failures end ≡ 0 → answer_failures end ≡ 0 → write_failures end ≡ 0 → end ≢ Memory
        → (end ≡ Valid) ⊎ (end ≡ NotValid) }
{}
