//! What of a run its texts determine.

ghost use Rattle.std.specs.Prelude.{◌≡◌, ◌≢◌, ◌++◌, ℕ, Bool, List, Ok};
ghost use Rattle.dimacs_text.specs.Reading.{ProblemValue, reads};
ghost use Rattle.dimacs_text.specs.Turns.{Turn};
ghost use Rattle.network.specs.Instance.{first};
ghost use Rattle.flow_solver.specs.Moment.{Moment};
ghost use Rattle.flow_solver.specs.Answer.{IsAnswered};
ghost use Rattle.session.specs.declared.refusal.StepRefusal.TheVariants as refusal;
ghost use Rattle.session.specs.Refusal.{number_of};
ghost use Rattle.session.specs.Step.{Reply, Refuses, SessionState, TurnStep};
ghost use Rattle.runs.specs.Reading.{IsProblemText};
ghost use Rattle.runs.specs.declared.end.End.{End};
ghost use Rattle.runs.specs.declared.end.End.TheVariants.{Ended};
ghost use Rattle.engines.specs.Opening.{Opens};
ghost use Rattle.engines.specs.Printing.{outcome_line, solution};
ghost use Rattle.engines.specs.Session.{SessionWrites};
ghost use Rattle.engines.specs.Solve.{Prints};
ghost use Rattle.run_laws.specs.Alike.{HasOneBest, StatesAlike};
ghost use Rattle.run_laws.specs.Texts.{DifferInFlows, TellsNoWantOfMemory};

/// A law, with nothing to run: two moments that answer one instance, whatever its room for arcs, show the same bytes but for
/// the numbers of `f` lines, whether edits led there or the instance was solved anew; where no two flows are best, they show
/// the same bytes.
pub fn moments_show_the_same()
    ensures alike { (proof : Bool) (a b : Moment) (room : ℕ)
        → b.instance ≡ record a.instance { room = room } → IsAnswered a → IsAnswered b
        → DifferInFlows (solution proof a) (solution proof b) }
    ensures same { (proof : Bool) (a b : Moment) (room : ℕ)
        → b.instance ≡ record a.instance { room = room } → IsAnswered a → IsAnswered b
        → HasOneBest a.instance → solution proof b ≡ solution proof a }
{}

/// A law, with nothing to run: sessions that differ in flows alone take each turn alike, and reply alike, but where memory
/// is refused.
pub fn steps_agree()
    ensures { (s t after other : SessionState) (turn : Turn) (reply other_reply : Reply)
        → StatesAlike s t → TurnStep s turn reply after → TurnStep t turn other_reply other
        → reply ≢ Refuses (number_of refusal.Memory)
        → other_reply ≢ Refuses (number_of refusal.Memory)
        → (other_reply ≡ reply) × StatesAlike after other }
{}

/// A law, with nothing to run: two sessions over one problem text and one command text, each read to its end, with the same
/// room for arcs more, write the same bytes but for the numbers of `f` lines, where neither refuses for want of memory.
pub fn same_texts_give_the_same_bytes()
    ensures { (extra : ℕ)
        (problem_text problem_given other_problem_given commands given other_given written other : List ℕ)
        → SessionWrites Ended extra problem_text problem_given commands given written
        → SessionWrites Ended extra problem_text other_problem_given commands other_given other
        → TellsNoWantOfMemory written → TellsNoWantOfMemory other → DifferInFlows written other }
{}

/// A law, with nothing to run: two solutions of one problem text are the same bytes but for the numbers of `f` lines, and
/// end alike; where no two flows are best, they are the same bytes.
pub fn solves_agree()
    ensures alike { (proof : Bool) (end other_end : End)
        (text given other_given written other : List ℕ)
        → Prints end proof text given written → Prints other_end proof text other_given other
        → (other_end ≡ end) × DifferInFlows written other }
    ensures same { (proof : Bool) (end other_end : End)
        (text given other_given written other : List ℕ) (problem : ProblemValue)
        → reads text ≡ Ok problem → HasOneBest (first problem 0)
        → Prints end proof text given written → Prints other_end proof text other_given other
        → other ≡ written }
{}

/// A law, with nothing to run: what `solve` writes of a problem text, a session that is opened on it tells: its first line
/// at the opening, and all of it, but for the numbers of `f` lines, where the first command is `show` or `proof`.
pub fn solve_and_session_agree()
    ensures outcome { (proof : Bool) (end : End) (extra : ℕ)
        (text given other_given written : List ℕ) (problem : ProblemValue) (opening : SessionState)
        → Prints end proof text given written → IsProblemText text other_given problem
        → Opens problem extra opening
        → (rest : List ℕ) × (written ≡ outcome_line opening.moments.present.verdict ++ rest) }
    ensures shown { (proof : Bool) (end : End) (extra : ℕ) (text given other_given written : List ℕ)
        (problem : ProblemValue) (opening : SessionState)
        → Prints end proof text given written → IsProblemText text other_given problem
        → Opens problem extra opening
        → DifferInFlows written (solution proof opening.moments.present) }
{}
