//! What is written is read.

ghost use Rattle.std.specs.Prelude.{◌≡◌, ◌^◌, ◌<◌, ℕ, ℤ, Bool, List, Ok, pos, length, unsigned_abs};
ghost use Rattle.answer_text.specs.declared.answer.FlowLine.{FlowLine};
ghost use Rattle.answer_text.specs.declared.answer.Answer.TheVariants.{Cut, Flow};
ghost use Rattle.answer_text.specs.Answer.{answers};
ghost use Rattle.engines.specs.Printing.{breach_text};
ghost use Rattle.answer_laws.specs.Text.{FlowsFit, PotentialsFit, ids_from, written};

/// A law, with nothing to run: the text of a flow with its potentials is read as these, and that of a cut as its nodes.
pub fn written_answers_are_read()
    ensures flow { (nodes : ℕ) (worth : ℤ) (lines : List FlowLine) (potentials : List ℤ)
        → nodes < 10 ^ 18 → length potentials ≡ nodes → unsigned_abs worth < 10 ^ 30
        → FlowsFit nodes lines → PotentialsFit potentials
        → answers nodes (length lines) (written worth lines potentials)
        ≡ Ok (Flow worth lines potentials) }
    ensures cut { (nodes arcs shortage : ℕ) (marks : List Bool) → nodes < 10 ^ 18
        → length marks ≡ nodes → shortage < 10 ^ 18
        → answers nodes arcs (breach_text (pos shortage) marks)
        ≡ Ok (Cut (pos shortage) (ids_from 1 marks)) }
{}
