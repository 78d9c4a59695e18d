//! Reads the texts of a problem and of an answer from their sources.
ghost use Rattle.std.specs.Prelude.{◌≡◌, ℕ, ◌-◌, ◌^◌, ◌<◌, List, [], ◌++◌, Option, None, Result};
ghost use Rattle.dimacs_lines.specs.Stream.{decided};
ghost use Rattle.dimacs_lines.specs.declared.fault.TextFault.{TextFault};
ghost use Rattle.dimacs_text.specs.Reading.{problem_rule, reads};
ghost use Rattle.answer_text.specs.Answer.{answer_rule, answers};
ghost use Rattle.dimacs_io.specs.Device.{text_over};
ghost use Rattle.runs.specs.Reading.{CountsRead, FailsLastRead, FinishesText, HasTaken, ReadsKnown, ReadsText, SourceGives, SourceIsRead, reads_all};

use crate::end::{End, Text};
use dimacs_io::{Broken, Source};
use dimacs_text::{
    Answer, AnswerReader, Problem, ProblemReader, TextFault, answer_decided_for_all,
    decided_for_all,
};
use std::alloc::Global;

/// How many bytes one read takes at most. They are on the stack, so that reading cannot fail for want of memory.
const PIECE: usize = 32_768;

/// Why a text was not read.
#[derive(Clone, Copy, Debug, PartialEq, Eq)]
pub enum ReadError {
    /// The text has a fault, or memory for it was refused.
    Text(TextFault),
    /// A read failed.
    Source,
}

impl ReadError {
    ghost use Rattle.runs.specs.Reading.{error_end};

    /// How a run ends that meets the error in a text.
    pub fn end(self, input: Text) -> End
        ensures { result ≡ error_end input self }
    {
        match self {
            ReadError::Text(TextFault::Fault { number, line }) => End::Refused {
                input,
                number,
                line,
            },
            ReadError::Text(TextFault::Memory) => End::Memory,
            ReadError::Source => End::ReadFailed(input),
        }
    }
}

impl From<TextFault> for ReadError {
    ghost use Rattle.std.specs.Prelude.{◌≡◌};
    ghost use Rattle.runs.specs.declared.read.ReadError.TheVariants as read_error;

    ghost from_gives = { λ fault e. e ≡ read_error.Text fault };

    fn from(fault: TextFault) -> ReadError {
        ReadError::Text(fault)
    }
}

impl From<Broken> for ReadError {
    ghost use Rattle.std.specs.Prelude.{◌≡◌};
    ghost use Rattle.runs.specs.declared.read.ReadError.TheVariants as read_error;

    ghost from_gives = { λ _ e. e ≡ read_error.Source };

    fn from(_broken: Broken) -> ReadError {
        ReadError::Source
    }
}

/// Reads a text that comes in pieces.
trait PieceReader: Drop {
    /// What a text is read as.
    type Content;

    /// What is known before the text begins.
    ghost Setting: { Type 0 } = { Unit {0} };

    /// The fault that a text decides, whatever follows.
    ghost fault: { Self.Setting → List ℕ → Option TextFault };

    /// What a whole text is read as.
    ghost content: { Self.Setting → List ℕ → Result Self.Content TextFault };

    /// The reader holds what reading takes from this text.
    ghost stands: { Self.Setting → Self → List ℕ → Type 0 };

    /// Takes the next piece.
    fn take_piece(&mut self, piece: &[u8]) -> Result<(), TextFault>
        ensures { (setting : Self.Setting) (text : List ℕ) → stands setting self.old text
            → HasTaken (fault setting) result (text ++ piece.now)
            (stands setting self.new (text ++ piece.now)) };

    /// Ends the text.
    fn end_text(self) -> Result<Self::Content, TextFault>
        ensures { (setting : Self.Setting) (text : List ℕ) → stands setting self text
            → FinishesText (content setting) result text };
}

impl PieceReader for ProblemReader {
    ghost use Rattle.dimacs_text.specs.ProblemReader.{StandsFor};

    type Content = Problem;

    ghost fault = { λ _. decided problem_rule };

    ghost content = { λ _. reads };

    ghost stands = { λ _. StandsFor };

    fn take_piece(&mut self, piece: &[u8]) -> Result<(), TextFault> {
        self.feed(piece)
    }

    fn end_text(self) -> Result<Problem, TextFault> {
        self.finish()
    }
}

impl PieceReader for AnswerReader {
    ghost use Rattle.std.specs.Prelude.{ℕ};
    ghost use Rattle.answer_text.specs.AnswerReader.{StandsForAnswer};

    type Content = Answer;

    ghost Setting = { ℕ × ℕ };

    ghost fault = { λ size. decided (answer_rule size.0 size.1) };

    ghost content = { λ size. answers size.0 size.1 };

    ghost stands = { λ size. StandsForAnswer size.0 size.1 };

    fn take_piece(&mut self, piece: &[u8]) -> Result<(), TextFault> {
        self.feed(piece)
    }

    fn end_text(self) -> Result<Answer, TextFault> {
        self.finish()
    }
}

/// Reads a text to its end, to its first fault or to a failed read.
fn read_text<R: PieceReader, S: Source>(
    mut reader: R,
    source: &mut S,
) -> Result<R::Content, ReadError>
    requires { S.failures source.old < 2 ^ 64 - 1 }
    ensures read { (given : List ℕ)
        × SourceGives S.remaining S.given S.most_left source.old source.new given
        × ((setting : R.Setting) → R.stands setting reader [] → R.fault setting [] ≡ None
        → ReadsText (R.fault setting) (R.content setting) result given
        (S.remaining source.new) (S.ended source.new)) }
    ensures failed { CountsRead result (S.failures source.old) (S.failures source.new) }
    ensures last { FailsLastRead result (S.last_failed source.new) }
{
    let mut piece = [0u8; PIECE];
    'pieces: loop {
        let count = source.read(&mut piece)?;
        if count == 0 {
            return Ok(reader.end_text()?);
        }
        reader.take_piece(&piece[..count])?;
    }
}

/// Reads a problem text to its end, to its first fault or to a failed read.
pub fn read_problem<P: Source>(alloc: Global, problem: &mut P) -> Result<Problem, ReadError>
    requires { P.failures problem.old < 2 ^ 64 - 1 }
    ensures read { (given : List ℕ)
        × SourceGives P.remaining P.given P.most_left problem.old problem.new given
        × ReadsText (decided problem_rule) reads result given
        (P.remaining problem.new) (P.ended problem.new) }
    ensures known { ReadsKnown (decided problem_rule) reads result
        (text_over P.remaining P.given problem.old problem.new)
        (P.most_left problem.old - P.most_left problem.new) }
    ensures grows { SourceIsRead (reads_all result) P.given P.ended problem.old problem.new }
    ensures failed { CountsRead result (P.failures problem.old) (P.failures problem.new) }
    ensures last { FailsLastRead result (P.last_failed problem.new) }
{
    // A fault that is decided is that of the whole text.
    decided_for_all();
    read_text(ProblemReader::new(alloc), problem)
}

/// Reads an answer to a problem of so many nodes and arcs in the same way.
pub fn read_answer<A: Source>(
    alloc: Global,
    nodes: u32,
    arcs: u32,
    answer: &mut A,
) -> Result<Answer, ReadError>
    requires { A.failures answer.old < 2 ^ 64 - 1 }
    ensures read { (given : List ℕ)
        × SourceGives A.remaining A.given A.most_left answer.old answer.new given
        × ReadsText (decided (answer_rule nodes arcs)) (answers nodes arcs) result given
        (A.remaining answer.new) (A.ended answer.new) }
    ensures known { ReadsKnown (decided (answer_rule nodes arcs)) (answers nodes arcs) result
        (text_over A.remaining A.given answer.old answer.new)
        (A.most_left answer.old - A.most_left answer.new) }
    ensures grows { SourceIsRead (reads_all result) A.given A.ended answer.old answer.new }
    ensures failed { CountsRead result (A.failures answer.old) (A.failures answer.new) }
    ensures last { FailsLastRead result (A.last_failed answer.new) }
{
    // A fault that is decided is that of the whole text.
    answer_decided_for_all();
    read_text(AnswerReader::new(alloc, nodes, arcs), answer)
}
