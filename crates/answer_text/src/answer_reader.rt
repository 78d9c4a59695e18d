//! A reader of answer texts.

ghost use Rattle.std.specs.Prelude.{◌≡◌, List, ℕ, [], ◌++◌, Some, None, Err, IfOk, IfErr};
ghost use Rattle.dimacs_lines.specs.Lines.{IsBytes};
ghost use Rattle.dimacs_lines.specs.Stream.{decided, EndsWell};
ghost use Rattle.answer_text.specs.Answer.{FitsSize, answer_rule, answers};
ghost use Rattle.dimacs_lines.specs.declared.fault.TextFault.{TextFault};

use crate::answer::Answer;
use crate::answer_draft::AnswerDraft;
use dimacs_lines::{LineError, LineTaker, TextFault, TextReader, decided_for_any_rule};
use std::alloc::Global;

impl LineTaker for AnswerDraft {
    ghost use Rattle.std.specs.Prelude.{ℕ};
    ghost use Rattle.answer_text.specs.Answer.{answer_rule};
    ghost use Rattle.answer_text.specs.AnswerReader.{HoldsAnswer};

    ghost Setting = { ℕ × ℕ };

    ghost rule = { λ size. answer_rule size.0 size.1 };

    ghost holds = { λ size. HoldsAnswer size.0 size.1 };

    #[inline(always)]
    fn take_front(&mut self, _text: &[u8]) -> Option<usize> {
        None
    }

    fn take_line(&mut self, line: &[u8]) -> Result<(), LineError> {
        self.take(line)
    }
}

/// A reader of an answer text: an `s VALUE` line, an `f SRC DST FLOW` line for each arc, and then a `v ID POTENTIAL`
/// line for each node; or an `i SHORTAGE` line, and then `k ID` lines by rising ID. It holds one line of the text
/// beside what it has read.
#[derive(Drop)]
pub struct AnswerReader {
    reader: TextReader<AnswerDraft>,
}

impl AnswerReader {
    ghost use Rattle.answer_text.specs.AnswerReader.{StandsForAnswer, FeedsAnswer, FinishesAnswer, AnswerHasFailed};

    /// A reader of the empty text, as an answer to a problem with so many nodes and arcs.
    pub fn new(alloc: Global, nodes: u32, arcs: u32) -> Self
        ensures text { StandsForAnswer nodes arcs result [] }
        ensures undecided { decided (answer_rule nodes arcs) [] ≡ None }
    {
        AnswerReader {
            reader: TextReader::new(AnswerDraft::new(alloc, nodes, arcs)),
        }
    }

    /// Takes the next piece of the text, and answers the fault that is decided by now. After a fault or want of memory
    /// every later call answers the same.
    pub fn feed(&mut self, piece: &[u8]) -> Result<(), TextFault>
        ensures text { (nodes arcs : ℕ) (text : List ℕ) → StandsForAnswer nodes arcs self.old text
            → FeedsAnswer nodes arcs result self.new (text ++ piece.now) }
        // No want of memory stands for a fault: it is answered at the end of a line before any.
        ensures memory { (nodes arcs : ℕ) (text : List ℕ) → StandsForAnswer nodes arcs self.old text
            → result ≡ Err TextFault.Memory → EndsWell (answer_rule nodes arcs) text piece.now }
        ensures err { IfErr result (AnswerHasFailed self.new) }
        ensures failed { (e : TextFault) → AnswerHasFailed self.old e → result ≡ Err e }
    {
        self.reader.feed(piece)
    }

    /// Ends the text, and answers what it says. Where a line is missing at the end, that is fault 40 with the number of
    /// lines.
    pub fn finish(self) -> Result<Answer, TextFault>
        ensures text { (nodes arcs : ℕ) (text : List ℕ) → StandsForAnswer nodes arcs self text
            → FinishesAnswer nodes arcs result text }
        ensures fits { (nodes arcs : ℕ) (text : List ℕ) → StandsForAnswer nodes arcs self text
            → IfOk result (FitsSize nodes arcs) }
        ensures failed { (e : TextFault) → AnswerHasFailed self e → result ≡ Err e }
    {
        let AnswerReader { reader } = self;
        let (draft, lines) = reader.finish()?;
        match draft.close() {
            Ok(answer) => Ok(answer),
            Err(fault) => Err(LineError::from(fault).at_line(lines)),
        }
    }
}

/// A law, with nothing to run: a text decides a fault, as an answer to a problem with so many nodes and arcs, exactly
/// if every text that continues it has that fault. The empty text decides none.
pub fn answer_decided_for_all()
    ensures nothing { (nodes arcs : ℕ) → decided (answer_rule nodes arcs) [] ≡ None }
    ensures always { (nodes arcs : ℕ) (text more : List ℕ) (fault : TextFault)
        → decided (answer_rule nodes arcs) text ≡ Some fault
        → answers nodes arcs (text ++ more) ≡ Err fault }
    ensures only { (nodes arcs : ℕ) (text : List ℕ) (fault : TextFault)
        → ((more : List ℕ) → IsBytes more → answers nodes arcs (text ++ more) ≡ Err fault)
        → decided (answer_rule nodes arcs) text ≡ Some fault }
{
    decided_for_any_rule::<Answer>();
}
