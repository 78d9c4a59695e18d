//! Reading a problem text in pieces.

ghost use Rattle.std.specs.Prelude.{◌≡◌, List, ℕ, [], ◌++◌, Some, None, Err, IfErr};
ghost use Rattle.dimacs_lines.specs.Lines.{IsBytes};
ghost use Rattle.dimacs_lines.specs.Stream.{decided, EndsWell};
ghost use Rattle.dimacs_text.specs.Reading.{problem_rule, reads};
ghost use Rattle.dimacs_lines.specs.declared.fault.TextFault.{TextFault};

use crate::draft::Draft;
use crate::problem::Problem;
use dimacs_lines::{LineError, LineTaker, TextFault, TextReader, decided_for_any_rule};
use std::alloc::Global;

impl LineTaker for Draft {
    ghost use Rattle.dimacs_text.specs.Reading.{problem_rule};
    ghost use Rattle.dimacs_text.specs.ProblemReader.{holds as holds_lines};

    ghost rule = { λ _. problem_rule };

    ghost holds = { λ _. holds_lines };

    #[inline(always)]
    fn take_front(&mut self, text: &[u8]) -> Option<usize> {
        self.take_first(text)
    }

    #[inline(always)]
    fn take_line(&mut self, line: &[u8]) -> Result<(), LineError> {
        self.take(line)
    }
}

/// A reader of a problem text, which holds one line of it beside what it has read. However the text is cut into pieces,
/// it is read the same.
#[derive(Drop)]
pub struct ProblemReader {
    reader: TextReader<Draft>,
}

impl ProblemReader {
    ghost use Rattle.dimacs_text.specs.ProblemReader.{StandsFor, Feeds, Finishes, HasFailed};

    /// A reader of the empty text.
    pub fn new(alloc: Global) -> Self
        ensures text { StandsFor result [] }
        ensures undecided { decided problem_rule [] ≡ None }
    {
        ProblemReader {
            reader: TextReader::new(Draft::new(alloc)),
        }
    }

    /// Takes the next piece of the text, and answers the fault that is decided by now: the first one, at its line's LF,
    /// or at the byte that makes the line too long. After a fault or want of memory every later call answers the same.
    pub fn feed(&mut self, piece: &[u8]) -> Result<(), TextFault>
        ensures text { (text : List ℕ) → StandsFor self.old text
            → Feeds result self.new (text ++ piece.now) }
        // No want of memory stands for a fault: it is answered at the end of a line before any.
        ensures memory { (text : List ℕ) → StandsFor self.old text → result ≡ Err TextFault.Memory
            → EndsWell problem_rule text piece.now }
        ensures err { IfErr result (HasFailed self.new) }
        ensures failed { (e : TextFault) → HasFailed self.old e → result ≡ Err e }
    {
        self.reader.feed(piece)
    }

    /// Ends the text, and answers its problem, or its first fault.
    pub fn finish(self) -> Result<Problem, TextFault>
        ensures text { (text : List ℕ) → StandsFor self text → Finishes result text }
        ensures failed { (e : TextFault) → HasFailed self e → result ≡ Err e }
    {
        let ProblemReader { reader } = self;
        let (draft, lines) = reader.finish()?;
        match draft.close() {
            Ok(problem) => Ok(problem),
            Err(fault) => Err(LineError::from(fault).at_line(lines)),
        }
    }
}

/// A law, with nothing to run: a text decides a fault exactly if every text that continues it has that fault. The empty
/// text decides none.
pub fn decided_for_all()
    ensures nothing { decided problem_rule [] ≡ None }
    ensures always { (text more : List ℕ) (fault : TextFault)
        → decided problem_rule text ≡ Some fault → reads (text ++ more) ≡ Err fault }
    ensures only { (text : List ℕ) (fault : TextFault)
        → ((more : List ℕ) → IsBytes more → reads (text ++ more) ≡ Err fault)
        → decided problem_rule text ≡ Some fault }
{
    decided_for_any_rule::<Problem>();
}
