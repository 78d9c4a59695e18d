//! The faults of an answer text.

ghost use Rattle.std.specs.Prelude.{◌≡◌};
ghost use Rattle.answer_text.specs.AnswerFault.{number_of};

use dimacs_lines::{LineError, LineFault};

/// What is wrong with a line of an answer text, or with its end.
#[derive(Clone, Copy, Debug, PartialEq, Eq)]
pub enum AnswerFault {
    /// The line is faulty by itself.
    Line(LineFault),
    /// A line is at the wrong place, or one is missing.
    OutOfOrder,
}

impl AnswerFault {
    /// Its number.
    pub fn number(self) -> u8
        ensures { result ≡ number_of self }
    {
        match self {
            AnswerFault::Line(fault) => fault.number(),
            AnswerFault::OutOfOrder => 40,
        }
    }
}

impl From<LineFault> for AnswerFault {
    ghost use Rattle.std.specs.Prelude.{◌≡◌};
    ghost use Rattle.answer_text.specs.declared.answer_fault.AnswerFault.TheVariants as faults;

    ghost from_gives = { λ of_line fault. fault ≡ faults.Line of_line };

    fn from(fault: LineFault) -> Self {
        AnswerFault::Line(fault)
    }
}

impl From<AnswerFault> for LineError {
    ghost use Rattle.std.specs.Prelude.{◌≡◌};
    ghost use Rattle.dimacs_lines.specs.declared.fault.LineError.TheVariants as line_error;
    ghost use Rattle.answer_text.specs.AnswerFault.{number_of};

    ghost from_gives = { λ fault e. e ≡ line_error.Fault (number_of fault) };

    fn from(fault: AnswerFault) -> Self {
        LineError::Fault(fault.number())
    }
}
