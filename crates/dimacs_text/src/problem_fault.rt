//! The faults of a problem text.

ghost use Rattle.std.specs.Prelude.{◌≡◌};
ghost use Rattle.dimacs_text.specs.ProblemFault.{number_of};

use dimacs_lines::{LineError, LineFault};

/// What is wrong with a line of a problem text, or with its end.
#[derive(Clone, Copy, Debug, PartialEq, Eq)]
pub enum ProblemFault {
    /// The line is faulty by itself.
    Line(LineFault),
    /// A node or arc line comes before the problem line.
    BeforeProblemLine,
    SecondProblemLine,
    UnknownKind,
    NodeAfterArc,
    /// A node is named twice, or there is a second source or sink.
    NamedTwice,
    /// An arc line or the end comes while the source or the sink is missing.
    EndpointMissing,
    TooManyArcs,
    TooFewArcs,
    NoProblemLine,
    /// The lower bound of an arc is above its capacity.
    LowAboveCap,
    /// An arc does not lead from the source side to the sink side.
    NotAcrossSides,
    /// The word of a node line is neither `s` nor `t`.
    UnknownNodeWord,
}

impl ProblemFault {
    /// Its number.
    pub fn number(self) -> u8
        ensures { result ≡ number_of self }
    {
        match self {
            ProblemFault::Line(fault) => fault.number(),
            ProblemFault::BeforeProblemLine => 6,
            ProblemFault::SecondProblemLine => 7,
            ProblemFault::UnknownKind => 8,
            ProblemFault::NodeAfterArc => 9,
            ProblemFault::NamedTwice => 10,
            ProblemFault::EndpointMissing => 11,
            ProblemFault::TooManyArcs => 12,
            ProblemFault::TooFewArcs => 13,
            ProblemFault::NoProblemLine => 14,
            ProblemFault::LowAboveCap => 15,
            ProblemFault::NotAcrossSides => 16,
            ProblemFault::UnknownNodeWord => 17,
        }
    }
}

impl From<LineFault> for ProblemFault {
    ghost use Rattle.std.specs.Prelude.{◌≡◌};
    ghost use Rattle.dimacs_text.specs.declared.problem_fault.ProblemFault.TheVariants as faults;

    ghost from_gives = { λ of_line fault. fault ≡ faults.Line of_line };

    fn from(fault: LineFault) -> Self {
        ProblemFault::Line(fault)
    }
}

impl From<ProblemFault> for LineError {
    ghost use Rattle.std.specs.Prelude.{◌≡◌};
    ghost use Rattle.dimacs_lines.specs.declared.fault.LineError.TheVariants as line_error;
    ghost use Rattle.dimacs_text.specs.ProblemFault.{number_of};

    ghost from_gives = { λ fault e. e ≡ line_error.Fault (number_of fault) };

    fn from(fault: ProblemFault) -> Self {
        LineError::Fault(fault.number())
    }
}
