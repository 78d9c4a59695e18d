//! The faults of a line, and what is answered of a text that has a fault.

ghost use Rattle.std.specs.Prelude.{◌≡◌, ◌+◌, ◌-◌, ◌^◌};
ghost use Rattle.dimacs_lines.specs.Fault.{number_of, located};

use std::alloc::{AllocError, AllocFailed};
use thiserror::Error;

/// What is wrong with a line by itself, in any text.
#[derive(Clone, Copy, Debug, PartialEq, Eq)]
pub enum LineFault {
    /// It has more bytes before its LF than `LINE_LIMIT`.
    TooLong,
    /// Its first word is no designator of this text, or no command.
    UnknownDesignator,
    WrongFieldCount,
    /// A field is not 1 to 18 digits, after one `-` where a sign is allowed.
    NotANumber,
    OutOfRange,
}

impl LineFault {
    /// Its number, by which it is reported in every text.
    pub fn number(self) -> u8
        ensures { result ≡ number_of self }
    {
        match self {
            LineFault::TooLong => 1,
            LineFault::UnknownDesignator => 2,
            LineFault::WrongFieldCount => 3,
            LineFault::NotANumber => 4,
            LineFault::OutOfRange => 5,
        }
    }
}

/// Why a line was not taken.
#[derive(Clone, Copy)]
pub enum LineError {
    /// The line is faulty, by the number of its fault: each text has faults of its own.
    Fault(u8),
    /// Want of memory.
    Memory,
}

/// Why a text was not read.
#[derive(Clone, Copy, Debug, PartialEq, Eq, Error)]
pub enum TextFault {
    /// The number of the first fault, and its line: lines are counted from 1, and a fault at the end has their number.
    #[error("line {line}: fault {number}")]
    Fault { number: u8, line: u64 },
    /// Want of memory.
    #[error("want of memory")]
    Memory,
}

impl LineError {
    /// The error, at a line of the text.
    pub fn at_line(self, line: u64) -> TextFault
        ensures { result ≡ located self line }
    {
        match self {
            LineError::Fault(number) => TextFault::Fault { number, line },
            LineError::Memory => TextFault::Memory,
        }
    }
}

impl From<LineFault> for LineError {
    ghost use Rattle.std.specs.Prelude.{◌≡◌};
    ghost use Rattle.dimacs_lines.specs.declared.fault.LineError.TheVariants as line_error;
    ghost use Rattle.dimacs_lines.specs.Fault.{number_of};

    ghost from_gives = { λ fault e. e ≡ line_error.Fault (number_of fault) };

    fn from(fault: LineFault) -> Self {
        LineError::Fault(fault.number())
    }
}

impl From<AllocError> for LineError {
    ghost use Rattle.std.specs.Prelude.{◌≡◌};
    ghost use Rattle.dimacs_lines.specs.declared.fault.LineError.TheVariants.{Memory};

    ghost from_gives = { λ _ e. e ≡ Memory };

    fn from(_error: AllocError) -> Self {
        LineError::Memory
    }
}

impl<T: Drop> From<AllocFailed<T>> for LineError {
    ghost use Rattle.std.specs.Prelude.{◌≡◌};
    ghost use Rattle.dimacs_lines.specs.declared.fault.LineError.TheVariants.{Memory};

    ghost from_gives = { λ _ e. e ≡ Memory };

    fn from(_failed: AllocFailed<T>) -> Self {
        LineError::Memory
    }
}
