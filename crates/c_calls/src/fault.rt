//! The first fault of a text.

ghost use Rattle.c_calls.specs.Library.{IsToldAs};

use crate::status::{FAULT, MEMORY};
use dimacs_text::TextFault;

/// The first fault of a text.
#[repr(C)]
#[derive(Clone, Copy)]
pub struct Fault {
    /// The line, counted from 1.
    pub line: u64,
    pub number: u8,
}

/// Tells why a text was not read: `FAULT`, and the fault, or `MEMORY`.
pub(crate) fn tell_refusal(refused: TextFault, fault: &mut Fault) -> i32
    ensures { IsToldAs refused result fault.old fault.new }
{
    match refused {
        TextFault::Fault { number, line } => {
            *fault = Fault { line, number };
            FAULT
        }
        TextFault::Memory => MEMORY,
    }
}
