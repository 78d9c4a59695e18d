//! The lines of texts that come in pieces: their words, numbers and names, their faults, and a reader that takes them
//! one after the other.
#![tactic(auto)]

mod cutter;
mod fault;
mod front;
mod limits;
mod name;
mod numbers;
mod reader;
mod sequence;
mod words;

pub use cutter::{LINE_LIMIT, LineCutter, ended_lines_stay};
pub use fault::{LineError, LineFault, TextFault};
pub use front::{line_end, next_integer, next_natural};
pub use limits::limits_are;
pub use name::{NAME_LIMIT, Name, names_are_compared};
pub use numbers::{
    DIGIT_LIMIT, VALUE_DIGIT_LIMIT, claimed_value, integer_in, natural_in, number_in,
};
pub use reader::{LineTaker, TextReader, decided_for_any_rule};
pub use sequence::Sequence;
pub use words::{Word, Words, is_blank, is_word};
