//! A reader of answer texts that come in pieces.
#![tactic(auto)]

mod answer;
mod answer_draft;
mod answer_fault;
mod answer_line;
mod answer_reader;

pub use answer::{Answer, FlowLine};
pub use answer_fault::AnswerFault;
pub use answer_reader::{AnswerReader, answer_decided_for_all};
