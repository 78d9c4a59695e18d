//! Readers of DIMACS network texts that come in pieces.
#![tactic(auto)]

mod command;
mod command_fault;
mod designator;
mod draft;
mod group;
mod limits;
mod problem;
mod problem_fault;
mod problem_reader;
mod terminals;
mod turns;

pub use answer_text::{Answer, AnswerFault, AnswerReader, FlowLine, answer_decided_for_all};
pub use command::{Command, Edit, groups_are_bracketed, read_command};
pub use command_fault::CommandFault;
pub use dimacs_lines::{
    LINE_LIMIT, LineCutter, LineFault, NAME_LIMIT, Name, Sequence, TextFault, is_blank,
    names_are_compared,
};
pub use group::{GROUP_LIMIT, Group};
pub use limits::limits_are;
pub use problem::{
    ARC_LIMIT, ArcRow, CAP_LIMIT, COST_LIMIT, Kind, NODE_LIMIT, NodeMark, Problem, SUPPLY_LIMIT,
    Size,
};
pub use problem_fault::ProblemFault;
pub use problem_reader::{ProblemReader, decided_for_all};
pub use turns::turns_follow;
