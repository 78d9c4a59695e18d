//! The source and the sink of a maximum flow problem.

ghost use Rattle.std.specs.Prelude.{◌≡◌};
ghost use Rattle.dimacs_text.specs.Problem.{is_source, is_sink, has_source, has_sink, has_terminals, is_source_word, is_sink_word, terminal_by};

use crate::problem::{Kind, NodeMark};
use crate::problem_fault::ProblemFault;
use dimacs_lines::is_word;

/// Whether each terminal that the kind asks for is named.
pub fn has_terminals(kind: Kind, marks: &[NodeMark]) -> bool
    ensures { result ≡ has_terminals kind marks.now }
{
    match kind {
        Kind::Min => true,
        Kind::Max => has_source(marks) && has_sink(marks),
        Kind::Asn => true,
    }
}

/// The mark of a source, or of a sink, where there is none yet.
pub fn terminal(source: bool, id: u32, marks: &[NodeMark]) -> Result<NodeMark, ProblemFault>
    ensures { result ≡ terminal_by source id marks.now }
{
    if source {
        if has_source(marks) {
            return Err(ProblemFault::NamedTwice);
        }
        Ok(NodeMark::Source(id))
    } else {
        if has_sink(marks) {
            return Err(ProblemFault::NamedTwice);
        }
        Ok(NodeMark::Sink(id))
    }
}

/// Whether the word of a node line names the source.
pub fn is_source_word(word: &[u8]) -> bool
    ensures { result ≡ is_source_word word.now }
{
    is_word(word, b"s")
}

/// Whether the word of a node line names the sink.
pub fn is_sink_word(word: &[u8]) -> bool
    ensures { result ≡ is_sink_word word.now }
{
    is_word(word, b"t")
}

/// Whether a source is named. Beside a source and a sink there are no marks, so this looks at two at most.
fn has_source(marks: &[NodeMark]) -> bool
    ensures { result ≡ has_source marks.now }
{
    marks.iter().any(|mark| is_source(mark))
}

/// Whether a sink is named.
fn has_sink(marks: &[NodeMark]) -> bool
    ensures { result ≡ has_sink marks.now }
{
    marks.iter().any(|mark| is_sink(mark))
}

/// Whether a mark is that of a source.
fn is_source(mark: &NodeMark) -> bool
    ensures { result ≡ is_source mark.now }
{
    matches!(mark, NodeMark::Source(_))
}

/// Whether a mark is that of a sink.
fn is_sink(mark: &NodeMark) -> bool
    ensures { result ≡ is_sink mark.now }
{
    matches!(mark, NodeMark::Sink(_))
}
