//! The lines of an answer text.

ghost use Rattle.std.specs.Prelude.{◌≡◌};

use dimacs_lines::is_word;

/// What the first word makes of a line of an answer text.
#[derive(Clone, Copy)]
pub enum AnswerLine {
    Comment,
    Value,
    Flow,
    Potential,
    Shortage,
    CutNode,
    Unknown,
}

impl AnswerLine {
    ghost use Rattle.answer_text.specs.Answer.{line_of};

    /// What a first word makes of its line.
    pub fn of(word: &[u8]) -> Self
        ensures { result ≡ line_of word.now }
    {
        match word {
            [b'c', ..] => AnswerLine::Comment,
            _ if is_word(word, b"s") => AnswerLine::Value,
            _ if is_word(word, b"f") => AnswerLine::Flow,
            _ if is_word(word, b"v") => AnswerLine::Potential,
            _ if is_word(word, b"i") => AnswerLine::Shortage,
            _ if is_word(word, b"k") => AnswerLine::CutNode,
            _ => AnswerLine::Unknown,
        }
    }
}
