//! The lines of a problem text.

ghost use Rattle.std.specs.Prelude.{◌≡◌};

/// What the first word makes of a line.
#[derive(Clone, Copy)]
pub enum Designator {
    Comment,
    Problem,
    Node,
    Arc,
    Unknown,
}

impl Designator {
    ghost use Rattle.dimacs_text.specs.Problem.{designator_of};

    /// What a first word makes of its line.
    pub fn of(word: &[u8]) -> Self
        ensures { result ≡ designator_of word.now }
    {
        match word {
            [b'c', ..] => Designator::Comment,
            [b'p'] => Designator::Problem,
            [b'n'] => Designator::Node,
            [b'a'] => Designator::Arc,
            _ => Designator::Unknown,
        }
    }
}
