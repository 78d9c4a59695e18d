//! The names of marks.

ghost use Rattle.std.specs.Prelude.{◌≡◌, ◌↔◌, ◌≤◌, IsTrue, List, ℕ, length, nat_eq};
ghost use Rattle.std.specs.Cmp.{partial_equiv_from_equiv};
ghost use Rattle.std.specs.Cmp.Lexicographic.{pointwise, nat_list_eq_equiv};
ghost use Rattle.dimacs_lines.specs.Name.{filled, is_letter, is_name, name_of};
ghost use Rattle.dimacs_lines.specs.declared.name.TheConstants.{NAME_LIMIT};

use std::marker::Model;

/// The most letters of a name.
pub const NAME_LIMIT: usize = 32;

/// The name of a mark: 1 to `NAME_LIMIT` letters, `a` to `z` and `A` to `Z`. Making one cannot fail for lack of memory.
#[derive(Clone, Copy, Debug)]
pub struct Name {
    /// The letters, and 0 in each place behind them.
    letters: [u8; NAME_LIMIT],
    count: u8,
}

impl Model for Name {
    ghost use Rattle.std.specs.Prelude.{List, ℕ, ◌≡◌, length, take};
    ghost use Rattle.dimacs_lines.specs.Name.{filled};

    ghost Value = { List ℕ };

    ghost view = { λ n. take n.count n.letters };

    ghost invariant = { λ n. (n.letters ≡ filled (take n.count n.letters)) × (n.count ≡ length (take n.count n.letters)) };

    ghost inverse = { λ letters. record { letters = filled letters; count = length letters } };
}

impl Name {
    /// The name that a word is, if it is one.
    pub fn of(word: &[u8]) -> Option<Self>
        ensures { result ≡ name_of word.now }
    {
        if !is_name(word) {
            return None;
        }
        Some(Name {
            letters: filled(word),
            count: word.len() as u8,
        })
    }

    /// The letters.
    pub fn letters(&self) -> &[u8]
        ensures { result.now ≡ self.now }
    {
        &self.letters[..self.count as usize]
    }
}

impl PartialEq for Name {
    ghost eq = { pointwise nat_eq };

    ghost laws = { partial_equiv_from_equiv nat_list_eq_equiv };

    fn eq(&self, other: &Name) -> bool {
        self.letters() == other.letters()
    }
}

impl Eq for Name {
    ghost laws = { nat_list_eq_equiv };
}

/// One letter or more, and no more than `NAME_LIMIT`.
fn is_name(word: &[u8]) -> bool
    ensures { result ≡ is_name word.now }
{
    if word.is_empty() || word.len() > NAME_LIMIT {
        return false;
    }
    word.iter().all(|byte| is_letter(*byte))
}

/// Letters, with 0 in each place behind them.
fn filled(letters: &[u8]) -> [u8; NAME_LIMIT]
    requires { length letters.now ≤ NAME_LIMIT }
    ensures { result ≡ filled letters.now }
{
    let mut places = [0; NAME_LIMIT];
    places[..letters.len()].copy_from_slice(letters);
    places
}

/// One of `a` to `z` and `A` to `Z`.
fn is_letter(byte: u8) -> bool
    ensures { result ≡ is_letter byte }
{
    matches!(byte, b'a'..=b'z' | b'A'..=b'Z')
}

/// A law, with nothing to run: two names are equal exactly where they have the same letters.
pub fn names_are_compared()
    ensures { (a b : List ℕ) → IsTrue (pointwise nat_eq a b) ↔ (a ≡ b) }
{}
