//! One line, put together in place before it is written, so that it is handed over whole and can't fail for want of
//! memory.
ghost use Rattle.std.specs.Prelude.{◌≡◌, ◌+◌, ◌≤◌, [], ◌∷◌, ◌++◌, length};

use itoa::{Buffer, Integer};
use std::marker::Model;

/// How many bytes a line has at most. The longest of a solution, `f`, has 45, and the longest message 51.
const ROOM: usize = 64;

/// The beginning of a line, of at most 64 bytes.
#[derive(Drop)]
pub struct Line {
    bytes: [u8; ROOM],
    len: usize,
}

impl Model for Line {
    ghost use Rattle.std.specs.Prelude.{ℕ, List, take, ◌≤◌};

    ghost Value = { List ℕ };

    ghost view = { λ l. take l.len l.bytes };

    ghost invariant = { λ l. l.len ≤ 64 };
}

impl Line {
    /// An empty line.
    pub fn new() -> Line
        ensures { result ≡ [] }
    {
        Line {
            bytes: [0; ROOM],
            len: 0,
        }
    }

    /// Adds the bytes of a text.
    pub fn push_text(&mut self, text: &[u8])
        requires { length self.old + length text.now ≤ 64 }
        ensures { self.new ≡ self.old ++ text.now }
    {
        let end = self.len + text.len();
        self.bytes[self.len..end].copy_from_slice(text);
        self.len = end;
    }

    /// Adds a number in decimal, without leading zeros.
    pub fn push_number<I: Integer>(&mut self, number: I)
        requires { length self.old + I.MAX_STR_LEN ≤ 64 }
        ensures bytes { self.new ≡ self.old ++ I.text number }
        ensures room { length self.new ≤ length self.old + I.MAX_STR_LEN }
    {
        let mut digits = Buffer::new();
        self.push_text(digits.format(number).as_bytes());
    }

    /// What was added so far.
    pub fn as_bytes(&self) -> &[u8]
        ensures { result.now ≡ self.now }
    {
        &self.bytes[..self.len]
    }
}
