//! The words of a line.

ghost use Rattle.std.specs.Prelude.{◌≡◌, ◌≢◌, ◌↔◌, IsTrue, ◌∷◌, [], ◌<◌, ◌≤◌, ◌+◌, length, drop, min, IfSome, MatchOption, MatchResult, ◌^◌, bytes_eq};
ghost use Rattle.std.specs.List.{position_or_len};
ghost use Rattle.dimacs_lines.specs.Fields.{is_blank, word_begin, words_of, natural};
ghost use Rattle.dimacs_lines.specs.declared.fault.LineFault.TheVariants as LineFault;

use crate::fault::LineFault;
use crate::numbers::{DIGIT_LIMIT, digits_from, integer};
use std::marker::Model;

/// A word of a line. The number that it spells is known from where it was split.
#[derive(Drop)]
pub struct Word<'a> {
    bytes: &'a [u8],
    number: Option<u64>,
}

impl<'a> Model for Word<'a> {
    ghost use Rattle.std.specs.Prelude.{◌≡◌, List, ℕ};
    ghost use Rattle.dimacs_lines.specs.Fields.{natural};

    ghost Value = { List ℕ };

    ghost view = { λ w. w.bytes.now };

    ghost invariant = { λ w. w.number ≡ natural w.bytes.now };
}

impl<'a> Word<'a> {
    ghost use Rattle.dimacs_lines.specs.declared.numbers.TheConstants.{DIGIT_LIMIT};
    ghost use Rattle.dimacs_lines.specs.Fields.{integer};
    ghost use Rattle.dimacs_lines.specs.Digits.{FrontDigits};

    /// The word of these bytes, which begin with so many digits that spell the value.
    #[inline(always)]
    fn new(bytes: &'a [u8], value: u64, digits: usize) -> Self
        requires bytes { 0 < length bytes.now }
        requires digits { FrontDigits value digits bytes.now }
        ensures { result ≡ bytes.now }
    {
        let number = if digits == bytes.len() && digits <= DIGIT_LIMIT {
            Some(value)
        } else {
            None
        };
        Word { bytes, number }
    }

    /// Its bytes.
    pub fn bytes(&self) -> &'a [u8]
        ensures { result.now ≡ self.now }
    {
        self.bytes
    }

    /// The number that it spells without a sign.
    pub fn natural(&self) -> Option<u64>
        ensures value { result ≡ natural self.now }
        ensures below { IfSome result (λ value. value < 10 ^ DIGIT_LIMIT) }
    {
        self.number
    }

    /// The number that it spells after one `-` or none.
    pub fn integer(&self) -> Option<i64>
        ensures { result ≡ integer self.now }
    {
        match self.natural() {
            Some(value) => Some(value as i64),
            None => integer(self.bytes),
        }
    }
}

/// The words that are left of a line.
#[derive(Drop)]
pub struct Words<'a> {
    rest: &'a [u8],
}

impl<'a> Model for Words<'a> {
    ghost use Rattle.std.specs.Prelude.{List, ℕ};
    ghost use Rattle.dimacs_lines.specs.Fields.{words_of};

    ghost Value = { List (List ℕ) };

    ghost view = { λ w. words_of w.rest.now };
}

impl<'a> Words<'a> {
    /// The words of a line.
    pub fn new(line: &'a [u8]) -> Self
        ensures { result ≡ words_of line.now }
    {
        Words { rest: line }
    }

    /// Takes the next word, if there is one.
    #[inline(always)]
    pub fn next(&mut self) -> Option<Word<'a>>
        ensures { MatchOption result ((self.old ≡ []) × (self.new ≡ []))
            (λ word. self.old ≡ word ∷ self.new) }
    {
        let (word, rest) = split_word(self.rest)?;
        self.rest = rest;
        Some(word)
    }

    /// Takes the next word, which has to be there.
    #[inline(always)]
    fn word(&mut self) -> Result<Word<'a>, LineFault>
        ensures { MatchResult result (λ word. self.old ≡ word ∷ self.new)
            (λ fault. (fault ≡ LineFault.WrongFieldCount) × (self.old ≡ [])) }
    {
        self.next().ok_or(LineFault::WrongFieldCount)
    }

    /// No word may be left, else `WrongFieldCount`.
    #[inline(always)]
    pub fn none(mut self) -> Result<(), LineFault>
        ensures { MatchResult result (λ _. self.entry ≡ [])
            (λ fault. (fault ≡ LineFault.WrongFieldCount) × (length self.entry ≢ 0)) }
    {
        match self.next() {
            None => Ok(()),
            Some(_) => Err(LineFault::WrongFieldCount),
        }
    }

    /// The only word that is left, or `WrongFieldCount`.
    #[inline(always)]
    pub fn one(mut self) -> Result<Word<'a>, LineFault>
        ensures { MatchResult result (λ word. self.entry ≡ word ∷ [])
            (λ fault. (fault ≡ LineFault.WrongFieldCount) × (length self.entry ≢ 1)) }
    {
        let word = self.word()?;
        self.none()?;
        Ok(word)
    }

    /// The two words that are left, or `WrongFieldCount`.
    pub fn two(mut self) -> Result<(Word<'a>, Word<'a>), LineFault>
        ensures { MatchResult result (λ words. self.entry ≡ words.0 ∷ words.1 ∷ [])
            (λ fault. (fault ≡ LineFault.WrongFieldCount) × (length self.entry ≢ 2)) }
    {
        let first = self.word()?;
        let second = self.one()?;
        Ok((first, second))
    }

    /// The three words that are left, or `WrongFieldCount`.
    pub fn three(mut self) -> Result<(Word<'a>, Word<'a>, Word<'a>), LineFault>
        ensures { MatchResult result (λ words. self.entry ≡ words.0 ∷ words.1 ∷ words.2 ∷ [])
            (λ fault. (fault ≡ LineFault.WrongFieldCount) × (length self.entry ≢ 3)) }
    {
        let first = self.word()?;
        let (second, third) = self.two()?;
        Ok((first, second, third))
    }

    /// The five words that are left, or `WrongFieldCount`.
    pub fn five(mut self) -> Result<(Word<'a>, Word<'a>, Word<'a>, Word<'a>, Word<'a>), LineFault>
        ensures { MatchResult result
            (λ words. self.entry ≡ words.0 ∷ words.1 ∷ words.2 ∷ words.3 ∷ words.4 ∷ [])
            (λ fault. (fault ≡ LineFault.WrongFieldCount) × (length self.entry ≢ 5)) }
    {
        let first = self.word()?;
        let second = self.word()?;
        let (third, fourth, fifth) = self.three()?;
        Ok((first, second, third, fourth, fifth))
    }
}

/// Whether a line has no word: a blank line, which every text skips.
pub fn is_blank(line: &[u8]) -> bool
    ensures { IsTrue result ↔ (words_of line.now ≡ []) }
{
    split_word(line).is_none()
}

/// The first word of a line, and the line after it and the blank that ends it.
#[inline(always)]
fn split_word(line: &[u8]) -> Option<(Word<'_>, &[u8])>
    ensures words { MatchOption result (words_of line.now ≡ [])
        (λ parts. words_of line.now ≡ parts.0 ∷ words_of parts.1.now) }
    ensures shorter { MatchOption result (0 ≤ length line.now)
        (λ parts. length parts.1.now < length line.now) }
{
    let begin = solid_from(line, 0);
    if begin == line.len() {
        return None;
    }
    let (value, digits_end) = digits_from(line, begin);
    let (end, next) = blank_from(line, digits_end);
    let word = Word::new(&line[begin..end], value, digits_end - begin);
    Some((word, &line[next..]))
}

/// The first place from this one on where no blank stands, or the end of the line.
#[inline(always)]
pub(crate) fn solid_from(line: &[u8], from: usize) -> usize
    requires { from ≤ length line.now }
    ensures place { result ≡ word_begin line.now from }
    ensures within { result ≤ length line.now }
{
    for at in from..line.len() {
        if !is_blank_byte(line[at]) {
            return at;
        }
    }
    line.len()
}

/// The first place from this one on where a blank stands, and the one after it; or the end of the line, twice. Mostly
/// it is this one.
#[inline(always)]
fn blank_from(line: &[u8], from: usize) -> (usize, usize)
    requires { from ≤ length line.now }
    ensures place { result.0 ≡ from + position_or_len is_blank (drop from line.now) }
    ensures next { result.1 ≡ min (result.0 + 1) (length line.now) }
    ensures within { result.0 ≤ length line.now }
{
    if from == line.len() {
        return (from, from);
    }
    if is_blank_byte(line[from]) {
        return (from, from + 1);
    }
    later_blank(line, from)
}

/// The same, where it may be far.
#[inline(never)]
fn later_blank(line: &[u8], from: usize) -> (usize, usize)
    requires { from ≤ length line.now }
    ensures place { result.0 ≡ from + position_or_len is_blank (drop from line.now) }
    ensures next { result.1 ≡ min (result.0 + 1) (length line.now) }
    ensures within { result.0 ≤ length line.now }
{
    for at in from..line.len() {
        if is_blank_byte(line[at]) {
            return (at, at + 1);
        }
    }
    (line.len(), line.len())
}

/// Space, tab and CR.
pub(crate) fn is_blank_byte(byte: u8) -> bool
    ensures { result ≡ is_blank byte }
{
    byte == b' ' || byte == b'\t' || byte == b'\r'
}

/// Whether a word is this one.
#[inline(always)]
pub fn is_word(word: &[u8], other: &[u8]) -> bool
    ensures { result ≡ bytes_eq word.now other.now }
{
    word == other
}
