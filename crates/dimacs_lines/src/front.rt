//! The line that a text begins with, read where it stands: one pass splits its words, reads their numbers and finds its
//! LF.

ghost use Rattle.std.specs.Prelude.{◌≡◌, ◌<◌, ◌≤◌, ◌^◌, IfSome, length};
ghost use Rattle.dimacs_lines.specs.Fields.{word_begin};
ghost use Rattle.dimacs_lines.specs.Front.{SomeDigits, IsNextNatural, IsNextInteger, EndsLine};
ghost use Rattle.dimacs_lines.specs.declared.numbers.TheConstants.{DIGIT_LIMIT};

use crate::numbers::{DIGIT_LIMIT, digits_from};
use crate::words::{is_blank_byte, solid_from};

/// The number without a sign that comes next in the line, where a blank stands at this place, and where its word ends.
#[inline(always)]
pub fn next_natural(text: &[u8], from: usize) -> Option<(u64, usize)>
    requires { from ≤ length text.now }
    ensures word { IfSome result (λ next. IsNextNatural text.now from next.0 next.1) }
    ensures below { IfSome result (λ next. next.0 < 10 ^ DIGIT_LIMIT) }
    ensures within { IfSome result (λ next. next.1 ≤ length text.now) }
{
    let begin = word_from(text, from);
    if begin == from {
        return None;
    }
    some_digits(text, begin)
}

/// The number that comes next in the line after one `-` or none, where a blank stands at this place, and where its word
/// ends.
#[inline(always)]
pub fn next_integer(text: &[u8], from: usize) -> Option<(i64, usize)>
    requires { from ≤ length text.now }
    ensures word { IfSome result (λ next. IsNextInteger text.now from next.0 next.1) }
    ensures within { IfSome result (λ next. next.1 ≤ length text.now) }
{
    let begin = word_from(text, from);
    if begin == from {
        return None;
    }
    if begin < text.len() && text[begin] == b'-' {
        let (size, end) = some_digits(text, begin + 1)?;
        return Some((-(size as i64), end));
    }
    let (size, end) = some_digits(text, begin)?;
    Some((size as i64, end))
}

/// The number that the digits from this place on spell, and where they end: one to `DIGIT_LIMIT` of them.
#[inline(always)]
fn some_digits(text: &[u8], begin: usize) -> Option<(u64, usize)>
    requires { begin ≤ length text.now }
    ensures digits { IfSome result (λ read. SomeDigits text.now begin read.0 read.1) }
    ensures below { IfSome result (λ read. read.0 < 10 ^ DIGIT_LIMIT) }
{
    let (value, end) = digits_from(text, begin);
    let count = end - begin;
    if count == 0 || count > DIGIT_LIMIT {
        return None;
    }
    Some((value, end))
}

/// The place behind the LF of the line, where no word is left before it.
#[inline(always)]
pub fn line_end(text: &[u8], from: usize) -> Option<usize>
    requires { from ≤ length text.now }
    ensures { IfSome result (λ next. EndsLine text.now from next) }
{
    if from < text.len() && text[from] == b'\n' {
        return Some(from + 1);
    }
    let end = later_word(text, from);
    if end < text.len() && text[end] == b'\n' {
        return Some(end + 1);
    }
    None
}

/// The first place from this one on where no blank stands, or the end of the text. Mostly one space stands before it.
#[inline(always)]
fn word_from(text: &[u8], from: usize) -> usize
    requires { from ≤ length text.now }
    ensures place { result ≡ word_begin text.now from }
    ensures within { result ≤ length text.now }
{
    if from + 1 < text.len() && text[from] == b' ' && !is_blank_byte(text[from + 1]) {
        return from + 1;
    }
    later_word(text, from)
}

/// The same, where it may be far.
#[inline(never)]
fn later_word(text: &[u8], from: usize) -> usize
    requires { from ≤ length text.now }
    ensures place { result ≡ word_begin text.now from }
    ensures within { result ≤ length text.now }
{
    solid_from(text, from)
}
