//! The numbers that words spell.

ghost use Rattle.std.specs.Prelude.{◌≡◌, ◌<◌, ◌≤◌, ◌-◌, length, drop, ◌*◌, ◌^◌, IfSome, IfOk, pos, ◌≤ℤ◌, neg_ℤ};
ghost use Rattle.dimacs_lines.specs.declared.numbers.TheConstants.{DIGIT_LIMIT, VALUE_DIGIT_LIMIT};
ghost use Rattle.dimacs_lines.specs.Fields.{natural, natural_within, integer, claimed_value, is_negative, without_sign};
ghost use Rattle.dimacs_lines.specs.Digits.{FrontDigits};
ghost use Rattle.dimacs_lines.specs.Checks.{number_in, natural_in, integer_in};

use crate::fault::LineFault;
use crate::words::Word;

/// The most digits of a number.
pub const DIGIT_LIMIT: usize = 18;
/// The most digits of the value of an answer.
pub const VALUE_DIGIT_LIMIT: usize = 30;
/// What the digits before the last `DIGIT_LIMIT` count in.
const BACK_UNIT: u128 = 1_000_000_000_000_000_000;

/// The number that one to 18 digits spell.
fn natural(word: &[u8]) -> Option<u64>
    ensures value { result ≡ natural word.now }
    ensures below { IfSome result (λ value. value < 10 ^ DIGIT_LIMIT) }
{
    let (value, end) = digits_from(word, 0);
    if word.is_empty() || end < word.len() || end > DIGIT_LIMIT {
        return None;
    }
    Some(value)
}

/// Where the digits end that stand from this place on, and the number that they spell where they are at most
/// `DIGIT_LIMIT`.
#[inline(always)]
pub(crate) fn digits_from(line: &[u8], from: usize) -> (u64, usize)
    requires { from ≤ length line.now }
    ensures place { from ≤ result.1 }
    ensures digits { FrontDigits result.0 (result.1 - from) (drop from line.now) }
{
    let mut value = 0u64;
    for at in from..line.len() {
        let digit = u64::from(line[at]).wrapping_sub(u64::from(b'0'));
        if digit > 9 {
            return (value, at);
        }
        value = value.wrapping_mul(10).wrapping_add(digit);
    }
    (value, line.len())
}

/// The number that one to 18 digits spell, after one `-` or none.
#[inline(never)]
#[tactic(auto, unfolding(crate::specs::Fields::integer))]
pub(crate) fn integer(word: &[u8]) -> Option<i64>
    ensures { result ≡ integer word.now }
{
    let (negative, digits) = split_sign(word);
    let size = natural(digits)? as i64;
    Some(if negative { -size } else { size })
}

/// The value of an answer: one to 30 digits, after one `-` or none.
#[tactic(auto, unfolding(crate::specs::Fields::claimed_value))]
pub fn claimed_value(word: &[u8]) -> Option<i128>
    ensures { result ≡ claimed_value word.now }
{
    let (negative, digits) = split_sign(word);
    let size = long_natural(digits)? as i128;
    Some(if negative { -size } else { size })
}

/// The number that one to 30 digits spell: that of the last 18, and that of those before them.
fn long_natural(word: &[u8]) -> Option<u128>
    ensures value { result ≡ natural_within VALUE_DIGIT_LIMIT word.now }
    ensures below { IfSome result (λ value. value < 10 ^ (2 * DIGIT_LIMIT)) }
{
    if word.len() > VALUE_DIGIT_LIMIT {
        return None;
    }
    if word.len() <= DIGIT_LIMIT {
        let value = natural(word)?;
        return Some(u128::from(value));
    }
    let (front, back) = word.split_at(word.len() - DIGIT_LIMIT);
    let high = natural(front)?;
    let low = natural(back)?;
    Some(u128::from(high) * BACK_UNIT + u128::from(low))
}

/// Whether a word begins with a `-`, and what stands after it.
fn split_sign(word: &[u8]) -> (bool, &[u8])
    ensures sign { result.0 ≡ is_negative word.now }
    ensures digits { result.1.now ≡ without_sign word.now }
{
    match word {
        [b'-', digits @ ..] => (true, digits),
        _ => (false, word),
    }
}

/// The number of a field without sign, in no range.
#[inline(always)]
pub fn number_in(word: Word) -> Result<u64, LineFault>
    ensures value { result ≡ number_in word.entry }
    ensures below { IfOk result (λ value. value < 10 ^ DIGIT_LIMIT) }
{
    word.natural().ok_or(LineFault::NotANumber)
}

/// The number of a field without sign, from `low` to `high`: first its shape is tested, then its range.
#[inline(always)]
pub fn natural_in(word: Word, low: u64, high: u64) -> Result<u64, LineFault>
    ensures value { result ≡ natural_in low high word.entry }
    ensures range { IfOk result (λ value. (low ≤ value) × (value ≤ high)) }
{
    match word.natural() {
        None => Err(LineFault::NotANumber),
        Some(value) => {
            if low <= value && value <= high {
                Ok(value)
            } else {
                Err(LineFault::OutOfRange)
            }
        }
    }
}

/// The number of a field with a sign, at most the limit either way: first its shape is tested, then its range.
#[inline(always)]
pub fn integer_in(word: Word, limit: i64) -> Result<i64, LineFault>
    requires { pos 0 ≤ℤ limit }
    ensures value { result ≡ integer_in limit word.entry }
    ensures range { IfOk result (λ value. (neg_ℤ limit ≤ℤ value) × (value ≤ℤ limit)) }
{
    match word.integer() {
        None => Err(LineFault::NotANumber),
        Some(value) => {
            if -limit <= value && value <= limit {
                Ok(value)
            } else {
                Err(LineFault::OutOfRange)
            }
        }
    }
}
