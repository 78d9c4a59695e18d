//! Cutting a text that comes in pieces into lines.

ghost use Rattle.std.specs.Prelude.{◌≡◌, ◌↔◌, ◌<◌, ◌≤◌, ◌≢◌, false, [], ◌++◌, length, take, List, ℕ, IfSome, Some, None};
ghost use Rattle.std.specs.List.{position_or_len};
ghost use Rattle.std.specs.Option.{option_map};
ghost use Rattle.dimacs_lines.specs.Lines.{Line, is_line_feed, parts_of};
ghost use Rattle.dimacs_lines.specs.Cut.{begun_line, is_begun, extended, HoldsRest, BeginsRest, CutsLine, bytes_used, has_line_feed, cut_after, IsWhole};

use arrayvec::ArrayVec;
use memchr::memchr;
use std::marker::Model;

/// The most bytes that a line has before its LF.
pub const LINE_LIMIT: usize = 1024;

/// One line of a text that comes in pieces. Taking a piece cannot fail for lack of memory.
#[derive(Drop)]
pub struct LineCutter {
    bytes: ArrayVec<u8, LINE_LIMIT>,
    too_long: bool,
    complete: bool,
}

impl Model for LineCutter {
    ghost use Rattle.dimacs_lines.specs.Cut.{Cut};
    ghost use Rattle.dimacs_lines.specs.declared.cutter.TheConstants.{LINE_LIMIT};
    ghost use Rattle.std.specs.Prelude.{if◌then◌else◌, ◌≤◌, length, Some, None};

    ghost Value = { Cut };

    ghost view = { λ c. record { line = if c.too_long then None else Some c.bytes.items; complete = c.complete } };

    ghost invariant = { λ c. length c.bytes.items ≤ LINE_LIMIT };
}

impl LineCutter {
    /// A cutter at the beginning of a text.
    pub fn new() -> Self
        ensures { result ≡ record { line = Some []; complete = false } }
    {
        LineCutter {
            bytes: ArrayVec::new(),
            too_long: false,
            complete: false,
        }
    }

    /// Takes bytes through the first LF of the piece, and answers how many and whether the line is complete. The first
    /// byte after a complete line begins a new one.
    pub fn take(&mut self, piece: &[u8]) -> (usize, bool)
        ensures used { result.0 ≡ bytes_used piece.now }
        ensures complete { result.1 ≡ has_line_feed piece.now }
        ensures cut { self.new ≡ cut_after self.old piece.now }
        ensures text { (text : List ℕ) → HoldsRest self.old text
            → CutsLine self.old self.new result.1 text (text ++ take result.0 piece.now) }
    {
        self.cut(piece)
    }

    /// The line so far without its LF, or `None` where it has more than `LINE_LIMIT` bytes.
    pub fn line(&self) -> Option<&[u8]>
        ensures { option_map (λ line. line.now) result ≡ self.now.line }
    {
        if self.too_long {
            None
        } else {
            Some(self.bytes.as_slice())
        }
    }

    /// Whether bytes stand after the last LF.
    pub fn begun(&self) -> bool
        ensures begun { result ≡ is_begun self.now }
        ensures text { (text : List ℕ) → HoldsRest self.now text → BeginsRest result self.now text }
    {
        !self.complete && (self.too_long || !self.bytes.is_empty())
    }

    /// Takes bytes through the first LF of the piece.
    fn cut(&mut self, piece: &[u8]) -> (usize, bool)
        ensures used { result.0 ≡ bytes_used piece.now }
        ensures complete { result.1 ≡ has_line_feed piece.now }
        ensures cut { self.new ≡ cut_after self.old piece.now }
    {
        if piece.is_empty() {
            return (0, false);
        }
        let length = line_length(piece);
        self.begin();
        self.hold(&piece[..length]);
        if length < piece.len() {
            self.complete = true;
            (length + 1, true)
        } else {
            (length, false)
        }
    }

    /// Begins a new line where the last one is complete.
    fn begin(&mut self)
        ensures line { self.new.line ≡ begun_line self.old }
        ensures complete { self.new.complete ≡ false }
    {
        if self.complete {
            self.bytes.clear();
            self.too_long = false;
            self.complete = false;
        }
    }

    /// Adds bytes to the line.
    fn hold(&mut self, part: &[u8])
        ensures line { self.new.line ≡ extended self.old.line part.now }
        ensures complete { self.new.complete ≡ self.old.complete }
    {
        if self.bytes.try_extend_from_slice(part).is_err() {
            self.too_long = true;
        }
    }
}

/// A law, with nothing to run: the lines that a text ends stay where it goes on, and others may follow them.
pub fn ended_lines_stay()
    ensures { (text more : List ℕ) → (others : List Line)
        × ((parts_of (text ++ more)).ended ≡ (parts_of text).ended ++ others) }
{}

/// The line that a piece begins with, where all of it stands there and it is not too long.
#[inline(always)]
pub(crate) fn whole_line(piece: &[u8]) -> Option<&[u8]>
    ensures { IfSome result (λ line. IsWhole line.now piece.now) }
{
    let length = line_length(piece);
    if length < piece.len() && length <= LINE_LIMIT {
        Some(&piece[..length])
    } else {
        None
    }
}

/// How many bytes stand before the first LF, or at all where there is none. An empty line is not searched.
#[inline(always)]
fn line_length(piece: &[u8]) -> usize
    ensures { result ≡ position_or_len is_line_feed piece.now }
{
    match piece {
        [b'\n', ..] => 0,
        _ => memchr(b'\n', piece).unwrap_or(piece.len()),
    }
}
