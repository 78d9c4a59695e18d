//! Reading a text in pieces, line by line, under any rule for its lines.

ghost use Rattle.std.specs.Prelude.{◌≡◌, ◌≢◌, ◌<◌, ◌≤◌, List, ℕ, [], ◌++◌, Option, None, Some, Result, Err, IfOk, IfErr, IfSome, length};
ghost use Rattle.dimacs_lines.specs.declared.fault.LineFault.TheVariants as faults;
ghost use Rattle.dimacs_lines.specs.declared.fault.TextFault.{TextFault};
ghost use Rattle.dimacs_lines.specs.Cut.{bytes_used, has_line_feed, IsFront};
ghost use Rattle.dimacs_lines.specs.Fault.{number_of};
ghost use Rattle.dimacs_lines.specs.Lines.{Line, IsBytes};
ghost use Rattle.dimacs_lines.specs.Stream.{Rule, TakesFront, TakesLine, TakesCut, TakesPart, EndsWell, decided, read_by};

use crate::cutter::{LineCutter, whole_line};
use crate::fault::{LineError, LineFault, TextFault};

/// What takes the lines of a text, one after the other.
pub trait LineTaker: Drop {
    /// What is known before the text begins.
    ghost Setting: { Type 0 } = { Unit {0} };

    /// The number of the fault of a line that fits, among the lines before it.
    ghost rule: { Self.Setting → List (List ℕ) → List ℕ → Option ℕ };

    /// What these lines tell is held.
    ghost holds: { Self.Setting → List (List ℕ) → Self → Type 0 };

    /// Takes the line that a text begins with, where it is quick to take as it stands and has no fault, and answers how
    /// many bytes it has with its LF. Else nothing is taken.
    fn take_front(&mut self, text: &[u8]) -> Option<usize>
        ensures front { IfSome result (λ used. IsFront used text.now) }
        ensures taken { (setting : Self.Setting) (before : List (List ℕ))
            → holds setting before self.old
            → TakesFront (rule setting) (holds setting) result before text.now self.new };

    /// Takes a line that is not too long.
    fn take_line(&mut self, line: &[u8]) -> Result<(), LineError>
        ensures { (setting : Self.Setting) (before : List (List ℕ)) → holds setting before self.old
            → TakesLine (rule setting) (holds setting) result before line.now self.new };
}

/// Takes the line that was cut, where it is complete or too long.
fn take_cut<T: LineTaker>(
    cutter: &LineCutter,
    complete: bool,
    taker: &mut T,
) -> Result<(), LineError>
    ensures { (setting : T.Setting) (before : List (List ℕ)) → T.holds setting before taker.old
        → TakesCut (T.rule setting) (T.holds setting) result before cutter.now.line complete
        taker.new }
{
    match cutter.line() {
        None => Err(LineFault::TooLong.into()),
        Some(line) => {
            if complete {
                taker.take_line(line)
            } else {
                Ok(())
            }
        }
    }
}

/// Takes the piece through its first LF, and answers how many bytes and whether a line is complete. A line that stands
/// whole in the piece is taken as it stands; the cutter joins the others.
#[inline(always)]
fn take_part<T: LineTaker>(
    cutter: &mut LineCutter,
    taker: &mut T,
    piece: &[u8],
) -> Result<(usize, bool), LineError>
    requires { 0 < length piece.now }
    ensures used { IfOk result (λ part. part.0 ≡ bytes_used piece.now) }
    ensures complete { IfOk result (λ part. part.1 ≡ has_line_feed piece.now) }
    ensures taken { (setting : T.Setting) (before : List (List ℕ))
        → T.holds setting before taker.old
        → TakesPart (T.rule setting) (T.holds setting) result before cutter.old piece.now
        cutter.new taker.new }
{
    if cutter.begun() {
        return take_joined(cutter, taker, piece);
    }
    if let Some(used) = taker.take_front(piece) {
        return Ok((used, true));
    }
    if let Some(line) = whole_line(piece) {
        taker.take_line(line)?;
        return Ok((line.len() + 1, true));
    }
    take_joined(cutter, taker, piece)
}

/// The same by the cutter, which joins the parts of a line.
#[inline(never)]
fn take_joined<T: LineTaker>(
    cutter: &mut LineCutter,
    taker: &mut T,
    piece: &[u8],
) -> Result<(usize, bool), LineError>
    requires { 0 < length piece.now }
    ensures used { IfOk result (λ part. part.0 ≡ bytes_used piece.now) }
    ensures complete { IfOk result (λ part. part.1 ≡ has_line_feed piece.now) }
    ensures taken { (setting : T.Setting) (before : List (List ℕ))
        → T.holds setting before taker.old
        → TakesPart (T.rule setting) (T.holds setting) result before cutter.old piece.now
        cutter.new taker.new }
{
    let (used, complete) = cutter.take(piece);
    take_cut(cutter, complete, taker)?;
    Ok((used, complete))
}

/// A reader of a text, which holds one line of it beside what its taker holds.
#[derive(Drop)]
pub struct TextReader<T: LineTaker> {
    cutter: LineCutter,
    taker: T,
    lines: u64,
    failure: Option<TextFault>,
}

impl<T: LineTaker> TextReader<T> {
    ghost use Rattle.dimacs_lines.specs.Reader.{StandsFor, FeedsPart, Feeds, HasFailed, Finishes};

    /// A reader of the empty text.
    pub fn new(taker: T) -> Self
        ensures text { (setting : T.Setting) → T.holds setting [] taker
            → StandsFor (T.rule setting) (T.holds setting) result [] }
        ensures undecided { (setting : T.Setting) → decided (T.rule setting) [] ≡ None }
    {
        TextReader {
            cutter: LineCutter::new(),
            taker,
            lines: 0,
            failure: None,
        }
    }

    /// Takes the next piece of the text, and answers the fault that is decided by now.
    pub fn feed(&mut self, piece: &[u8]) -> Result<(), TextFault>
        ensures text { (setting : T.Setting) (text : List ℕ)
            → StandsFor (T.rule setting) (T.holds setting) self.old text
            → Feeds (T.rule setting) (T.holds setting) result self.new (text ++ piece.now) }
        ensures memory { (setting : T.Setting) (text : List ℕ)
            → StandsFor (T.rule setting) (T.holds setting) self.old text
            → result ≡ Err TextFault.Memory → EndsWell (T.rule setting) text piece.now }
        // Every later call answers the same.
        ensures err { IfErr result (HasFailed self.new) }
        ensures failed { (e : TextFault) → HasFailed self.old e → result ≡ Err e }
    {
        if let Some(failure) = self.failure {
            return Err(failure);
        }
        let mut rest = piece;
        while !rest.is_empty() {
            let used = self.feed_part(rest)?;
            rest = &rest[used..];
        }
        Ok(())
    }

    /// Takes the piece through its first LF, and answers how many bytes. No fault is decided yet.
    fn feed_part(&mut self, piece: &[u8]) -> Result<usize, TextFault>
        requires piece { 0 < length piece.now }
        requires working { self.old.failure ≡ None }
        ensures used { IfOk result (λ used. (0 < used) × (used ≤ length piece.now)) }
        ensures working { IfOk result (λ _. self.new.failure ≡ None) }
        ensures err { IfErr result (HasFailed self.new) }
        ensures text { (setting : T.Setting) (text : List ℕ)
            → StandsFor (T.rule setting) (T.holds setting) self.old text
            → FeedsPart (T.rule setting) (T.holds setting) result piece.now self.new text }
    {
        let line = self.lines.saturating_add(1);
        match take_part(&mut self.cutter, &mut self.taker, piece) {
            Ok((used, complete)) => {
                if complete {
                    self.lines = line;
                }
                Ok(used)
            }
            Err(error) => {
                let failure = error.at_line(line);
                self.failure = Some(failure);
                Err(failure)
            }
        }
    }

    /// Ends the text, and answers its taker and the number of its lines.
    pub fn finish(self) -> Result<(T, u64), TextFault>
        ensures text { (setting : T.Setting) (text : List ℕ)
            → StandsFor (T.rule setting) (T.holds setting) self text
            → Finishes (T.rule setting) (T.holds setting) result text }
        ensures failed { (e : TextFault) → HasFailed self e → result ≡ Err e }
    {
        let TextReader {
            cutter,
            mut taker,
            lines,
            failure,
        } = self;
        if let Some(failure) = failure {
            return Err(failure);
        }
        if !cutter.begun() {
            return Ok((taker, lines));
        }
        let line = lines.saturating_add(1);
        match take_cut(&cutter, true, &mut taker) {
            Ok(()) => Ok((taker, line)),
            Err(error) => Err(error.at_line(line)),
        }
    }
}

/// A law, with nothing to run, for any rule and any end of the lines that never answer that a line is too long: a text
/// decides a fault exactly if every text that continues it is read as that fault. The empty text decides none.
pub fn decided_for_any_rule<A>()
    ensures nothing { (rule : Rule) → decided rule [] ≡ None }
    ensures always { (rule : Rule) (ends : List Line → Result A TextFault)
        → (text more : List ℕ) (fault : TextFault)
        → decided rule text ≡ Some fault → read_by rule ends (text ++ more) ≡ Err fault }
    ensures only { (rule : Rule) (ends : List Line → Result A TextFault)
        → ((before : List Line) (line : Line) → rule before line ≢ Some (number_of faults.TooLong))
        → ((lines : List Line) (at : ℕ) → ends lines ≢ Err (TextFault.Fault (number_of faults.TooLong) at))
        → (text : List ℕ) (fault : TextFault)
        → ((more : List ℕ) → IsBytes more → read_by rule ends (text ++ more) ≡ Err fault)
        → decided rule text ≡ Some fault }
{}
