//! Devices over std's readers and writers: each failed call is counted, and none is made again.
ghost use Rattle.std.specs.Prelude.{◌≡◌, ◌⊎◌, ◌-◌, ◌^◌, ◌<◌, ◌≤◌, [], false, Ok, IsErr, IfOk, MatchResult, length, take};
ghost use Rattle.std.specs.Option.{option_map};
ghost use Rattle.dimacs_io.specs.Device.{CountsFailure, CountsFlush, EndsBy};
ghost use Rattle.dimacs_io.specs.declared.device.LastCall.TheVariants as last;

mod buffered;

use crate::device::{Broken, LastCall, Sink, Source};
use crate::log::{Log, Piece};
pub use buffered::BufferedSink;
use std::io;
use std::io::{ErrorKind, Read, Write};

/// How many bytes a `ReadSource` gives in all.
const MOST_BYTES: u64 = 1 << 63;

/// Tells what a call answered, and counts it where it failed.
fn counted<T>(failures: &mut u64, answer: io::Result<T>) -> Result<T, Broken>
    requires { failures.old < 2 ^ 64 - 1 }
    ensures told { MatchResult answer (λ x. result ≡ Ok x) (λ _. IsErr result) }
    ensures counts { CountsFailure answer failures.old failures.new }
{
    match answer {
        Ok(x) => Ok(x),
        Err(_) => {
            *failures += 1;
            Err(Broken)
        }
    }
}

/// What a call on a sink did: this if it went well, or else it failed.
fn last_of<T>(answer: &Result<T, Broken>, done: LastCall) -> LastCall
    ensures { EndsBy answer.now done result }
{
    match answer {
        Ok(_) => done,
        Err(_) => LastCall::Failure,
    }
}

/// Counts a flush that went well.
fn count_flush(flushes: &mut u64, answer: &Result<(), Broken>)
    ensures { CountsFlush answer.now flushes.old flushes.new }
{
    if answer.is_ok() {
        *flushes = flushes.saturating_add(1);
    }
}

/// What a write answered: one that takes nothing of a piece that is not empty has failed.
fn some_taken(piece: &[u8], answer: io::Result<usize>) -> io::Result<usize>
    ensures told { IfOk result (λ n. (answer ≡ Ok n) × (0 < length piece.now → 0 < n)) }
    ensures kept { IfOk answer (λ n. (0 < n) ⊎ (piece.now ≡ []) → result ≡ Ok n) }
{
    match answer {
        Ok(0) if !piece.is_empty() => Err(io::Error::from(ErrorKind::WriteZero)),
        answer => answer,
    }
}

/// A source over a reader. It tells the bytes that the reader tells, and is at its end once it has given 2^63 bytes, so
/// that reading always ends. Each error of the reader, an interrupted read too, is a failed call.
#[derive(Drop)]
pub struct ReadSource<R: Read> {
    inner: R,
    left: u64,
    given: Log,
    failures: u64,
    last_failed: bool,
    ended: bool,
}

impl<R: Read> ReadSource<R> {
    /// A source of the reader's bytes, with no failed call yet.
    pub fn new(inner: R) -> ReadSource<R>
        ensures bytes { ⟦<ReadSource<R> as Source>⟧.remaining result
            ≡ option_map (take (2 ^ 63)) (R.remaining inner) }
        ensures given { ⟦<ReadSource<R> as Source>⟧.given result ≡ [] }
        ensures left { ⟦<ReadSource<R> as Source>⟧.most_left result ≡ 2 ^ 63 }
        ensures failures { ⟦<ReadSource<R> as Source>⟧.failures result ≡ 0 }
        ensures last { ⟦<ReadSource<R> as Source>⟧.last_failed result ≡ false }
        ensures ended { ⟦<ReadSource<R> as Source>⟧.ended result ≡ false }
    {
        ReadSource {
            inner,
            left: MOST_BYTES,
            given: Log::new(),
            failures: 0,
            last_failed: false,
            ended: false,
        }
    }
}

impl<R: Read> Source for ReadSource<R> {
    ghost remaining = { λ s. option_map (take s.left) (R.remaining s.inner) };

    ghost given = { λ s. s.given.bytes };

    ghost most_left = { λ s. s.left };

    ghost failures = { λ s. s.failures };

    ghost last_failed = { λ s. s.last_failed };

    ghost ended = { λ s. s.ended };

    fn read(&mut self, piece: &mut [u8]) -> Result<usize, Broken> {
        let most = self.left.min(piece.len() as u64) as usize;
        let answer = self.inner.read(&mut piece[..most]);
        self.last_failed = answer.is_err();
        self.ended = false;
        let n = counted(&mut self.failures, answer)?;
        self.ended = n == 0 && !piece.is_empty();
        self.left -= n as u64;
        self.given = self.given.then(&Piece { bytes: &piece[..n] });
        Ok(n)
    }
}

/// A sink over a writer. It tells the bytes that the writer tells. Each error of the writer is a failed call, and so is
/// a write that takes nothing of a piece that is not empty.
#[derive(Drop)]
pub struct WriteSink<W: Write> {
    inner: W,
    failures: u64,
    flushes: u64,
    last_call: LastCall,
}

impl<W: Write> WriteSink<W> {
    /// A sink to the writer, with no call yet.
    pub fn new(inner: W) -> WriteSink<W>
        ensures bytes { ⟦<WriteSink<W> as Sink>⟧.contents result ≡ W.contents inner }
        ensures failures { ⟦<WriteSink<W> as Sink>⟧.failures result ≡ 0 }
        ensures flushes { ⟦<WriteSink<W> as Sink>⟧.flushes result ≡ 0 }
        ensures last { ⟦<WriteSink<W> as Sink>⟧.last_call result ≡ last.Flush }
    {
        WriteSink {
            inner,
            failures: 0,
            flushes: 0,
            last_call: LastCall::Flush,
        }
    }

    /// Tells what a flush of the writer answered, and counts it.
    fn told_of_flush(&mut self, answer: io::Result<()>) -> Result<(), Broken>
        requires { self.old.failures < 2 ^ 64 - 1 }
        ensures told { MatchResult answer (λ x. result ≡ Ok x) (λ _. IsErr result) }
        ensures inner { self.new.inner ≡ self.old.inner }
        ensures failed { CountsFailure result self.old.failures self.new.failures }
        ensures flushed { CountsFlush result self.old.flushes self.new.flushes }
        ensures last { EndsBy result last.Flush self.new.last_call }
    {
        let told = counted(&mut self.failures, answer);
        count_flush(&mut self.flushes, &told);
        self.last_call = last_of(&told, LastCall::Flush);
        told
    }
}

impl<W: Write> Sink for WriteSink<W> {
    ghost contents = { λ s. W.contents s.inner };

    ghost failures = { λ s. s.failures };

    ghost flushes = { λ s. s.flushes };

    ghost last_call = { λ s. s.last_call };

    fn write(&mut self, piece: &[u8]) -> Result<usize, Broken> {
        let answer = counted(
            &mut self.failures,
            some_taken(piece, self.inner.write(piece)),
        );
        self.last_call = last_of(&answer, LastCall::Write);
        answer
    }

    fn flush(&mut self) -> Result<(), Broken> {
        let answer = self.inner.flush();
        self.told_of_flush(answer)
    }
}
