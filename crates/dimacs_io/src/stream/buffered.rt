//! A device over a writer that waits behind a buffer, as the program's standard output does.
ghost use Rattle.std.specs.Prelude.{◌≡◌, [], IfOk};
ghost use Rattle.std.specs.Io.KnownBytes.{Keeps};
ghost use Rattle.dimacs_io.specs.declared.device.LastCall.TheVariants as last;

use super::WriteSink;
use crate::device::{Broken, LastCall, Sink};
use std::alloc::{AllocError, Global};
use std::io::{BufWriter, Write};
use std::marker::Model;
use std::vec::Vec;

/// A sink to a writer behind a buffer.
///
/// Where its last call was a flush, nothing waits in the buffer: no such flush can have been left out, nor can it hide that
/// the buffer was not emptied. It can't be dropped, since the buffer would then hand over again what was refused; `close`
/// gives that back.
pub struct BufferedSink<W: Write + Drop> {
    sink: WriteSink<BufWriter<W>>,
}

impl<W: Write + Drop> Model for BufferedSink<W> {
    ghost use Rattle.std.specs.Prelude.{◌≡◌, []};
    ghost use Rattle.std.specs.Io.Buffered.{writer_buffer, writer_contents};
    ghost use Rattle.dimacs_io.specs.Buffered.{Behind};
    ghost use Rattle.dimacs_io.specs.declared.device.LastCall.TheVariants as last;

    ghost Value = { Behind };

    ghost view = { λ s. record { contents = writer_contents W.contents s.sink.inner; waiting = writer_buffer s.sink.inner; failures = s.sink.failures; flushes = s.sink.flushes; last_call = s.sink.last_call } };

    ghost invariant = { λ s. s.sink.last_call ≡ last.Flush → writer_buffer s.sink.inner ≡ [] };
}

impl<W: Write + Drop> BufferedSink<W> {
    /// A sink to the writer, with no call yet; or none, if memory for the buffer is refused.
    pub fn new(alloc: Global, inner: W) -> Result<BufferedSink<W>, AllocError>
        ensures bytes { IfOk result (λ sink. Keeps (W.contents inner) sink.contents) }
        ensures waiting { IfOk result (λ sink. sink.waiting ≡ []) }
        ensures failures { IfOk result (λ sink. sink.failures ≡ 0) }
        ensures flushes { IfOk result (λ sink. sink.flushes ≡ 0) }
        ensures last { IfOk result (λ sink. sink.last_call ≡ last.Flush) }
    {
        match BufWriter::new(alloc, inner) {
            Ok(buffer) => Ok(BufferedSink {
                sink: WriteSink {
                    inner: buffer,
                    failures: 0,
                    flushes: 0,
                    last_call: LastCall::Flush,
                },
            }),
            Err(_) => Err(AllocError),
        }
    }

    /// Ends the calls on the writer, and answers what was not handed over: what the writer refused, or what no flush passed
    /// on. After a flush that is nothing.
    pub fn close(self) -> Vec<u8>
        ensures waiting { result.items ≡ self.waiting }
        ensures none { self.last_call ≡ last.Flush → result.items ≡ [] }
    {
        let BufferedSink { sink } = self;
        let (_, waiting) = sink.inner.into_parts();
        waiting
    }
}

impl<W: Write + Drop> Sink for BufferedSink<W> {
    ghost contents = { λ s. s.contents };

    ghost failures = { λ s. s.failures };

    ghost flushes = { λ s. s.flushes };

    ghost last_call = { λ s. s.last_call };

    fn write(&mut self, piece: &[u8]) -> Result<usize, Broken> {
        self.sink.write(piece)
    }

    fn flush(&mut self) -> Result<(), Broken> {
        let answer = self.sink.inner.flush();
        self.sink.told_of_flush(answer)
    }
}
