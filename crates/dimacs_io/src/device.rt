//! Devices: what gives bytes, what takes them, and how a failed call shows.
ghost use Rattle.std.specs.Prelude.{◌≡◌, ℕ, Bool, ◌-◌, ◌^◌, ◌<◌, List, Option, IfOk, is_err, length};
ghost use Rattle.std.specs.Io.{ReadsAtMost, WritesAtMost};
ghost use Rattle.std.specs.Io.KnownBytes.{Keeps, ReadConsumes, WriteAppends};
ghost use Rattle.dimacs_io.specs.Device.{CountsFailure, CountsFlush, EndsBy, Logs, LowersByCount, ReachesEnd};
ghost use Rattle.dimacs_io.specs.declared.device.LastCall.{LastCall};
ghost use Rattle.dimacs_io.specs.declared.device.LastCall.TheVariants as last;

use thiserror::Error;

/// A call on a device failed. It is answered exactly where the device's count of failed calls rose in that call.
#[derive(Clone, Copy, Debug, PartialEq, Eq, Error)]
#[error("a device failed")]
pub struct Broken;

/// What the last call on a sink did.
#[derive(Clone, Copy, Debug, PartialEq, Eq)]
pub enum LastCall {
    /// It took bytes.
    Write,
    /// It passed on what was taken, or there was no call yet.
    Flush,
    /// It failed.
    Failure,
}

/// Gives bytes up to an end.
///
/// A read of n bytes lowers `most_left` by n, a failed one keeps it: so reading ends, and what was given is the first
/// bytes of what it had, as many as `most_left` fell by. Each call asks that the count of failed calls can still rise.
pub trait Source {
    /// The bytes that it still gives, where it tells them.
    ghost remaining: { Self → Option (List ℕ) };

    /// The bytes that it has given: all that its reads have put into pieces, in order.
    ghost given: { Self → List ℕ };

    /// How many bytes it can still give at most.
    ghost most_left: { Self → ℕ };

    /// How many of its calls have failed.
    ghost failures: { Self → ℕ };

    /// Whether its last call failed.
    ghost last_failed: { Self → Bool };

    /// Whether its last call came to the end of its bytes: it gave none, although there was room.
    ghost ended: { Self → Bool };

    /// Puts bytes at the start of `piece`, and says how many: one at least, unless `piece` is empty or the end is
    /// reached. Fails with `Broken`, having given nothing.
    fn read(&mut self, piece: &mut [u8]) -> Result<usize, Broken>
        requires { failures self.old < 2 ^ 64 - 1 }
        ensures bound { ReadsAtMost result piece.new }
        ensures bytes { ReadConsumes (remaining self.old) (remaining self.new) result piece.new }
        ensures given { Logs result (given self.old) (given self.new) piece.new }
        ensures left { LowersByCount result (most_left self.old) (most_left self.new) }
        ensures failed { CountsFailure result (failures self.old) (failures self.new) }
        ensures last { last_failed self.new ≡ is_err result }
        ensures ended { ReachesEnd result piece.new (ended self.new) };
}

/// Takes bytes. A failed call, and any `flush`, leaves what it holds.
///
/// Each call asks that the count of failed calls can still rise.
pub trait Sink {
    /// The bytes that it holds, where it tells them.
    ghost contents: { Self → Option (List ℕ) };

    /// How many of its calls have failed.
    ghost failures: { Self → ℕ };

    /// How many of its flushes went well, as far as 64 bits count.
    ghost flushes: { Self → ℕ };

    /// What its last call did.
    ghost last_call: { Self → LastCall };

    /// Takes bytes from the start of `piece`, and says how many: one at least, unless `piece` is empty. Fails with
    /// `Broken`, having taken nothing.
    fn write(&mut self, piece: &[u8]) -> Result<usize, Broken>
        requires { failures self.old < 2 ^ 64 - 1 }
        ensures bound { WritesAtMost result piece.now }
        ensures progress { IfOk result (λ n. 0 < length piece.now → 0 < n) }
        ensures bytes { WriteAppends (contents self.old) (contents self.new) result piece.now }
        ensures failed { CountsFailure result (failures self.old) (failures self.new) }
        ensures flushed { flushes self.new ≡ flushes self.old }
        ensures last { EndsBy result last.Write (last_call self.new) };

    /// Passes on what was taken. That the device does so no clause can say; how often it was asked to `flushes` says, and
    /// that it was asked last `last_call`.
    fn flush(&mut self) -> Result<(), Broken>
        requires { failures self.old < 2 ^ 64 - 1 }
        ensures bytes { Keeps (contents self.old) (contents self.new) }
        ensures failed { CountsFailure result (failures self.old) (failures self.new) }
        ensures flushed { CountsFlush result (flushes self.old) (flushes self.new) }
        ensures last { EndsBy result last.Flush (last_call self.new) };
}
