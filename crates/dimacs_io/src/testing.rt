//! Devices in memory, for tests: by choice they are slow, and fail from some call on.
ghost use Rattle.std.specs.Prelude.{◌≡◌, ◌-◌, ◌^◌, ◌≤◌, ◌<◌, ◌↔◌, length, [], Some, false, is_err, IsTrue, IsErr, IfOk};
ghost use Rattle.std.specs.Io.{ReadsAtMost, WritesAtMost};
ghost use Rattle.std.specs.Io.KnownBytes.{Keeps, ReadConsumes, WriteAppends};
ghost use Rattle.dimacs_io.specs.Device.{CountsFailure, CountsFlush, EndsBy, Logs, LowersByCount, ReachesEnd};
ghost use Rattle.dimacs_io.specs.declared.device.LastCall.TheVariants as last;
ghost use Rattle.dimacs_io.specs.Testing.{Refuses, given_for, one_less, taken_of};

use crate::device::{Broken, LastCall, Sink, Source};
use crate::log::{Log, Piece};
use std::marker::Model;

/// How many more calls go well, where there is an end to that.
#[derive(Clone, Copy)]
struct Patience {
    good_calls: Option<u64>,
}

impl Patience {
    /// Fails from call number `fails` on, counted from 1.
    fn new(fails: Option<u64>) -> Patience
        ensures { result.good_calls ≡ one_less fails }
    {
        Patience {
            good_calls: fails.map(|n| n.saturating_sub(1)),
        }
    }

    /// Counts one call, and says whether it fails.
    fn is_over(&mut self) -> bool
        ensures over { IsTrue result ↔ (self.old.good_calls ≡ Some 0) }
        ensures counts { self.new.good_calls ≡ one_less self.old.good_calls }
    {
        match self.good_calls {
            None => false,
            Some(0) => true,
            Some(n) => {
                self.good_calls = Some(n - 1);
                false
            }
        }
    }
}

/// A source over a slice, which gives at most `most` bytes a call.
#[derive(Drop)]
pub struct Script<'a> {
    rest: &'a [u8],
    given: Log,
    most: usize,
    patience: Patience,
    failures: u64,
    last_failed: bool,
    ended: bool,
}

impl<'a> Model for Script<'a> {
    ghost use Rattle.std.specs.Prelude.{◌<◌};
    ghost use Rattle.dimacs_io.specs.Testing.{Scripted};

    ghost Value = { Scripted };

    ghost view = { λ s. record { rest = s.rest.now; given = s.given.bytes; most = s.most; good_calls = s.patience.good_calls; failures = s.failures; last_failed = s.last_failed; ended = s.ended } };

    ghost invariant = { λ s. 0 < s.most };
}

impl<'a> Script<'a> {
    /// A script that gives `bytes`, at most `most` of them a call, and fails from call number `fails` on, counted from
    /// 1 (`None`: never).
    pub fn new(bytes: &'a [u8], most: usize, fails: Option<u64>) -> Script<'a>
        requires { 0 < most }
        ensures bytes { ⟦<Script<'a> as Source>⟧.remaining result ≡ Some bytes.now }
        ensures given { ⟦<Script<'a> as Source>⟧.given result ≡ [] }
        ensures left { ⟦<Script<'a> as Source>⟧.most_left result ≡ length bytes.now }
        ensures failures { ⟦<Script<'a> as Source>⟧.failures result ≡ 0 }
        ensures last { ⟦<Script<'a> as Source>⟧.last_failed result ≡ false }
        ensures ended { ⟦<Script<'a> as Source>⟧.ended result ≡ false }
        ensures most { result.most ≡ most }
        ensures good_calls { result.good_calls ≡ one_less fails }
    {
        Script {
            rest: bytes,
            given: Log::new(),
            most,
            patience: Patience::new(fails),
            failures: 0,
            last_failed: false,
            ended: false,
        }
    }
}

impl Source for Script<'_> {
    ghost remaining = { λ s. Some s.rest };

    ghost given = { λ s. s.given };

    ghost most_left = { λ s. length s.rest };

    ghost failures = { λ s. s.failures };

    ghost last_failed = { λ s. s.last_failed };

    ghost ended = { λ s. s.ended };

    /// Gives as much as the piece, the script's choice and what is left allow; fails exactly where the good calls are
    /// used up.
    fn read(&mut self, piece: &mut [u8]) -> Result<usize, Broken>
        requires { self.old.failures < 2 ^ 64 - 1 }
        ensures bound { ReadsAtMost result piece.new }
        ensures bytes { ReadConsumes (Some self.old.rest) (Some self.new.rest) result piece.new }
        ensures given { Logs result self.old.given self.new.given piece.new }
        ensures left { LowersByCount result (length self.old.rest) (length self.new.rest) }
        ensures failed { CountsFailure result self.old.failures self.new.failures }
        ensures last { self.new.last_failed ≡ is_err result }
        ensures ended { ReachesEnd result piece.new self.new.ended }
        ensures fails { IsErr result ↔ (self.old.good_calls ≡ Some 0) }
        ensures count { IfOk result (λ n. n ≡ given_for self.old (length piece.old)) }
        ensures good_calls { self.new.good_calls ≡ one_less self.old.good_calls }
        ensures most { self.new.most ≡ self.old.most }
    {
        self.last_failed = self.patience.is_over();
        self.ended = false;
        if self.last_failed {
            self.failures += 1;
            return Err(Broken);
        }
        let n = self.most.min(piece.len()).min(self.rest.len());
        self.ended = n == 0 && !piece.is_empty();
        let all = self.rest;
        piece[..n].copy_from_slice(&all[..n]);
        self.rest = &all[n..];
        self.given = self.given.then(&Piece { bytes: &piece[..n] });
        Ok(n)
    }
}

/// How many bytes a `Pad` holds at most.
const PAD_ROOM: usize = 4096;

/// A sink over an array of 4,096 bytes, which takes at most `most` bytes a call, and fails where it is full.
#[derive(Drop)]
pub struct Pad {
    bytes: [u8; PAD_ROOM],
    len: usize,
    most: usize,
    patience: Patience,
    failures: u64,
    flushes: u64,
    last_call: LastCall,
}

impl Model for Pad {
    ghost use Rattle.std.specs.Prelude.{◌<◌, ◌≤◌, take};
    ghost use Rattle.dimacs_io.specs.Testing.{Padded};

    ghost Value = { Padded };

    ghost view = { λ p. record { bytes = take p.len p.bytes; most = p.most; good_calls = p.patience.good_calls; failures = p.failures; flushes = p.flushes; last_call = p.last_call } };

    ghost invariant = { λ p. (p.len ≤ 4096) × (0 < p.most) };
}

impl Pad {
    /// An empty pad that takes at most `most` bytes a call, and fails from call number `fails` on, counted from 1
    /// (`None`: never). A `flush` is a call too.
    pub fn new(most: usize, fails: Option<u64>) -> Pad
        requires { 0 < most }
        ensures bytes { ⟦<Pad as Sink>⟧.contents result ≡ Some [] }
        ensures failures { ⟦<Pad as Sink>⟧.failures result ≡ 0 }
        ensures flushes { ⟦<Pad as Sink>⟧.flushes result ≡ 0 }
        ensures last { ⟦<Pad as Sink>⟧.last_call result ≡ last.Flush }
        ensures most { result.most ≡ most }
        ensures good_calls { result.good_calls ≡ one_less fails }
    {
        Pad {
            bytes: [0; PAD_ROOM],
            len: 0,
            most,
            patience: Patience::new(fails),
            failures: 0,
            flushes: 0,
            last_call: LastCall::Flush,
        }
    }

    /// What was written so far.
    pub fn held(&self) -> &[u8]
        ensures { ⟦<Pad as Sink>⟧.contents self.now ≡ Some result.now }
    {
        &self.bytes[..self.len]
    }
}

impl Sink for Pad {
    ghost contents = { λ p. Some p.bytes };

    ghost failures = { λ p. p.failures };

    ghost flushes = { λ p. p.flushes };

    ghost last_call = { λ p. p.last_call };

    /// Takes as much as the piece, the pad's choice and its room allow; fails exactly where the good calls are used up
    /// or there is no room for a piece that is not empty.
    fn write(&mut self, piece: &[u8]) -> Result<usize, Broken>
        requires { self.old.failures < 2 ^ 64 - 1 }
        ensures bound { WritesAtMost result piece.now }
        ensures progress { IfOk result (λ n. 0 < length piece.now → 0 < n) }
        ensures bytes { WriteAppends (Some self.old.bytes) (Some self.new.bytes) result piece.now }
        ensures failed { CountsFailure result self.old.failures self.new.failures }
        ensures flushed { self.new.flushes ≡ self.old.flushes }
        ensures last { EndsBy result last.Write self.new.last_call }
        ensures fails { IsErr result ↔ Refuses self.old (length piece.now) }
        ensures count { IfOk result (λ n. n ≡ taken_of self.old (length piece.now)) }
        ensures good_calls { self.new.good_calls ≡ one_less self.old.good_calls }
        ensures most { self.new.most ≡ self.old.most }
    {
        let n = self.most.min(piece.len()).min(PAD_ROOM - self.len);
        if self.patience.is_over() || n == 0 && !piece.is_empty() {
            self.failures += 1;
            self.last_call = LastCall::Failure;
            return Err(Broken);
        }
        let end = self.len + n;
        self.bytes[self.len..end].copy_from_slice(&piece[..n]);
        self.len = end;
        self.last_call = LastCall::Write;
        Ok(n)
    }

    /// Fails exactly where the good calls are used up.
    fn flush(&mut self) -> Result<(), Broken>
        requires { self.old.failures < 2 ^ 64 - 1 }
        ensures bytes { Keeps (Some self.old.bytes) (Some self.new.bytes) }
        ensures failed { CountsFailure result self.old.failures self.new.failures }
        ensures flushed { CountsFlush result self.old.flushes self.new.flushes }
        ensures last { EndsBy result last.Flush self.new.last_call }
        ensures fails { IsErr result ↔ (self.old.good_calls ≡ Some 0) }
        ensures good_calls { self.new.good_calls ≡ one_less self.old.good_calls }
        ensures most { self.new.most ≡ self.old.most }
    {
        if self.patience.is_over() {
            self.failures += 1;
            self.last_call = LastCall::Failure;
            return Err(Broken);
        }
        self.flushes = self.flushes.saturating_add(1);
        self.last_call = LastCall::Flush;
        Ok(())
    }
}
