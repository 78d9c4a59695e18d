//! Devices and the lines written to them.

ghost use Rattle.std.specs.Prelude.{◌≡◌, ◌≤◌, IfOk};

use dimacs_io::{
    Broken, Logged, Pad, ReadSource, Script, Sink, Source, WriteSink, write_all, write_f, write_i,
    write_k, write_r, write_s, write_v,
};
use std::io;
use std::io::{ErrorKind, Read, Write};
use std::process::Abort;

/// Takes or gives at most so many bytes a call, counts its calls, and fails at one of them (at call 0: never).
#[derive(Drop)]
struct Device {
    most: usize,
    fails_at: u64,
    kind: ErrorKind,
    moves: u64,
    flushes: u64,
}

impl Device {
    fn new(most: usize, fails_at: u64) -> Device {
        Device {
            most,
            fails_at,
            kind: ErrorKind::Other,
            moves: 0,
            flushes: 0,
        }
    }

    fn answer(&self) -> io::Result<()> {
        if self.moves.saturating_add(self.flushes) == self.fails_at {
            return Err(io::Error::from(self.kind));
        }
        Ok(())
    }

    fn moved(&mut self, piece: usize) -> io::Result<usize>
        ensures { IfOk result (λ n. n ≤ piece) }
    {
        self.moves = self.moves.saturating_add(1);
        self.answer()?;
        Ok(self.most.min(piece))
    }
}

impl Read for Device {
    fn read(&mut self, buf: &mut [u8]) -> io::Result<usize> {
        self.moved(buf.len())
    }
}

impl Write for Device {
    fn write(&mut self, buf: &[u8]) -> io::Result<usize> {
        self.moved(buf.len())
    }

    fn flush(&mut self) -> io::Result<()> {
        self.flushes = self.flushes.saturating_add(1);
        self.answer()
    }
}

/// A call that gives no number ended so.
fn expect_done(rt: &impl Abort, answer: Result<(), Broken>, wanted: Result<(), Broken>)
    ensures { answer ≡ wanted }
{
    assert!(rt; answer == wanted);
}

/// A call moved so many bytes, or failed.
fn expect_moved(rt: &impl Abort, answer: Result<usize, Broken>, wanted: Result<usize, Broken>)
    ensures { answer ≡ wanted }
{
    assert!(rt; answer == wanted);
}

/// These bytes are held.
fn expect_held(rt: &impl Abort, held: &[u8], wanted: &[u8]) {
    assert_eq!(rt; held, wanted);
}

/// So many calls to move bytes were made, and so many flushes.
fn expect_calls(rt: &impl Abort, device: &Device, moves: u64, flushes: u64) {
    assert_eq!(rt; (device.moves, device.flushes), (moves, flushes));
}

/// A sink over both wrappers of a device: the one that logs what it takes, as in the program, and the one that counts.
fn sink_of<'a>(device: &'a mut Device) -> WriteSink<Logged<&'a mut Device>>
    ensures { ⟦<WriteSink<Logged<&'a mut Device>> as Sink>⟧.failures result ≡ 0 }
{
    WriteSink::new(Logged::new(device))
}

/// Writes the line `s VALUE` to a device.
fn write_value(device: &mut Device, value: i128) -> Result<(), Broken> {
    write_s(&mut sink_of(device), value)
}

/// Writes a piece to a device.
fn put(device: &mut Device, piece: &[u8]) -> Result<usize, Broken> {
    sink_of(device).write(piece)
}

/// Reads a piece from a device.
fn get(device: &mut Device, piece: &mut [u8]) -> Result<usize, Broken> {
    ReadSource::new(device).read(piece)
}

/// Flushes a device.
fn flush(device: &mut Device) -> Result<(), Broken> {
    sink_of(device).flush()
}

#[test]
fn each_line_is_written(rt: HostRuntime) {
    let mut pad = Pad::new(7, None);
    let value = -100_000_000_000_000_000_000_000;
    expect_done(&rt, write_s(&mut pad, value), Ok(()));
    expect_done(&rt, write_s(&mut pad, i128::MIN), Ok(()));
    expect_done(&rt, write_f(&mut pad, 1, 4_294_967_295, i64::MIN), Ok(()));
    expect_done(&rt, write_v(&mut pad, 10_000, -10_000_000_000_000), Ok(()));
    expect_done(&rt, write_i(&mut pad, 0), Ok(()));
    expect_done(&rt, write_k(&mut pad, 7), Ok(()));
    expect_done(&rt, write_r(&mut pad, 30), Ok(()));
    let want = "s -100000000000000000000000\ns -170141183460469231731687303715884105728\n\
        f 1 4294967295 -9223372036854775808\nv 10000 -10000000000000\ni 0\nk 7\nr 30\n";
    expect_held(&rt, pad.held(), want.as_bytes());
    expect_done(&rt, pad.flush(), Ok(()));
}

#[test]
fn a_failed_write_leaves_a_beginning(rt: HostRuntime) {
    let mut pad = Pad::new(3, Some(3));
    expect_done(&rt, write_s(&mut pad, 1_234_567), Err(Broken));
    expect_held(&rt, pad.held(), b"s 1234");
    expect_done(&rt, pad.flush(), Err(Broken));
}

#[test]
fn a_full_pad_fails(rt: HostRuntime) {
    let mut pad = Pad::new(4096, None);
    let most = [b'x'; 4090];
    expect_done(&rt, write_all(&mut pad, &most), Ok(()));
    expect_done(&rt, write_s(&mut pad, 1_234_567), Err(Broken));
    assert_eq!(rt; pad.held().len(), 4096);
}

// No clause ties the answer of a wrapper to that of the reader or the writer, nor counts their calls: the tests below
// do.

#[test]
fn each_line_is_one_write(rt: HostRuntime) {
    let mut device = Device::new(64, 0);
    for answer in [
        write_s(&mut sink_of(&mut device), i128::MIN),
        write_f(&mut sink_of(&mut device), 1, 2, i64::MIN),
        write_v(&mut sink_of(&mut device), 1, -1),
        write_i(&mut sink_of(&mut device), 1),
        write_k(&mut sink_of(&mut device), 1),
        write_r(&mut sink_of(&mut device), 1),
    ] {
        expect_done(&rt, answer, Ok(()));
    }
    expect_calls(&rt, &device, 6, 0);
    expect_done(&rt, flush(&mut device), Ok(()));
    expect_calls(&rt, &device, 6, 1);
}

/// A piece is read, written and written whole, each by one call.
fn expect_taken(rt: &impl Abort, device: &mut Device, piece: &mut [u8]) {
    let length = piece.len();
    expect_moved(rt, get(device, piece), Ok(length));
    expect_moved(rt, put(device, piece), Ok(length));
    let answer = write_all(&mut sink_of(device), piece);
    expect_done(rt, answer, Ok(()));
}

#[test]
fn no_failure_is_made_up(rt: HostRuntime) {
    let mut device = Device::new(5_000, 0);
    let mut piece = [b'x'; 5_000];
    for length in 1..=5_000usize {
        expect_taken(&rt, &mut device, &mut piece[..length]);
    }
    expect_calls(&rt, &device, 15_000, 0);
}

// `s 12345678` with its LF is written by six calls, and each is the one that fails in turn.
#[test]
fn the_first_failed_call_ends_a_line(rt: HostRuntime) {
    for fails_at in 1..=6u64 {
        let mut device = Device::new(2, fails_at);
        expect_done(&rt, write_value(&mut device, 12_345_678), Err(Broken));
        expect_calls(&rt, &device, fails_at, 0);
    }
    let mut device = Device::new(2, 7);
    expect_done(&rt, write_value(&mut device, 12_345_678), Ok(()));
    expect_done(&rt, flush(&mut device), Err(Broken));
    expect_calls(&rt, &device, 6, 1);
}

#[test]
fn a_writer_that_takes_nothing_is_broken(rt: HostRuntime) {
    let mut device = Device::new(0, 0);
    expect_moved(&rt, put(&mut device, b""), Ok(0));
    expect_moved(&rt, put(&mut device, b"s"), Err(Broken));
    expect_done(&rt, write_value(&mut device, 1), Err(Broken));
    expect_calls(&rt, &device, 3, 0);
}

/// A device whose first call fails so.
fn failing(kind: ErrorKind) -> Device {
    let mut device = Device::new(2, 1);
    device.kind = kind;
    device
}

/// The first call of each sort is told as failed, and not made again.
fn expect_broken(rt: &impl Abort, kind: ErrorKind) {
    let mut reader = failing(kind);
    expect_moved(rt, get(&mut reader, &mut [0u8; 2]), Err(Broken));
    expect_calls(rt, &reader, 1, 0);
    let mut writer = failing(kind);
    expect_moved(rt, put(&mut writer, b"s 1"), Err(Broken));
    expect_calls(rt, &writer, 1, 0);
    let mut flushed = failing(kind);
    expect_done(rt, flush(&mut flushed), Err(Broken));
    expect_calls(rt, &flushed, 0, 1);
}

// An interruption too is a failed call, told at once.
#[test]
fn no_call_is_made_again(rt: HostRuntime) {
    for kind in [
        ErrorKind::Interrupted,
        ErrorKind::WouldBlock,
        ErrorKind::Other,
    ] {
        expect_broken(&rt, kind);
    }
}

#[test]
fn streams_carry_bytes(rt: HostRuntime) {
    let mut sink = WriteSink::new(Vec::new(rt.alloc()));
    expect_done(&rt, write_s(&mut sink, 12), Ok(()));
    expect_done(&rt, sink.flush(), Ok(()));
    let mut source = ReadSource::new(b"p min".as_slice());
    let mut piece = [0u8; 3];
    expect_moved(&rt, source.read(&mut piece), Ok(3));
    expect_held(&rt, &piece, b"p m");
    expect_moved(&rt, source.read(&mut piece), Ok(2));
    expect_held(&rt, &piece, b"inm");
    expect_moved(&rt, source.read(&mut piece), Ok(0));
}

#[test]
fn a_script_is_slow_and_fails(rt: HostRuntime) {
    let mut script = Script::new(b"abc", 1, Some(3));
    let mut piece = [0u8; 8];
    expect_moved(&rt, script.read(&mut piece), Ok(1));
    expect_moved(&rt, script.read(&mut piece), Ok(1));
    expect_moved(&rt, script.read(&mut piece), Err(Broken));
}
