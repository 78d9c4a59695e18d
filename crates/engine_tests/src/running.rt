//! Runs an engine on texts that come and go through devices of the tests.

use crate::problems::{PIECES, problem_of};
use checker::check;
use dimacs_io::{Pad, Script};
use engines::{run_session, solve};
use runs::End;
use std::alloc::Global;
use std::process::Abort;

/// The three engines, each with what it is asked for.
#[derive(Clone, Copy)]
pub(crate) enum Engine {
    Solve { proof: bool },
    Session { extra: u32 },
    Check,
}

/// How many bytes a device passes in one call at most, and from which call on each fails, counted from 1 (`None`:
/// never).
#[derive(Clone, Copy)]
pub(crate) struct Devices {
    pub most: usize,
    pub problem_fails: Option<u64>,
    pub other_fails: Option<u64>,
    pub out_fails: Option<u64>,
}

/// Devices that pass a byte a call and never fail.
pub(crate) const BYTES: Devices = Devices {
    most: 1,
    problem_fails: None,
    other_fails: None,
    out_fails: None,
};

/// A session with the usual room.
pub(crate) const SESSION: Engine = Engine::Session { extra: 1000 };

/// Runs an engine, and says how that ends and what is written. The other text is the answer of `check` or the commands
/// of a session.
pub(crate) fn run(
    alloc: Global,
    engine: Engine,
    problem: &[u8],
    other: &[u8],
    devices: Devices,
) -> (End, Pad) {
    let most = devices.most.max(1);
    let mut problem = Script::new(problem, most, devices.problem_fails);
    let mut other = Script::new(other, most, devices.other_fails);
    let mut out = Pad::new(most, devices.out_fails);
    let end = match engine {
        Engine::Solve { proof } => solve(alloc, &mut problem, &mut out, proof),
        Engine::Session { extra } => {
            run_session(alloc, &mut problem, &mut other, &mut out, extra)
        }
        Engine::Check => check(alloc, &mut problem, &mut other, &mut out),
    };
    (end, out)
}

/// Solves a text in pieces of at most `most` bytes.
pub(crate) fn solved(alloc: Global, problem: &[u8], proof: bool, most: usize) -> (End, Pad) {
    run(
        alloc,
        Engine::Solve { proof },
        problem,
        b"",
        Devices { most, ..BYTES },
    )
}

/// Checks texts in pieces of at most `most` bytes.
pub(crate) fn checked(alloc: Global, problem: &[u8], answer: &[u8], most: usize) -> (End, Pad) {
    run(
        alloc,
        Engine::Check,
        problem,
        answer,
        Devices { most, ..BYTES },
    )
}

/// Runs a session in pieces of at most `most` bytes.
pub(crate) fn session(
    alloc: Global,
    problem: &[u8],
    extra: u32,
    commands: &[u8],
    most: usize,
) -> (End, Pad) {
    run(
        alloc,
        Engine::Session { extra },
        problem,
        commands,
        Devices { most, ..BYTES },
    )
}

/// The cell before the first `|` of a row, and the rest.
pub(crate) fn cut<'a>(rt: &impl Abort, row: &'a str) -> (&'a str, &'a str) {
    row.split_once('|').expect(rt, "a row has one cell more")
}

/// The text of a cell, where a `/` stands for an LF.
pub(crate) fn text_of(rt: &impl Abort, alloc: Global, cell: &str) -> String {
    let text = cell.replace(alloc, '/', "\n");
    text.expect(rt, "there is memory for a text")
}

/// An engine ended so.
pub(crate) fn expect_end(rt: &impl Abort, ended: End, end: End, row: &str) {
    assert_eq!(rt; ended, end, "{row}");
}

/// An engine ended so, and wrote this.
pub(crate) fn expect(rt: &impl Abort, ran: (End, Pad), end: End, written: &[u8], row: &str) {
    expect_end(rt, ran.0, end, row);
    assert_eq!(rt; ran.1.held(), written, "{row}");
}

/// An engine ended so, and wrote this or a beginning of it.
pub(crate) fn expect_beginning(rt: &impl Abort, ran: (End, Pad), end: End, whole: &[u8]) {
    expect_end(rt, ran.0, end, "a beginning");
    assert!(rt; whole.starts_with(ran.1.held()));
}

/// An engine ended so, and wrote what starts so.
pub(crate) fn expect_start(rt: &impl Abort, ran: (End, Pad), end: End, start: &[u8]) {
    expect_end(rt, ran.0, end, "a start");
    assert!(rt; ran.1.held().starts_with(start));
}

/// An engine ended so, and wrote one of these texts.
pub(crate) fn expect_one_of(rt: &impl Abort, ran: (End, Pad), end: End, texts: &[&[u8]]) {
    expect_end(rt, ran.0, end, "one of some texts");
    let written = ran.1.held();
    let mut lawful = false;
    for text in texts {
        if written == *text {
            lawful = true;
        }
    }
    assert!(rt; lawful);
}

/// A problem, and the room for more arcs that a session on it has.
#[derive(Clone, Copy)]
pub(crate) struct Opening<'a> {
    pub problem: &'a [u8],
    pub extra: u32,
}

/// A session answers so in any pieces.
pub(crate) fn expect_replies(
    rt: &impl Abort,
    alloc: Global,
    opening: Opening,
    commands: &[u8],
    replies: &[u8],
    row: &str,
) {
    for most in PIECES {
        let ran = session(alloc, opening.problem, opening.extra, commands, most);
        expect(rt, ran, End::Ended, replies, row);
    }
}

/// Two cells, one after the other.
fn joined(rt: &impl Abort, alloc: Global, first: &str, second: &str) -> String {
    let mut text = text_of(rt, alloc, first);
    let pushed = text.push_str(&text_of(rt, alloc, second));
    pushed.expect(rt, "there is memory for a text");
    text
}

/// Sessions answer so in any pieces, after the same commands and replies. A row is a problem's name, commands, and what
/// is written; a line that starts with `#` is a remark.
pub(crate) fn expect_dialogues(
    rt: &impl Abort,
    alloc: Global,
    extra: u32,
    before: &str,
    written_before: &str,
    rows: &str,
) {
    for row in rows.lines() {
        if !row.starts_with('#') {
            let (name, dialogue) = cut(rt, row);
            let (commands, replies) = cut(rt, dialogue);
            let commands = joined(rt, alloc, before, commands);
            let replies = joined(rt, alloc, written_before, replies);
            let opening = Opening {
                problem: problem_of(rt, name),
                extra,
            };
            expect_replies(
                rt,
                alloc,
                opening,
                commands.as_bytes(),
                replies.as_bytes(),
                row,
            );
        }
    }
}
