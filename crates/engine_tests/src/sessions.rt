//! Sessions, from commands to replies.

use crate::problems::{DIAMOND, EQUAL_ARCS_SAME_BLOCK, PIECES};
use crate::running::{
    BYTES, Devices, Opening, SESSION, expect, expect_beginning, expect_dialogues, expect_one_of,
    expect_replies, run, session,
};
use runs::{End, Text};
use std::alloc::Global;
use std::process::Abort;
use std::test::Fail;

pub(crate) const DIAMOND_NARROWED: &[u8] = b"cap 5 3\nundo\nredo\nshow\n";

pub(crate) const DIAMOND_NARROWED_REPLIES: &[u8] =
    b"s 14\ns 15\ns 14\ns 15\ns 15\nf 1 2 2\nf 1 3 2\nf 2 3 1\nf 2 4 1\nf 3 4 3\n";

/// A problem, commands, and what is written.
const SESSIONS: &str = "\
DIAMOND|cap 5 3/undo/redo/show/|s 14/s 15/s 14/s 15/s 15/f 1 2 2/f 1 3 2/f 2 3 1/f 2 4 1/f 3 4 3/
DIAMOND|cap 5 3/proof/|s 14/s 15/s 15/f 1 2 2/f 1 3 2/f 2 3 1/f 2 4 1/f 3 4 3/v 1 -5/v 2 -3/v 3 -2/v 4 0/
DIAMOND|cap 1 1/show/undo/|s 14/i 1/i 1/k 1/s 14/
DIAMOND|cap 5|s 14/r 3/
DIAMOND|cap 5 3|s 14/s 15/
DIAMOND|/ \t\r/cap  5 3 \r//\tundo|s 14/s 15/s 14/
SINGLE_ARC|supply 1 4/supply 2 -4/undo/show/supply 3 1/redo/|s 12/i 1/s 16/i 1/i 1/k 1/k 2/r 21/s 16/
SINGLE_ARC|undo/cap 9 1/low 1 6/cap 1 1000000001/cost 1 1000000000001/fly/show/|s 12/r 25/r 20/r 22/r 5/r 5/r 2/s 12/f 1 2 3/
SINGLE_ARC|add 1 2 0 5 1/undo/cap 2 1/redo/undo/cost 1 3/redo/|s 12/s 3/s 12/r 20/s 3/s 12/s 9/r 26/
PARALLEL_ARCS|low 2 2/low 2 3/close 2/undo/|s 6/s 10/r 22/s 2/s 10/
SINGLE_ARC|add 1 1 0 3 -2/show/|s 12/s 6/s 6/f 1 2 3/f 1 1 3/
SINGLE_ARC|close 1/cap 1 3/close 2/|s 12/i 3/s 12/r 20/
SURPLUS|proof/supply 2 -1/|i 1/i 1/k 1/k 2/s 1/
MAX_DIAMOND|cost 1 2/close 5/show/undo/cap 4 3/add 1 4 2/|s 5/r 23/s 2/s 2/f 1 2 2/f 1 3 0/f 2 3 0/f 2 4 2/f 3 4 0/s 5/s 5/s 7/
MAX_WITHOUT_ARCS||s 0/
PAIRS|close 2/add 3 1 7/cap 1 1/undo/add 1 4 1/|s 3/s 9/r 27/r 23/s 3/s 2/
CLOSED_PAIR|close 1/cost 1 3/show/undo/undo/|s -5/i 1/i 1/i 1/k 1/i 1/s -5/
";

/// The same, where there is room for no arc beside the problem's own.
const WITHOUT_ROOM: &str = "\
SINGLE_ARC|add 1 2 0 5 1/add 1 3 0 5 1/cap 1 5/undo/undo/|s 12/r 24/r 21/s 12/s 12/r 25/
";

#[test]
fn sessions_answer_so_in_any_pieces(rt: HostRuntime) {
    expect_dialogues(&rt, rt.alloc(), 1000, "", "", SESSIONS);
    expect_dialogues(&rt, rt.alloc(), 0, "", "", WITHOUT_ROOM);
}

#[test]
fn undo_brings_back_the_very_flow(rt: HostRuntime) {
    // How the two arcs share three units is free, but not from one `show` to the next.
    let lawful = [
        b"s 12\ns 12\nf 1 2 0\nf 1 2 3\ns 12\ns 12\ns 12\nf 1 2 0\nf 1 2 3\n".as_slice(),
        b"s 12\ns 12\nf 1 2 1\nf 1 2 2\ns 12\ns 12\ns 12\nf 1 2 1\nf 1 2 2\n",
        b"s 12\ns 12\nf 1 2 2\nf 1 2 1\ns 12\ns 12\ns 12\nf 1 2 2\nf 1 2 1\n",
        b"s 12\ns 12\nf 1 2 3\nf 1 2 0\ns 12\ns 12\ns 12\nf 1 2 3\nf 1 2 0\n",
    ];
    let commands = b"show\ncost 1 9\nundo\nshow\n";
    for most in PIECES {
        let ran = session(rt.alloc(), EQUAL_ARCS_SAME_BLOCK, 1000, commands, most);
        expect_one_of(&rt, ran, End::Ended, lawful.as_slice());
    }
}

/// A session on the diamond answers so, where so many spaces stand before a command.
fn expect_long_command(
    rt: &impl Abort,
    alloc: Global,
    before: &[u8],
    spaces: usize,
    after: &[u8],
    replies: &[u8],
) -> Result<(), Fail> {
    let mut text = Vec::new(alloc);
    text.extend_from_slice(before)?;
    for _ in 0..spaces {
        text.push(b' ')?;
    }
    text.extend_from_slice(after)?;
    let opening = Opening {
        problem: DIAMOND,
        extra: 1000,
    };
    expect_replies(rt, alloc, opening, &text, replies, "a long command");
    Ok(())
}

#[test]
fn a_command_of_1025_bytes_is_refused(rt: HostRuntime) -> Result<(), Fail> {
    let alone = b"cap 5  3\nundo\n";
    let grouped = b"cap 5  3\nend\nundo\n";
    let (taken, refused) = (b"s 14\ns 15\ns 14\n", b"s 14\nr 1\nr 25\n");
    expect_long_command(&rt, rt.alloc(), b"", 1016, alone, taken)?;
    expect_long_command(&rt, rt.alloc(), b"", 1017, alone, refused)?;
    expect_long_command(&rt, rt.alloc(), b"group\n", 1016, grouped, taken)?;
    expect_long_command(&rt, rt.alloc(), b"group\n", 1017, grouped, refused)
}

#[test]
fn a_reply_comes_before_the_next_read(rt: HostRuntime) {
    // The first command is the first eight bytes. Five bytes and a flush come before its reply.
    let devices = Devices {
        other_fails: Some(9),
        out_fails: Some(7),
        ..BYTES
    };
    let ran = run(rt.alloc(), SESSION, DIAMOND, DIAMOND_NARROWED, devices);
    expect(&rt, ran, End::WriteFailed, b"s 14\n", "the diamond");
}

/// A problem, from which call on its reading fails, commands of which 100 bytes are read, how the session ends, and what is written.
const FAILED_READS: [(&[u8], Option<u64>, &[u8], End, &[u8]); 3] = [
    (
        DIAMOND,
        None,
        b"cap 5 3\nund",
        End::ReadFailed(Text::Commands),
        b"s 14\ns 15\n",
    ),
    (
        DIAMOND,
        Some(2),
        DIAMOND_NARROWED,
        End::ReadFailed(Text::Problem),
        b"",
    ),
    (
        b"x 1\n",
        Some(2),
        DIAMOND_NARROWED,
        End::Refused {
            input: Text::Problem,
            number: 2,
            line: 1,
        },
        b"",
    ),
];

#[test]
fn a_failed_read_ends_a_session(rt: HostRuntime) {
    for (problem, fails, commands, want, replies) in FAILED_READS {
        let devices = Devices {
            most: 100,
            problem_fails: fails,
            other_fails: Some(2),
            out_fails: None,
        };
        let ran = run(rt.alloc(), SESSION, problem, commands, devices);
        expect(&rt, ran, want, replies, "a failed read");
    }
}

#[test]
fn nothing_follows_a_failed_write_in_a_session(rt: HostRuntime) {
    // A call for each byte, and a flush after the opening line and after each of four replies.
    let calls = DIAMOND_NARROWED_REPLIES.len() as u64 + 5;
    for fails in 1..=calls + 1 {
        let devices = Devices {
            out_fails: Some(fails),
            ..BYTES
        };
        let ran = run(rt.alloc(), SESSION, DIAMOND, DIAMOND_NARROWED, devices);
        let end = if fails > calls {
            End::Ended
        } else {
            End::WriteFailed
        };
        expect_beginning(&rt, ran, end, DIAMOND_NARROWED_REPLIES);
    }
    // The first flush fails.
    let devices = Devices {
        most: 100,
        out_fails: Some(2),
        ..BYTES
    };
    let ran = run(rt.alloc(), SESSION, DIAMOND, DIAMOND_NARROWED, devices);
    expect(&rt, ran, End::WriteFailed, b"s 14\n", "the diamond");
}
