//! Each growth of an edit in a session refused in turn.

use crate::problems::DIAMOND;
use dimacs_io::{Pad, Script};
use engines::serve_session;
use refusing::Refusing;
use runs::{End, Text, read_problem};
use session::Session;
use std::alloc::Allocator;

/// More growths than any commands below take.
const MOST: u64 = 99;

/// A session in which the growths of an edit or of a group are refused: the commands up to the moment before; these and
/// the edit; and these and what goes on to the future, which is still there. Then the replies where the edit is
/// refused.
#[derive(Clone, Copy)]
struct Case {
    before: &'static [u8],
    edited: &'static [u8],
    commands: &'static [u8],
    replies: &'static [u8],
}

const CASES: [Case; 4] = [
    Case {
        before: b"cap 5 3\nundo\n",
        edited: b"cap 5 3\nundo\ncap 1 1\n",
        commands: b"cap 5 3\nundo\ncap 1 1\nredo\nshow\n",
        replies: b"s 14\ns 15\ns 14\nr 30\ns 15\ns 15\nf 1 2 2\nf 1 3 2\nf 2 3 1\nf 2 4 1\nf 3 4 3\n",
    },
    Case {
        before: b"cap 5 3\nundo\n",
        edited: b"cap 5 3\nundo\ngroup\ncap 1 1\ncap 2 3\nend\n",
        commands: b"cap 5 3\nundo\ngroup\ncap 1 1\ncap 2 3\nend\nredo\nshow\n",
        replies: b"s 14\ns 15\ns 14\nr 30\ns 15\ns 15\nf 1 2 2\nf 1 3 2\nf 2 3 1\nf 2 4 1\nf 3 4 3\n",
    },
    // With marks in place of undo and redo.
    Case {
        before: b"cap 5 3\nmark m\nundo\n",
        edited: b"cap 5 3\nmark m\nundo\ncap 1 1\n",
        commands: b"cap 5 3\nmark m\nundo\ncap 1 1\nback m\nshow\n",
        replies: b"s 14\ns 15\ns 15\ns 14\nr 30\ns 15\ns 15\nf 1 2 2\nf 1 3 2\nf 2 3 1\nf 2 4 1\nf 3 4 3\n",
    },
    Case {
        before: b"mark k\ncap 5 3\nmark m\nback k\n",
        edited: b"mark k\ncap 5 3\nmark m\nback k\ngroup\ncap 1 1\ncap 2 3\nend\n",
        commands: b"mark k\ncap 5 3\nmark m\nback k\ngroup\ncap 1 1\ncap 2 3\nend\nmark l\nback m\nback l\nredo\nshow\n",
        replies: b"s 14\ns 14\ns 15\ns 15\ns 14\nr 30\ns 14\ns 15\ns 14\ns 15\ns 15\nf 1 2 2\nf 1 3 2\nf 2 3 1\nf 2 4 1\nf 3 4 3\n",
    },
];

/// Runs a session on the diamond that serves so many growths of its steps, refuses so many after them, and serves the
/// rest. Gives how it ends, what is written, and how many growths it could still take before one is refused.
fn session(rt: &HostRuntime, commands: &[u8], served: u64, refused: u64) -> (End, Pad, u64) {
    let steps = Refusing::new(rt.alloc());
    steps.plan(served, refused);
    let mut out = Pad::new(4096, None);
    let end = match open(rt, &steps) {
        Ok(session) => serve_session(session, &mut Script::new(commands, 4096, None), &mut out),
        Err(end) => end,
    };
    (end, out, steps.served_left())
}

/// Opens a session on the diamond, whose steps take their memory from `steps`; or says how a run ends that cannot.
fn open<A: Allocator + Copy>(rt: &HostRuntime, steps: A) -> Result<Session<A>, End> {
    match read_problem(rt.alloc(), &mut Script::new(DIAMOND, 4096, None)) {
        Ok(problem) => {
            Session::open_in(rt.alloc(), steps, &problem, 1000).map_err(|_| End::Memory)
        }
        Err(error) => Err(error.end(Text::Problem)),
    }
}

/// How many growths the steps of these commands take.
fn growths(rt: &HostRuntime, commands: &[u8]) -> u64 {
    let (_, _, left) = session(rt, commands, MOST, 0);
    MOST.saturating_sub(left)
}

/// Whether the future and the marks are kept at each growth of the edit, and of the group, that is refused, with the next
/// ones so that there are so many.
fn keeps_future(rt: &HostRuntime, refused: u64) -> bool {
    for case in CASES {
        let first = growths(rt, case.before);
        let end_of_edit = growths(rt, case.edited);
        if first >= end_of_edit || end_of_edit >= MOST {
            return false;
        }
        for served in first..end_of_edit {
            let (end, out, _) = session(rt, case.commands, served, refused);
            if end != End::Ended || out.held() != case.replies {
                return false;
            }
        }
    }
    true
}

#[test]
fn a_refused_growth_keeps_the_future(rt: HostRuntime) {
    assert!(rt; keeps_future(&rt, 1));
}

#[test]
fn growths_refused_from_then_on_keep_the_future(rt: HostRuntime) {
    assert!(rt; keeps_future(&rt, u64::MAX));
}
