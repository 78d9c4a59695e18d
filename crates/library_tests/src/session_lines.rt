//! What a session answers to the lines of a command text, single ones and those of groups.

use crate::sessions::{DIAMOND, opened};
use dimacs_text::Group;
use flow_solver::Verdict;
use session::{Reply, Session, StepRefusal};
use std::process::Abort;

/// What is answered to a line.
#[derive(Clone, Copy, Debug, PartialEq)]
enum Told {
    /// The line makes no turn whole.
    Nothing,
    Best(i128),
    Short(i64),
    Solution { proof: bool },
    Refused(u8),
}

/// Lines for the diamond, in turn, and the answers.
static LINES: [(&str, Told); 33] = [
    ("show", Told::Solution { proof: false }),
    ("proof", Told::Solution { proof: true }),
    ("undo", Told::Refused(25)),
    ("redo", Told::Refused(26)),
    (" \t", Told::Nothing),
    ("cap 5", Told::Refused(3)),
    ("cap 9 1", Told::Refused(20)),
    ("cap 5 3", Told::Best(15)),
    ("mark narrow", Told::Best(15)),
    ("undo", Told::Best(14)),
    ("back wide", Told::Refused(28)),
    ("back narrow", Told::Best(15)),
    ("undo", Told::Best(14)),
    ("end", Told::Refused(29)),
    // a group is one step, and drops the future with its mark
    ("group", Told::Nothing),
    ("cap 1 1", Told::Nothing),
    ("", Told::Nothing),
    ("cap 2 3", Told::Nothing),
    ("end", Told::Best(13)),
    ("back narrow", Told::Refused(28)),
    ("undo", Told::Best(14)),
    ("undo", Told::Refused(25)),
    ("redo", Told::Best(13)),
    // the first refused edit or line of a group decides, and nothing changes
    ("group", Told::Nothing),
    ("cap 9 1", Told::Nothing),
    ("undo", Told::Nothing),
    ("end", Told::Refused(20)),
    ("group", Told::Nothing),
    ("show", Told::Nothing),
    ("end", Told::Refused(29)),
    ("redo", Told::Refused(26)),
    ("group 1", Told::Refused(3)),
    ("cap 5 0", Told::Short(3)),
];

/// What a line is answered by.
fn answer_of(session: &Session, reply: Option<Result<Reply, StepRefusal>>) -> Told {
    match reply {
        None => Told::Nothing,
        Some(Ok(Reply::Verdict)) => match session.verdict() {
            Verdict::Best(worth) => Told::Best(worth),
            Verdict::Infeasible(shortage) => Told::Short(shortage),
        },
        Some(Ok(Reply::Solution { proof })) => Told::Solution { proof },
        Some(Err(refusal)) => Told::Refused(refusal.number()),
    }
}

/// The session takes a line, and answers so.
fn expect_told(
    rt: &impl Abort,
    session: &mut Session,
    group: &mut Option<Group>,
    line: Option<&[u8]>,
    expected: Told,
) {
    let reply = session.take_line(group, line);
    assert!(rt; answer_of(session, reply) == expected);
}

#[test]
fn lines_are_answered(rt: HostRuntime) {
    let mut session = opened(&rt, rt.alloc(), rt.alloc(), DIAMOND, 0);
    let mut group = None;
    for (line, expected) in &LINES {
        expect_told(
            &rt,
            &mut session,
            &mut group,
            Some(line.as_bytes()),
            *expected,
        );
    }
}

/// A line that is too long comes as none. It is refused, or refuses its group.
#[test]
fn long_lines_are_answered(rt: HostRuntime) {
    let mut session = opened(&rt, rt.alloc(), rt.alloc(), DIAMOND, 0);
    let mut group = None;
    expect_told(&rt, &mut session, &mut group, None, Told::Refused(1));
    expect_told(&rt, &mut session, &mut group, Some(b"group"), Told::Nothing);
    expect_told(&rt, &mut session, &mut group, None, Told::Nothing);
    expect_told(
        &rt,
        &mut session,
        &mut group,
        Some(b"end"),
        Told::Refused(1),
    );
}
