//! Groups of edits in a session, from commands to replies.

use crate::problems::DIAMOND;
use crate::running::{
    BYTES, Devices, Opening, SESSION, expect, expect_beginning, expect_dialogues, expect_replies,
    run,
};
use runs::{End, Text};
use std::alloc::Global;
use std::process::Abort;
use std::test::Fail;

/// The edits of a group that widen one way and narrow another.
pub(crate) const CAPACITIES: &[u8] = b"group\ncap 1 1\ncap 2 3\nend\nshow\n";

pub(crate) const CAPACITIES_REPLIES: &[u8] =
    b"s 14\ns 13\ns 13\nf 1 2 1\nf 1 3 3\nf 2 3 1\nf 2 4 0\nf 3 4 4\n";

/// A problem, commands with groups, and what is written.
const GROUPS: &str = "\
SINGLE_ARC|group/supply 1 4/supply 2 -4/end/undo/redo/undo/undo/|s 12/s 16/s 12/s 16/s 12/r 25/
DIAMOND|group/cap 1 1/cap 2 3/end/show/|s 14/s 13/s 13/f 1 2 1/f 1 3 3/f 2 3 1/f 2 4 0/f 3 4 4/
DIAMOND|group/cap 5 3/cap 9 1/fly/end/end/undo/group/undo/end/group/cap 5 3/|s 14/r 20/r 29/r 25/r 29/
# A group without edits is a step.
DIAMOND|group/end/undo/redo/undo/undo/|s 14/s 14/s 14/s 14/s 14/r 25/
# One arc edited twice in a group, and undone at once.
DIAMOND|group/cap 5 0/cap 5 3/end/show/undo/show/|s 14/s 15/s 15/f 1 2 2/f 1 3 2/f 2 3 1/f 2 4 1/f 3 4 3/s 14/s 14/f 1 2 2/f 1 3 2/f 2 3 2/f 2 4 0/f 3 4 4/
# An arc that a group adds and edits; undone, its number is free, and redone, it is there with its row and flow.
SINGLE_ARC|group/add 1 2 0 5 1/cap 2 2/cost 2 2/end/show/undo/cap 2 1/redo/show/|s 12/s 8/s 8/f 1 2 1/f 1 2 2/s 12/r 20/s 8/s 8/f 1 2 1/f 1 2 2/
# Two arcs that a group adds.
SINGLE_ARC|group/add 1 2 0 1 1/add 1 2 0 1 2/close 1/cap 1 9/end/show/undo/redo/close 3/|s 12/s 7/s 7/f 1 2 1/f 1 2 1/f 1 2 1/s 12/s 7/s 9/
# A group that leaves no legal flow, and one that leaves one again.
SINGLE_ARC|group/cap 1 1/end/show/group/cap 1 9/supply 1 4/supply 2 -4/end/undo/show/|s 12/i 2/i 2/k 1/s 16/i 2/i 2/k 1/
# The first refused line decides, by itself or by the edits before it, and nothing changes.
DIAMOND|group/cap 5 3/fly/cap 9 1/end/show/undo/|s 14/r 2/s 14/f 1 2 2/f 1 3 2/f 2 3 2/f 2 4 0/f 3 4 4/r 25/
SINGLE_ARC|group/low 1 5/cap 1 4/end/group/cap 1 4/low 1 5/end/group/cap 2 1/add 1 2 0 5 1/end/|s 12/r 22/r 22/r 20/
# What is no edit, in a group: a group goes into none.
DIAMOND|group/group/cap 5 3/end/end/group/redo/end/group/show/end/group/proof/end/|s 14/r 29/r 29/r 29/r 29/r 29/
# `group` and `end` have no fields: the group goes on to its end.
DIAMOND|group 1/end 1/group/end 1/cap 5 3/end/group/cap 5 3/end/|s 14/r 3/r 3/r 3/s 15/
# Blank lines are passed over, and a last line needs no LF.
DIAMOND|/ group\r// \tcap  5 3 \r/\t/\r/ end\t|s 14/s 15/
# A group that the text does not end is no step.
DIAMOND|cap 5 3/group/undo/en|s 14/s 15/
# The other kinds.
MAX_DIAMOND|group/close 5/end/group/close 4/cost 1 2/end/undo/group/cap 4 3/add 1 4 2/end/|s 5/s 2/r 23/s 5/s 7/
CLOSED_PAIR|group/close 1/add 1 2 3/end/undo/group/cost 1 3/add 2 1 0/end/|s -5/s 3/s -5/r 27/
";

#[test]
fn groups_are_answered_so_in_any_pieces(rt: HostRuntime) {
    expect_dialogues(&rt, rt.alloc(), 1000, "", "", GROUPS);
}

/// A session on the diamond answers so to a group of these lines: the first, so many edits, and the last.
fn expect_long_group(
    rt: &impl Abort,
    alloc: Global,
    first: &[u8],
    count: usize,
    last: &[u8],
    replies: &[u8],
) -> Result<(), Fail> {
    let mut text = Vec::new(alloc);
    text.extend_from_slice(b"group\n")?;
    text.extend_from_slice(first)?;
    for _ in 0..count {
        text.extend_from_slice(b"cap 5 3\n")?;
    }
    text.extend_from_slice(last)?;
    text.extend_from_slice(b"end\n")?;
    let opening = Opening {
        problem: DIAMOND,
        extra: 1000,
    };
    expect_replies(rt, alloc, opening, &text, replies, "a long group");
    Ok(())
}

#[test]
fn the_longest_group_has_a_thousand_edits(rt: HostRuntime) -> Result<(), Fail> {
    expect_long_group(&rt, rt.alloc(), b"", 1000, b"", b"s 14\ns 15\n")?;
    expect_long_group(&rt, rt.alloc(), b"", 1001, b"", b"s 14\nr 31\n")?;
    // Too many edits come after an edit that is refused, and before a line that is.
    expect_long_group(&rt, rt.alloc(), b"cap 9 1\n", 1000, b"", b"s 14\nr 20\n")?;
    expect_long_group(&rt, rt.alloc(), b"", 1001, b"fly\n", b"s 14\nr 31\n")?;
    // A line that is no edit is refused as such, whatever stands before it.
    expect_long_group(&rt, rt.alloc(), b"", 1000, b"fly\n", b"s 14\nr 2\n")?;
    Ok(())
}

#[test]
fn nothing_follows_a_failed_write_at_the_end_of_a_group(rt: HostRuntime) {
    // A call for each byte, and a flush after the opening line and after each of two replies: none in the group.
    let calls = CAPACITIES_REPLIES.len() as u64 + 3;
    for fails in 1..=calls + 1 {
        let devices = Devices {
            out_fails: Some(fails),
            ..BYTES
        };
        let ran = run(rt.alloc(), SESSION, DIAMOND, CAPACITIES, devices);
        let end = if fails > calls {
            End::Ended
        } else {
            End::WriteFailed
        };
        expect_beginning(&rt, ran, end, CAPACITIES_REPLIES);
    }
}

#[test]
fn each_failed_read_in_a_group_is_told(rt: HostRuntime) {
    // Nothing is written between the opening line and the line feed of `end`, the 26th byte.
    for given in 0..=26u64 {
        let devices = Devices {
            other_fails: Some(given + 1),
            ..BYTES
        };
        let ran = run(rt.alloc(), SESSION, DIAMOND, CAPACITIES, devices);
        let written = if given < 26 {
            b"s 14\n".as_slice()
        } else {
            b"s 14\ns 13\n"
        };
        expect(
            &rt,
            ran,
            End::ReadFailed(Text::Commands),
            written,
            "a group",
        );
    }
}
