//! Problem texts and commands in pieces, their faults, and groups.

ghost use Rattle.std.specs.Prelude.{◌<◌};

use crate::rows::{Faulty, faulty_of, long_comment};
use dimacs_text::{
    Command, Edit, GROUP_LIMIT, Group, Kind, Name, NodeMark, Problem, ProblemReader, TextFault,
    is_blank, read_command,
};
use std::alloc::Global;
use std::process::Abort;
use std::test::Fail;

/// Feeds a text in pieces of so many bytes.
fn feed(reader: &mut ProblemReader, text: &[u8], step: usize) -> Result<(), TextFault>
    requires { 0 < step }
{
    for piece in text.chunks(step) {
        reader.feed(piece)?;
    }
    Ok(())
}

/// Reads texts in a row, each in pieces of so many bytes.
fn read(alloc: Global, texts: [&[u8]; 3], step: usize) -> Result<Problem, TextFault>
    requires { 0 < step }
{
    let mut reader = ProblemReader::new(alloc);
    for text in texts {
        feed(&mut reader, text, step)?;
    }
    reader.finish()
}

/// The reading of a text ended with this fault.
fn expect_told(rt: &impl Abort, ended: Result<Problem, TextFault>, number: u8, line: u64) {
    match ended {
        Ok(_) => panic!(rt; "fault {number} is missed"),
        Err(fault) => assert_eq!(rt; fault, TextFault::Fault { number, line }),
    }
}

/// The texts in a row have the fault in pieces of any of these lengths.
fn expect_fault_in_pieces(
    rt: &impl Abort,
    alloc: Global,
    texts: [&[u8]; 3],
    number: u8,
    line: u64,
) {
    for step in [1, 2, 7, 1024, 1025] {
        expect_told(rt, read(alloc, texts, step), number, line);
    }
}

/// The text has the fault with its last LF and without, and two lines later after a blank line and a comment.
fn expect_fault(rt: &impl Abort, alloc: Global, text: &[u8], number: u8, line: u64) {
    for (before, lines) in [(b"".as_slice(), 0), (b" \t\r\nc two lines\n", 2)] {
        let line = line.saturating_add(lines);
        for after in [b"".as_slice(), b"\n"] {
            expect_fault_in_pieces(rt, alloc, [before, text, after], number, line);
        }
    }
}

/// The number of a fault, the faulty line, and a text that has it.
static FAULTS: &str = "\
2 1 x 1
3 1 p min 2
4 1 p min +2 1
4 2 p min 2 1/a 1 2 -1 1 1
5 1 p min 50001 0
5 2 p min 2 1/a 1 3 x 1 1
6 1 a 1 2 0 1 1
7 2 p min 1 0/p min 1 0
8 1 p sp 2 1
9 3 p min 2 1/a 1 2 0 1 1/n 1 0
10 3 p min 2 0/n 1 1/n 1 1
12 2 p min 2 0/a 1 2 0 1 1
13 2 p min 2 2/a 1 2 0 1 1
14 1 c only
15 2 p min 2 1/a 1 2 2 1 0
6 1 n 1 s/p max 2 0
10 3 p max 2 0/n 1 s/n 1 t
11 3 p max 2 1/n 1 s/a 1 2 1
11 2 p max 2 0/n 1 s
16 3 p asn 2 1/n 1/a 2 1 0
17 2 p max 2 0/n 1 x
";

#[test]
fn faults(rt: HostRuntime) -> Result<(), Fail> {
    expect_fault(&rt, rt.alloc(), &long_comment(), 1, 1);
    for row in FAULTS.lines() {
        let Faulty { number, line, text } = faulty_of(&rt, rt.alloc(), row)?;
        expect_fault(&rt, rt.alloc(), text.as_bytes(), number, line);
    }
    Ok(())
}

/// The problem of the text below.
fn expect_problem(rt: &impl Abort, problem: &Problem) {
    assert!(rt; problem.nodes() == 2);
    assert!(rt; problem.marks().len() == 2);
    assert!(rt; problem.marks()[1] == NodeMark::Supply { id: 2, value: -3 });
    assert!(rt; problem.arcs().len() == 1);
    assert!(rt; problem.arcs()[0].cap == 5);
}

#[test]
fn problem(rt: HostRuntime) {
    let text = b"c a comment\n \t\r\np min 2 1\nn 1 3\nn 2 -3\na 1 2 0 5 4";
    for step in [1, 2, 7, 1024] {
        match read(rt.alloc(), [text, b"", b""], step) {
            Ok(problem) => expect_problem(&rt, &problem),
            Err(_) => panic!(rt; "the text is read"),
        }
    }
}

/// The kind of a problem, its first mark, and the capacity and the cost of its first arc.
fn expect_first(
    rt: &impl Abort,
    problem: &Problem,
    kind: Kind,
    mark: NodeMark,
    cap: i64,
    cost: i64,
) {
    assert!(rt; problem.kind() == kind);
    assert!(rt; !problem.marks().is_empty() && !problem.arcs().is_empty());
    assert!(rt; problem.marks()[0] == mark);
    assert!(rt; problem.arcs()[0].cap == cap);
    assert!(rt; problem.arcs()[0].cost == cost);
}

/// A problem of each kind, its first mark, and the capacity and the cost of its first arc.
static EACH_KIND: [(&[u8], Kind, NodeMark, i64, i64); 3] = [
    (
        b"p min 2 1\nn 2 -3\na 1 2 1 5 4",
        Kind::Min,
        NodeMark::Supply { id: 2, value: -3 },
        5,
        4,
    ),
    (
        b"p max 2 1\nn 2 t\nn 1 s\na 1 2 6",
        Kind::Max,
        NodeMark::Sink(2),
        6,
        0,
    ),
    (
        b"p asn 2 1\nn 2\na 2 1 -7",
        Kind::Asn,
        NodeMark::Side(2),
        1,
        -7,
    ),
];

#[test]
fn problem_of_each_kind(rt: HostRuntime) {
    for (text, kind, mark, cap, cost) in &EACH_KIND {
        match read(rt.alloc(), [text, b"", b""], 7) {
            Ok(problem) => expect_first(&rt, &problem, *kind, *mark, *cap, *cost),
            Err(_) => panic!(rt; "the text is read"),
        }
    }
}

#[test]
fn nothing_is_read(rt: HostRuntime) {
    let ended = ProblemReader::new(rt.alloc()).finish();
    expect_told(&rt, ended, 14, 0);
}

/// A line reads so on problems of a kind.
fn expect_command(rt: &impl Abort, kind: Kind, line: &[u8], expected: &Result<Command, u8>) {
    if !is_blank(line) {
        assert_eq!(rt; read_command(kind, line), *expected);
    }
}

/// A line, and what it reads as on problems of a kind.
const COMMANDS: [(Kind, &[u8], Result<Command, u8>); 15] = [
    (
        Kind::Min,
        b"cap 2 1",
        Ok(Command::Edit(Edit::Cap { arc: 2, cap: 1 })),
    ),
    (
        Kind::Min,
        b" supply 3 -1\r",
        Ok(Command::Edit(Edit::Supply { node: 3, value: -1 })),
    ),
    (
        Kind::Max,
        b"add 1 2 5",
        Ok(Command::Edit(Edit::Add {
            tail: 1,
            head: 2,
            low: 0,
            cap: 5,
            cost: 0,
        })),
    ),
    (
        Kind::Asn,
        b"close 1",
        Ok(Command::Edit(Edit::Close { arc: 1 })),
    ),
    (Kind::Min, b"undo", Ok(Command::Undo)),
    (Kind::Max, b"group", Ok(Command::Group)),
    (Kind::Asn, b"\tend ", Ok(Command::End)),
    (Kind::Min, b"undone", Err(2)),
    (Kind::Min, b"group 1", Err(3)),
    (Kind::Min, b"end x", Err(3)),
    (Kind::Asn, b"cap 1", Err(23)),
    (Kind::Min, b"cap 1", Err(3)),
    (Kind::Min, b"cap x 1000000001", Err(4)),
    (Kind::Min, b"low 1 -1", Err(4)),
    (Kind::Min, b"cost 1 -1000000000001", Err(5)),
];

#[test]
fn commands(rt: HostRuntime) {
    for (kind, line, expected) in &COMMANDS {
        expect_command(&rt, *kind, line, expected);
    }
}

/// The mark of a name of these letters, or the number of a refusal.
fn mark_of(rt: &impl Abort, name: Result<&[u8], u8>) -> Result<Command, u8> {
    match name {
        Ok(letters) => match Name::of(letters) {
            Some(name) => Ok(Command::Mark(name)),
            None => panic!(rt; "the letters are a name"),
        },
        Err(number) => Err(number),
    }
}

/// A line, and the letters of its name, or the number of its refusal.
static NAMES: [(&[u8], Result<&[u8], u8>); 10] = [
    (b"mark a", Ok(b"a")),
    (b"mark\tZa\r", Ok(b"Za")),
    (
        b"mark abcdefghijklmnopqrstuvwxyzABCDEF",
        Ok(b"abcdefghijklmnopqrstuvwxyzABCDEF"),
    ),
    (b"mark abcdefghijklmnopqrstuvwxyzABCDEFG", Err(32)),
    (b"mark 1x", Err(32)),
    (b"mark x1", Err(32)),
    (b"mark a[", Err(32)),
    (b"mark", Err(3)),
    (b"mark 1 2", Err(3)),
    (b"marks a", Err(2)),
];

#[test]
fn names(rt: HostRuntime) {
    for (line, expected) in &NAMES {
        let expected = mark_of(&rt, *expected);
        for kind in [Kind::Min, Kind::Max, Kind::Asn] {
            expect_command(&rt, kind, line, &expected);
        }
    }
}

#[test]
fn names_are_told_apart(rt: HostRuntime) {
    let line = b"back Za";
    match Name::of(b"Za") {
        Some(name) => {
            assert!(rt; name.letters() == b"Za".as_slice());
            assert!(rt; Name::of(b"ZA") != Some(name) && Name::of(b"Z") != Some(name));
            assert!(rt; is_blank(line) || read_command(Kind::Max, line) == Ok(Command::Back(name)));
        }
        None => panic!(rt; "the letters are a name"),
    }
}

/// A group of these lines ends at the last, with so many edits and this fault.
fn expect_group(rt: &impl Abort, text: &str, edits: usize, fault: Option<u8>) {
    let mut group = Group::new();
    let mut ended = false;
    for line in text.lines() {
        assert!(rt; !ended);
        ended = group.take(Kind::Min, Some(line.as_bytes()));
    }
    assert!(rt; ended);
    assert!(rt; group.edits().len() == edits);
    assert_eq!(rt; group.fault(), fault);
}

/// The lines of a group, how many edits it takes, and its fault.
static GROUPS: [(&str, usize, Option<u8>); 10] = [
    ("end", 0, None),
    ("cap 5 3\nadd 1 2 0 1 1\nend", 2, None),
    ("cap 5 3\nfly\ncap 5 3\nend", 1, Some(2)),
    ("end now\nend", 0, Some(3)),
    ("cap 5 3\ngroup\nfly\nend", 1, Some(29)),
    ("group 1\nend", 0, Some(3)),
    ("undo\nend", 0, Some(29)),
    ("undo 1\nend", 0, Some(3)),
    ("mark a\nend", 0, Some(29)),
    ("back 1\nend", 0, Some(32)),
];

#[test]
fn groups(rt: HostRuntime) {
    for (text, edits, fault) in &GROUPS {
        expect_group(&rt, text, *edits, *fault);
    }
}

/// Gives a group so many edits, none of which ends it.
fn fill(rt: &impl Abort, group: &mut Group, kind: Kind, count: usize) {
    for _ in 0..count {
        assert!(rt; !group.take(kind, Some(b"cap 5 3")));
    }
}

#[test]
fn longest_group(rt: HostRuntime) {
    let mut group = Group::new();
    fill(&rt, &mut group, Kind::Min, GROUP_LIMIT);
    assert!(rt; group.fault().is_none());
    assert!(rt; !group.take(Kind::Min, None));
    assert!(rt; group.fault() == Some(1));
    let mut group = Group::new();
    fill(&rt, &mut group, Kind::Max, GROUP_LIMIT + 1);
    assert!(rt; group.edits().len() == GROUP_LIMIT);
    assert!(rt; group.fault() == Some(31));
}
