//! What `solve` and `check` write, and how they end.

use crate::problems::{MAX_TWO_BEST_FLOWS, PIECES, RIGHT_ANSWER, SINGLE_ARC, problem_of, problems};
use crate::running::{
    BYTES, Devices, Engine, checked, cut, expect, expect_one_of, expect_start, run, solved, text_of,
};
use dimacs_io::Pad;
use runs::{End, Text};
use std::alloc::Global;
use std::process::Abort;
use std::test::Fail;

/// Nodes without arcs.
const MORE_NODES: &[u8] = b"p min 10001 0\n";

/// Problem texts with a fault that a last LF does not change: the number of the fault, the faulty line, and the text.
const FAULTY_PROBLEMS: &str = "\
2 1 x 1
3 1 p min 2
4 1 p min +2 1
5 1 p min 50001 0
5 2 p min 2 1/a 1 2 0 1 1000000000001
6 1 a 1 2 0 1 1
7 2 p min 1 0/p min 1 0
8 1 p sp 2 1
9 3 p min 2 1/a 1 2 0 1 1/n 1 0
10 3 p min 2 0/n 1 1/n 1 1
11 3 p max 2 1/n 1 s/a 1 2 1
12 2 p min 2 0/a 1 2 0 1 1
13 2 p min 2 2/a 1 2 0 1 1
14 1 c only
15 2 p min 2 1/a 1 2 2 1 0
16 3 p asn 2 1/n 1/a 2 1 0
17 2 p max 2 0/n 1 x
11 2 p max 2 0/n 1 s
4 2 p min 2 1/a 1 2 -1 1 1
5 2 p min 2 1/a 1 3 x 1 1
5 2 p min 2 1/a 1 3 0 1 1
6 1 n 1 s/p max 2 0
10 3 p max 2 0/n 1 s/n 1 t
";

fn refused(input: Text, number: u8, line: u64) -> End {
    End::Refused {
        input,
        number,
        line,
    }
}

/// Each engine refuses a problem text for this fault, in any pieces, and writes nothing.
fn expect_fault(rt: &impl Abort, alloc: Global, problem: &[u8], number: u8, line: u64) {
    let want = refused(Text::Problem, number, line);
    for most in PIECES {
        let ran = solved(alloc, problem, true, most);
        expect(rt, ran, want, b"", "solve");
        let ran = checked(alloc, problem, RIGHT_ANSWER, most);
        expect(rt, ran, want, b"", "check");
    }
}

/// The text is refused so with a comment before it or without, and with its last LF or without.
fn expect_refused(
    rt: &impl Abort,
    alloc: Global,
    problem: &[u8],
    number: u8,
    line: u64,
) -> Result<(), Fail> {
    for (before, lines) in [(b"".as_slice(), 0), (b" \t\r\nc a comment\n", 2)] {
        let line = line.saturating_add(lines);
        let mut text = Vec::new(alloc);
        text.extend_from_slice(before)?;
        text.extend_from_slice(problem)?;
        expect_fault(rt, alloc, &text, number, line);
        text.push(b'\n')?;
        expect_fault(rt, alloc, &text, number, line);
    }
    Ok(())
}

/// The text of a row is refused so.
fn expect_row_refused(rt: &impl Abort, alloc: Global, row: &str) -> Result<(), Fail> {
    let (number, rest) = row.split_once(' ').expect(rt, row);
    let (line, text) = rest.split_once(' ').expect(rt, row);
    expect_refused(
        rt,
        alloc,
        text_of(rt, alloc, text).as_bytes(),
        number.parse()?,
        line.parse()?,
    )
}

#[test]
fn faulty_problems_are_refused_by_each_engine(rt: HostRuntime) -> Result<(), Fail> {
    expect_fault(&rt, rt.alloc(), b"", 14, 0);
    expect_refused(&rt, rt.alloc(), &[b'c'; 1025], 1, 1)?;
    for row in FAULTY_PROBLEMS.lines() {
        expect_row_refused(&rt, rt.alloc(), row)?;
    }
    Ok(())
}

/// A problem, and an answer to it that is valid.
const VALID: &str = "\
SINGLE_ARC|s 12/f 1 2 3/v 1 -4/v 2 0/
SINGLE_ARC|s 12/f 1 2 3/v 1 -5/v 2 -1
SINGLE_ARC|s 12/f 1 2 3/v 1 -10000000000001/v 2 -9999999999997/
LONE_NODE|s 0/v 1 0/
SURPLUS|i 1/k 1/k 2/
FIRST_FORM_COMES_FIRST|i 1/k 1/
FIRST_FORM_COMES_FIRST|i 2/k 2/
FIRST_FORM_COMES_FIRST|i 2/k 1/k 2/k 3/
MAX_TWO_BEST_FLOWS|s 1/f 1 2 2/f 2 1 1/f 2 3 1/v 1 -1/v 2 -1/v 3 0/
";

/// A problem, and an answer to it that is not valid.
const NOT_VALID: &str = "\
SINGLE_ARC|s 13/f 1 2 3/v 1 -4/v 2 0/
SINGLE_ARC|s 12/f 2 1 3/v 1 -4/v 2 0/
SINGLE_ARC|s 12/f 1 2 3/v 1 0/v 2 0/
SINGLE_ARC|s 12/f 1 2 3/v 1 -50000000000000001/v 2 -49999999999999997/
LONE_NODE|s 0/v 1 1/
SURPLUS|i 2/k 1/k 2/
SURPLUS|i 1/k 1/
SURPLUS|i 1/
FIRST_FORM_COMES_FIRST|i 3/k 2/
MAX_TWO_BEST_FLOWS|s 2/f 1 2 2/f 2 1 1/f 2 3 1/v 1 -1/v 2 -1/v 3 0/
";

/// A problem, and an answer to it whose third line is against the order of lines.
const FAULTY_AT_LINE_3: &str = "\
SINGLE_ARC|s 12/f 1 2 3/v 1 -4/
SURPLUS|i 1/k 2/k 1/
";

/// The check of each answer ends so in any pieces, and writes this line.
fn expect_checked(rt: &impl Abort, alloc: Global, rows: &str, want: End, line: &[u8]) {
    for row in rows.lines() {
        let (name, answer) = cut(rt, row);
        let answer = text_of(rt, alloc, answer);
        for most in PIECES {
            let ran = checked(alloc, problem_of(rt, name), answer.as_bytes(), most);
            expect(rt, ran, want, line, row);
        }
    }
}

#[test]
fn worked_examples_end_so_in_any_pieces(rt: HostRuntime) {
    expect_checked(&rt, rt.alloc(), VALID, End::Valid, b"valid\n");
    expect_checked(&rt, rt.alloc(), NOT_VALID, End::NotValid, b"not valid\n");
    expect_checked(
        &rt,
        rt.alloc(),
        FAULTY_AT_LINE_3,
        refused(Text::Answer, 40, 3),
        b"",
    );
    let no_potentials = "SINGLE_ARC|s 12/f 1 2 3/";
    expect_checked(
        &rt,
        rt.alloc(),
        no_potentials,
        refused(Text::Answer, 40, 2),
        b"",
    );
}

/// A problem, and what its solution writes without a proof.
const SOLVED: &str = "\
SINGLE_ARC|s 12/f 1 2 3/
LONE_NODE|s 0/
GAINFUL_CYCLE|s -3/f 1 2 3/f 2 1 3/
PARALLEL_ARCS|s 6/f 1 2 1/f 1 2 1/
GREATEST_PRODUCT|s 1000000000000000000/f 1 2 1000000000/
MAX_WITHOUT_ARCS|s 0/
";

/// A problem, and what its solution writes with a proof.
const SOLVED_WITH_PROOF: &str = "\
SINGLE_ARC|s 12/f 1 2 3/v 1 -4/v 2 0/
DIAMOND|s 14/f 1 2 2/f 1 3 2/f 2 3 2/f 2 4 0/f 3 4 4/v 1 -4/v 2 -2/v 3 -1/v 4 0/
LONE_NODE|s 0/v 1 0/
GREATEST_LARGER_PRODUCT|s 1000000000000000000000/f 1 2 1000000000/v 1 -1000000000000/v 2 0/
MAX_DIAMOND|s 5/f 1 2 3/f 1 3 2/f 2 3 1/f 2 4 2/f 3 4 3/v 1 -1/v 2 0/v 3 0/v 4 0/
PAIRS|s 3/f 1 3 0/f 1 4 1/f 2 3 1/f 2 4 0/v 1 -2/v 2 -1/v 3 0/v 4 0/
";

/// A problem without a legal flow, and what its solution writes.
const INFEASIBLE: &str = "\
DEFICIT|i 1/k 1/k 2/
UNFED_LOWER_BOUND|i 2/k 2/
FIRST_FORM_COMES_FIRST|i 1/k 1/
ONE_AGAINST_TWO|i 1/k 1/k 2/k 3/
LONE_SINK_SIDE_NODE|i 1/k 1/
";

/// A problem, and whether a proof is asked for.
#[derive(Clone, Copy)]
struct Asked<'a> {
    problem: &'a [u8],
    proof: bool,
}

/// The solution of a problem ends so in any pieces, and writes this. The last line may lack its LF.
fn expect_solved(rt: &impl Abort, alloc: Global, asked: Asked, want: End, text: &[u8], row: &str) {
    let Asked { problem, proof } = asked;
    for input in [problem, problem.strip_suffix(b"\n").unwrap_or(problem)] {
        for most in PIECES {
            expect(rt, solved(alloc, input, proof, most), want, text, row);
        }
    }
}

/// The same of each row.
fn expect_all_solved(rt: &impl Abort, alloc: Global, rows: &str, proof: bool, want: End) {
    for row in rows.lines() {
        let (name, text) = cut(rt, row);
        let text = text_of(rt, alloc, text);
        let asked = Asked {
            problem: problem_of(rt, name),
            proof,
        };
        expect_solved(rt, alloc, asked, want, text.as_bytes(), row);
    }
}

#[test]
fn problems_are_solved_in_any_pieces(rt: HostRuntime) {
    expect_all_solved(&rt, rt.alloc(), SOLVED, false, End::Solved);
    expect_all_solved(&rt, rt.alloc(), SOLVED_WITH_PROOF, true, End::Solved);
    expect_all_solved(&rt, rt.alloc(), INFEASIBLE, false, End::Infeasible);
    expect_all_solved(
        &rt,
        rt.alloc(),
        "SURPLUS|i 1/k 1/k 2/",
        true,
        End::Infeasible,
    );
    let asked = Asked {
        problem: MORE_NODES,
        proof: false,
    };
    expect_solved(&rt, rt.alloc(), asked, End::Solved, b"s 0\n", "MORE_NODES");
}

#[test]
fn either_of_two_best_flows_is_written(rt: HostRuntime) {
    let lawful = [
        b"s 1\nf 1 2 1\nf 2 1 0\nf 2 3 1\nv 1 -1\nv 2 -1\nv 3 0\n".as_slice(),
        b"s 1\nf 1 2 2\nf 2 1 1\nf 2 3 1\nv 1 -1\nv 2 -1\nv 3 0\n",
    ];
    for most in PIECES {
        let ran = solved(rt.alloc(), MAX_TWO_BEST_FLOWS, true, most);
        expect_one_of(&rt, ran, End::Solved, lawful.as_slice());
        let ran = solved(rt.alloc(), MAX_TWO_BEST_FLOWS, false, most);
        expect_start(&rt, ran, End::Solved, b"s 1\n");
    }
}

/// How `check` and `solve` end, and what they write, where a comment with so many letters more stands before a problem.
fn expect_after_comment(
    rt: &impl Abort,
    alloc: Global,
    letters: usize,
    of_check: (End, &[u8]),
    of_solve: (End, &[u8]),
) -> Result<(), Fail> {
    let mut text = Vec::new(alloc);
    text.push(b'c')?;
    for _ in 0..letters {
        text.push(b'x')?;
    }
    text.push(b'\n')?;
    text.extend_from_slice(SINGLE_ARC)?;
    for most in PIECES {
        let ran = checked(alloc, &text, RIGHT_ANSWER, most);
        expect(rt, ran, of_check.0, of_check.1, "check");
        let ran = solved(alloc, &text, true, most);
        expect(rt, ran, of_solve.0, of_solve.1, "solve");
    }
    Ok(())
}

#[test]
fn a_comment_of_1024_bytes_is_skipped(rt: HostRuntime) -> Result<(), Fail> {
    let valid = (End::Valid, b"valid\n".as_slice());
    let solved = (End::Solved, RIGHT_ANSWER);
    expect_after_comment(&rt, rt.alloc(), 1023, valid, solved)?;
    let too_long = (refused(Text::Problem, 1, 1), b"".as_slice());
    expect_after_comment(&rt, rt.alloc(), 1024, too_long, too_long)
}

#[test]
fn what_is_solved_is_valid(rt: HostRuntime) {
    for (name, problem) in problems() {
        let (_, solution) = solved(rt.alloc(), problem, true, 100);
        expect(
            &rt,
            checked(rt.alloc(), problem, solution.held(), 7),
            End::Valid,
            b"valid\n",
            name,
        );
    }
}

#[test]
fn a_failed_read_is_told_unless_a_fault_came_first(rt: HostRuntime) {
    let cases = [
        (b"x 1\n".as_slice(), refused(Text::Problem, 2, 1)),
        (b"p min".as_slice(), End::ReadFailed(Text::Problem)),
        (SINGLE_ARC, End::ReadFailed(Text::Problem)),
    ];
    for (problem, want) in cases {
        let devices = Devices {
            most: 100,
            problem_fails: Some(2),
            ..BYTES
        };
        let ran = run(rt.alloc(), Engine::Check, problem, RIGHT_ANSWER, devices);
        expect(&rt, ran, want, b"", "a failed read");
    }
}

/// An end, its status, and the line that is told of it.
const ENDS: [(End, u8, &[u8]); 12] = [
    (End::Solved, 0, b""),
    (End::Ended, 0, b""),
    (End::Valid, 0, b""),
    (End::Infeasible, 1, b""),
    (End::NotValid, 1, b""),
    (
        End::Refused {
            input: Text::Problem,
            number: 14,
            line: 0,
        },
        3,
        b"mcf: problem line 0: fault 14\n",
    ),
    (
        End::Refused {
            input: Text::Answer,
            number: 40,
            line: 18_446_744_073_709_551_615,
        },
        3,
        b"mcf: answer line 18446744073709551615: fault 40\n",
    ),
    (
        End::ReadFailed(Text::Problem),
        4,
        b"mcf: problem: read failed\n",
    ),
    (
        End::ReadFailed(Text::Answer),
        4,
        b"mcf: answer: read failed\n",
    ),
    (
        End::ReadFailed(Text::Commands),
        4,
        b"mcf: commands: read failed\n",
    ),
    (End::WriteFailed, 4, b"mcf: output: write failed\n"),
    (End::Memory, 5, b"mcf: want of memory\n"),
];

/// The end has this status, and this line is told of it.
fn expect_told(rt: &impl Abort, end: End, status: u8, line: &[u8]) {
    let mut err = Pad::new(3, None);
    assert!(rt; end.tell(&mut err).is_ok());
    assert_eq!(rt; err.held(), line);
    assert!(rt; end.status() == status);
}

#[test]
fn an_end_has_a_status_and_a_line(rt: HostRuntime) {
    for (end, status, line) in ENDS {
        expect_told(&rt, end, status, line);
    }
}
