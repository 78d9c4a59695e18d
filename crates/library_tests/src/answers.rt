//! Answer texts in pieces, and their faults.

ghost use Rattle.std.specs.Prelude.{◌<◌};

use crate::rows::{Faulty, faulty_of, long_comment};
use dimacs_text::{Answer, AnswerReader, FlowLine, TextFault};
use std::alloc::Global;
use std::process::Abort;
use std::test::Fail;

/// Feeds a text in pieces of so many bytes.
fn feed(reader: &mut AnswerReader, text: &[u8], step: usize) -> Result<(), TextFault>
    requires { 0 < step }
{
    for piece in text.chunks(step) {
        reader.feed(piece)?;
    }
    Ok(())
}

/// Reads texts in a row, in pieces of so many bytes, as an answer to a problem with two nodes and an arc.
fn read(alloc: Global, texts: [&[u8]; 2], step: usize) -> Result<Answer, TextFault>
    requires { 0 < step }
{
    let mut reader = AnswerReader::new(alloc, 2, 1);
    for text in texts {
        feed(&mut reader, text, step)?;
    }
    reader.finish()
}

/// The reading of a text ended with this fault.
fn expect_told(rt: &impl Abort, ended: Result<Answer, TextFault>, number: u8, line: u64) {
    match ended {
        Ok(_) => panic!(rt; "fault {number} is missed"),
        Err(fault) => assert_eq!(rt; fault, TextFault::Fault { number, line }),
    }
}

/// The text has the fault in pieces of any of these lengths, with its last LF and without.
fn expect_fault(rt: &impl Abort, alloc: Global, text: &[u8], number: u8, line: u64) {
    for step in [1, 2, 7, 1024, 1025] {
        for after in [b"".as_slice(), b"\n"] {
            expect_told(rt, read(alloc, [text, after], step), number, line);
        }
    }
}

/// Each text of the rows has the fault.
fn expect_faults(rt: &impl Abort, alloc: Global, rows: &str) -> Result<(), Fail> {
    for row in rows.lines() {
        let Faulty { number, line, text } = faulty_of(rt, alloc, row)?;
        expect_fault(rt, alloc, text.as_bytes(), number, line);
    }
    Ok(())
}

/// The number of a fault, the faulty line, and a text that has it.
static FAULTS_OF_LINES: &str = "\
2 2 s 1/x 1
3 2 i 1/k
4 1 i -1
5 2 i 1/k 3
3 1 s
3 3 c//s 1 2
3 2 s 1/f 1 2
3 3 s 1/f 1 2 3/v 1
4 1 s +1
4 1 s -
4 1 s 1234567890123456789012345678901
4 2 s 1/f 1 2 -3
4 2 s 1/f x 3 1
4 2 s 1/f 1 2 1234567890123456789
5 2 s 1/f 1 3 x
5 2 s 1/f 0 2 3
5 3 s 1/f 1 2 3/v 3 x
";

/// The same, where the lines are out of order or one is missing.
static FAULTS_OF_ORDER: &str = "\
40 1 f 1 2
40 1 v 1 0
40 2 s 1/s 1
40 3 s 1/f 1 2 3/f 1 2 3
40 2 s 1/v 1 0
40 3 s 1/f 1 2 3/v 2 0
40 4 s 1/f 1 2 3/v 1 0/v 1 0
40 5 s 1/f 1 2 3/v 1 0/v 2 0/v 2 0
40 1 c only
40 1 s 1
40 3 s 1/f 1 2 3/v 1 0
40 1 k 1
40 2 s 1/i 1
40 2 i 1/s 1
40 2 i 1/i 1
40 3 i 1/k 2/k 1
";

#[test]
fn faults_of_lines(rt: HostRuntime) -> Result<(), Fail> {
    expect_fault(&rt, rt.alloc(), &long_comment(), 1, 1);
    expect_faults(&rt, rt.alloc(), FAULTS_OF_LINES)
}

#[test]
fn faults_of_order(rt: HostRuntime) -> Result<(), Fail> {
    expect_faults(&rt, rt.alloc(), FAULTS_OF_ORDER)
}

#[test]
fn flow(rt: HostRuntime) {
    let text = b"c an answer\n \t\r\ns -123456789012345678901234567890\nf 1 2 3\nv 1 -5\nv 2 -1";
    for step in [1, 2, 7, 1024] {
        match read(rt.alloc(), [text, b""], step) {
            Ok(
                Answer::Flow {
                    value,
                    flows,
                    potentials,
                },
            ) => {
                assert_eq!(rt; value, -123456789012345678901234567890);
                assert!(rt;
                    flows.as_slice()
                        == [FlowLine {
                            tail: 1,
                            head: 2,
                            flow: 3
                        }]
                        .as_slice()
                );
                assert!(rt; potentials.into_vec().as_slice() == [-5, -1].as_slice());
            }
            _ => panic!(rt; "the text is read"),
        }
    }
}

#[test]
fn cut(rt: HostRuntime) {
    match read(rt.alloc(), [b"i 3\nk 1\n", b"c the last node\nk 2"], 7) {
        Ok(Answer::Cut { shortage, nodes }) => {
            assert_eq!(rt; shortage, 3);
            assert!(rt; nodes.as_slice() == [1, 2].as_slice());
        }
        _ => panic!(rt; "the text is read"),
    }
}
