//! Devices that fail under an engine, at each call in turn.

use crate::problems::{DIAMOND, DIAMOND_SOLVED, RIGHT_ANSWER, SINGLE_ARC, SURPLUS};
use crate::running::{BYTES, Devices, Engine, SESSION, expect, run};
use crate::sessions::{DIAMOND_NARROWED, DIAMOND_NARROWED_REPLIES};
use runs::{End, Text};
use std::process::Abort;

#[test]
fn each_failed_read_of_a_problem_is_told(rt: HostRuntime) {
    for engine in [Engine::Solve { proof: true }, SESSION, Engine::Check] {
        // A call for each byte, and one that finds the end.
        for given in 0..=SINGLE_ARC.len() {
            let devices = Devices {
                problem_fails: Some(given as u64 + 1),
                ..BYTES
            };
            let ran = run(rt.alloc(), engine, SINGLE_ARC, RIGHT_ANSWER, devices);
            expect(&rt, ran, End::ReadFailed(Text::Problem), b"", "a problem");
        }
    }
}

#[test]
fn each_failed_read_of_an_answer_is_told(rt: HostRuntime) {
    for given in 0..=RIGHT_ANSWER.len() {
        let devices = Devices {
            other_fails: Some(given as u64 + 1),
            ..BYTES
        };
        let ran = run(rt.alloc(), Engine::Check, SINGLE_ARC, RIGHT_ANSWER, devices);
        expect(&rt, ran, End::ReadFailed(Text::Answer), b"", "an answer");
    }
}

/// What is written before the first command, and after each of the four.
const WRITTEN_SO_FAR: [&[u8]; 5] = [
    b"s 14\n",
    b"s 14\ns 15\n",
    b"s 14\ns 15\ns 14\n",
    b"s 14\ns 15\ns 14\ns 15\n",
    DIAMOND_NARROWED_REPLIES,
];

/// What is written once so much of the commands is read.
fn written_after(rt: &impl Abort, commands: &[u8]) -> &'static [u8] {
    let mut ended = 0usize;
    for byte in commands {
        if *byte == b'\n' {
            ended = ended.saturating_add(1);
        }
    }
    match WRITTEN_SO_FAR.get(ended) {
        Some(written) => written,
        None => panic!(rt; "there are four commands"),
    }
}

#[test]
fn each_failed_read_of_commands_comes_after_the_replies(rt: HostRuntime) {
    for given in 0..=DIAMOND_NARROWED.len() {
        let devices = Devices {
            other_fails: Some(given as u64 + 1),
            ..BYTES
        };
        let ran = run(rt.alloc(), SESSION, DIAMOND, DIAMOND_NARROWED, devices);
        let written = written_after(&rt, &DIAMOND_NARROWED[..given]);
        expect(
            &rt,
            ran,
            End::ReadFailed(Text::Commands),
            written,
            "a command",
        );
    }
}

/// An engine, a problem, the answer that is checked, and what is written.
const WRITTEN: [(Engine, &[u8], &[u8], &[u8]); 4] = [
    (Engine::Solve { proof: true }, DIAMOND, b"", DIAMOND_SOLVED),
    (
        Engine::Solve { proof: true },
        SURPLUS,
        b"",
        b"i 1\nk 1\nk 2\n",
    ),
    (Engine::Check, SINGLE_ARC, RIGHT_ANSWER, b"valid\n"),
    (Engine::Check, SINGLE_ARC, b"i 1\n", b"not valid\n"),
];

#[test]
fn nothing_follows_a_failed_write(rt: HostRuntime) {
    for (engine, problem, other, text) in WRITTEN {
        // A call for each byte, and a flush.
        for written in 0..=text.len() {
            let devices = Devices {
                out_fails: Some(written as u64 + 1),
                ..BYTES
            };
            let ran = run(rt.alloc(), engine, problem, other, devices);
            expect(
                &rt,
                ran,
                End::WriteFailed,
                &text[..written],
                "a failed write",
            );
        }
    }
}
