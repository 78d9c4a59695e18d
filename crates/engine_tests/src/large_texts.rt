//! Texts at the limits of the program: the most arcs, the most nodes, and a session of 30,000 commands.

use crate::problems::{DIAMOND, RIGHT_ANSWER, SINGLE_ARC};
use crate::running::{expect_end, text_of};
use checker::check;
use dimacs_io::{ReadSource, WriteSink};
use engines::{run_session, solve};
use runs::End;
use std::alloc::Global;
use std::io::Write;
use std::process::Abort;
use std::test::Fail;

/// Adds the lines of a row, which begins with how often they stand in the text.
fn add_row(rt: &impl Abort, alloc: Global, text: &mut Vec<u8>, row: &str) -> Result<(), Fail> {
    let (count, lines) = row.split_once(' ').expect(rt, row);
    let lines = text_of(rt, alloc, lines);
    for _ in 0..count.parse::<u32>()? {
        text.extend_from_slice(lines.as_bytes())?;
    }
    Ok(())
}

/// A text by rows; a line that starts with `#` is a remark.
fn text(rt: &impl Abort, alloc: Global, rows: &str) -> Result<Vec<u8>, Fail> {
    let mut text = Vec::new(alloc);
    for row in rows.lines() {
        if !row.starts_with('#') {
            add_row(rt, alloc, &mut text, row)?;
        }
    }
    Ok(text)
}

/// Solves a text, and says how that ends and what is written.
fn solved(alloc: Global, problem: &[u8]) -> (End, Vec<u8>) {
    let mut out = Vec::new(alloc);
    let end = solve(
        alloc,
        &mut ReadSource::new(problem),
        &mut WriteSink::new(&mut out),
        true,
    );
    (end, out)
}

/// How the check of an answer ends.
fn checked(alloc: Global, problem: &[u8], answer: &[u8]) -> End {
    check(
        alloc,
        &mut ReadSource::new(problem),
        &mut ReadSource::new(answer),
        &mut WriteSink::new(Vec::new(alloc)),
    )
}

/// Runs a session, and says how that ends and what is written.
fn session(alloc: Global, problem: &[u8], commands: &[u8], extra: u32) -> (End, Vec<u8>) {
    let mut out = Vec::new(alloc);
    let end = run_session(
        alloc,
        &mut ReadSource::new(problem),
        &mut ReadSource::new(commands),
        &mut WriteSink::new(&mut out),
        extra,
    );
    (end, out)
}

/// An engine ended so, and what it wrote starts and ends so.
fn expect_around(rt: &impl Abort, ran: &(End, Vec<u8>), end: End, start: &[u8], finish: &[u8]) {
    expect_end(rt, ran.0, end, "a large text");
    assert!(rt; ran.1.starts_with(start));
    assert!(rt; ran.1.ends_with(finish));
}

/// An engine ended so, and wrote this.
fn expect_written(rt: &impl Abort, ran: &(End, Vec<u8>), end: End, written: &[u8]) {
    expect_end(rt, ran.0, end, "a large text");
    assert!(rt; ran.1.as_slice() == written);
}

/// The answer to the problem is valid.
fn expect_valid(rt: &impl Abort, alloc: Global, problem: &[u8], answer: &[u8]) {
    expect_end(
        rt,
        checked(alloc, problem, answer),
        End::Valid,
        "a large answer",
    );
}

#[test]
fn std_streams_serve(rt: HostRuntime) {
    expect_valid(&rt, rt.alloc(), SINGLE_ARC, RIGHT_ANSWER);
}

/// The solution of a problem by rows starts and ends so.
fn expect_solved(
    rt: &impl Abort,
    alloc: Global,
    rows: &str,
    start: &[u8],
    finish: &[u8],
) -> Result<(), Fail> {
    let problem = text(rt, alloc, rows)?;
    expect_around(rt, &solved(alloc, &problem), End::Solved, start, finish);
    Ok(())
}

#[test]
fn the_greatest_worth_and_the_least_are_written(rt: HostRuntime) -> Result<(), Fail> {
    let greatest = "1 p min 1 100000/\n100000 a 1 1 1000000000 1000000000 1000000000/";
    let least = "1 p min 1 100000/\n100000 a 1 1 0 1000000000 -1000000000/";
    let finish = b"\nv 1 0\n";
    expect_solved(
        &rt,
        rt.alloc(),
        greatest,
        b"s 100000000000000000000000\n",
        finish,
    )?;
    expect_solved(
        &rt,
        rt.alloc(),
        least,
        b"s -100000000000000000000000\n",
        finish,
    )
}

/// A thousand of the most arcs are open.
const FEW_OPEN: &str = "\
1 p max 2 100000/n 1 s/n 2 t/
1000 a 1 2 1000000000/
99000 a 1 2 0/
";

#[test]
fn few_of_many_arcs_are_open(rt: HostRuntime) -> Result<(), Fail> {
    let finish = b"\nv 1 -1\nv 2 0\n";
    expect_solved(&rt, rt.alloc(), FEW_OPEN, b"s 1000000000000\n", finish)?;
    let problem = text(&rt, rt.alloc(), FEW_OPEN)?;
    let ran = session(rt.alloc(), &problem, b"add 1 2 5\n", 100_000);
    expect_written(&rt, &ran, End::Ended, b"s 1000000000000\nr 24\n");
    Ok(())
}

#[test]
fn an_answer_of_many_full_arcs_is_valid(rt: HostRuntime) -> Result<(), Fail> {
    let problem = "1 p max 2 100000/n 1 s/n 2 t/\n100000 a 1 2 1000000000/";
    let answer = "1 s 100000000000000/\n100000 f 1 2 1000000000/\n1 v 1 0/v 2 0/";
    let problem = text(&rt, rt.alloc(), problem)?;
    let answer = text(&rt, rt.alloc(), answer)?;
    expect_valid(&rt, rt.alloc(), &problem, &answer);
    Ok(())
}

/// A chain from the one surplus to the one deficit.
fn chain(alloc: Global) -> Result<Vec<u8>, Fail> {
    let mut text = Vec::new(alloc);
    text.extend_from_slice(b"p min 50000 49999\nn 1 1\nn 50000 -1\n")?;
    for k in 1..50_000_u32 {
        writeln!(text, "a {k} {} 0 1 1000000000000", k + 1)?;
    }
    Ok(text)
}

/// The flow along the chain, and the first potential.
fn flow_of_chain(alloc: Global) -> Result<Vec<u8>, Fail> {
    let mut text = Vec::new(alloc);
    text.extend_from_slice(b"s 49999000000000000\n")?;
    for k in 1..50_000_u32 {
        writeln!(text, "f {k} {} 1", k + 1)?;
    }
    text.extend_from_slice(b"v 1 -49999000000000000\n")?;
    Ok(text)
}

/// A surplus at each node, and no arc.
fn lonely_nodes(alloc: Global) -> Result<Vec<u8>, Fail> {
    let mut text = Vec::new(alloc);
    text.extend_from_slice(b"p min 50000 0\n")?;
    for k in 1..=50_000_u32 {
        writeln!(text, "n {k} 1")?;
    }
    Ok(text)
}

/// The cut of all these nodes.
fn cut_of_lonely_nodes(alloc: Global) -> Result<Vec<u8>, Fail> {
    let mut text = Vec::new(alloc);
    text.extend_from_slice(b"i 50000\n")?;
    for k in 1..=50_000_u32 {
        writeln!(text, "k {k}")?;
    }
    Ok(text)
}

#[test]
fn fifty_thousand_nodes_are_solved(rt: HostRuntime) -> Result<(), Fail> {
    let chain = chain(rt.alloc())?;
    let ran = solved(rt.alloc(), &chain);
    expect_around(&rt, &ran, End::Solved, &flow_of_chain(rt.alloc())?, b"");
    expect_valid(&rt, rt.alloc(), &chain, &ran.1);
    Ok(())
}

#[test]
fn fifty_thousand_nodes_are_cut(rt: HostRuntime) -> Result<(), Fail> {
    let lonely = lonely_nodes(rt.alloc())?;
    let cut = cut_of_lonely_nodes(rt.alloc())?;
    expect_written(&rt, &solved(rt.alloc(), &lonely), End::Infeasible, &cut);
    expect_valid(&rt, rt.alloc(), &lonely, &cut);
    Ok(())
}

const LONG_HISTORY: &str = "\
1 show/mark first/
5000 cap 5 3/cap 5 5/
10001 undo/
1 show/
10001 redo/
1 show/mark last/back first/undo/back last/redo/
";

const LONG_HISTORY_REPLIES: &str = "\
1 s 14/
1 s 14/f 1 2 2/f 1 3 2/f 2 3 2/f 2 4 0/f 3 4 4/
1 s 14/
# The edits, and their undos.
10000 s 15/s 14/
1 r 25/
1 s 14/f 1 2 2/f 1 3 2/f 2 3 2/f 2 4 0/f 3 4 4/
5000 s 15/s 14/
1 r 26/
1 s 14/f 1 2 2/f 1 3 2/f 2 3 2/f 2 4 0/f 3 4 4/
# The marks, far apart.
1 s 14/s 14/r 25/s 14/r 26/
";

#[test]
fn a_long_history_goes_back_and_forth(rt: HostRuntime) -> Result<(), Fail> {
    let commands = text(&rt, rt.alloc(), LONG_HISTORY)?;
    let replies = text(&rt, rt.alloc(), LONG_HISTORY_REPLIES)?;
    let ran = session(rt.alloc(), DIAMOND, &commands, 1000);
    expect_written(&rt, &ran, End::Ended, &replies);
    Ok(())
}
