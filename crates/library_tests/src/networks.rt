//! The two checkers, edits and views of networks, in worked examples.

use dimacs_text::{Edit, Kind, Problem, ProblemReader, TextFault};
use network::{Network, build, build_from, check_best, check_cut};
use std::alloc::Global;
use std::process::Abort;

/// The problem of a text.
fn problem_of(alloc: Global, text: &[u8]) -> Result<Problem, TextFault> {
    let mut reader = ProblemReader::new(alloc);
    reader.feed(text)?;
    reader.finish()
}

/// The instance of a problem text, with room for one arc more.
fn network(alloc: Global, text: &[u8]) -> Result<Network, TextFault> {
    let problem = problem_of(alloc, text)?;
    match build(alloc, &problem, 1) {
        Ok(network) => Ok(network),
        Err(_) => Err(TextFault::Memory),
    }
}

/// The same of a problem that is given up, with room for so many arcs more.
fn network_from(alloc: Global, text: &[u8], extra: u32) -> Result<Network, TextFault> {
    let problem = problem_of(alloc, text)?;
    match build_from(alloc, problem, extra) {
        Ok(network) => Ok(network),
        Err(_) => Err(TextFault::Memory),
    }
}

/// One arc.
const SINGLE_ARC: &[u8] = b"p min 2 1\nn 1 3\nn 2 -3\na 1 2 0 5 4\n";
/// Two ways from node 1 to node 4, joined in the middle.
const DIAMOND: &[u8] =
    b"p min 4 5\nn 1 4\nn 4 -4\na 1 2 0 4 2\na 1 3 0 2 2\na 2 3 0 2 1\na 2 4 0 3 3\na 3 4 0 5 1\n";
/// Node 1 has nowhere to send its unit, and node 2 is fed one of three.
const BOTH_FORMS: &[u8] = b"p min 3 1\nn 1 1\nn 2 -3\na 3 2 0 1 1\n";
/// Two pipes from a source to a sink, and one back.
const PIPES: &[u8] = b"p max 2 3\nn 1 s\nn 2 t\na 1 2 5\na 2 1 4\na 1 2 3\n";
/// One pair.
const PAIR: &[u8] = b"p asn 2 1\nn 1\na 1 2 7\n";
/// A lower bound that nothing feeds.
const UNFED: &[u8] = b"p min 2 1\na 1 2 2 5 1\n";

/// A checker answers so.
fn expect(rt: &impl Abort, answer: bool, valid: bool) {
    assert!(rt; answer == valid);
}

/// A problem, a flow, potentials and a worth, and whether the checker takes them.
static FLOWS: [(&[u8], &[i64], &[i64], i128, bool); 12] = [
    (SINGLE_ARC, &[3], &[-4, 0], 12, true),
    (SINGLE_ARC, &[3], &[-5, -1], 12, true),
    (SINGLE_ARC, &[3], &[-4, 0], 13, false),
    (SINGLE_ARC, &[3], &[0, 0], 12, false),
    (SINGLE_ARC, &[3], &[1, 5], 12, false),
    (
        SINGLE_ARC,
        &[3],
        &[-50_000_000_000_000_000, -49_999_999_999_999_996],
        12,
        true,
    ),
    (
        SINGLE_ARC,
        &[3],
        &[-50_000_000_000_000_001, -49_999_999_999_999_997],
        12,
        false,
    ),
    (SINGLE_ARC, &[2], &[-4, 0], 8, false),
    (SINGLE_ARC, &[3, 0], &[-4, 0], 12, false),
    (SINGLE_ARC, &[3], &[-4], 12, false),
    (DIAMOND, &[2, 2, 2, 0, 4], &[-4, -2, -1, 0], 14, true),
    (DIAMOND, &[2, 2, 1, 1, 3], &[-4, -2, -1, 0], 15, false),
];

#[test]
fn best_flows(rt: HostRuntime) -> Result<(), TextFault> {
    for (text, flow, potentials, worth, valid) in &FLOWS {
        let net = network(rt.alloc(), text)?;
        expect(&rt, check_best(&net, flow, potentials, *worth), *valid);
    }
    Ok(())
}

/// A problem, a set of nodes and a shortage, and whether the checker takes them.
static CUTS: [(&[u8], &[bool], i64, bool); 8] = [
    (BOTH_FORMS, &[true, false, false], 1, true),
    (BOTH_FORMS, &[false, true, false], 2, true),
    (BOTH_FORMS, &[true, true, true], 2, true),
    (BOTH_FORMS, &[false, true, false], 3, false),
    (BOTH_FORMS, &[false, true], 2, false),
    (UNFED, &[false, true], 2, true),
    (UNFED, &[true, false], 2, true),
    (SINGLE_ARC, &[true, false], 3, false),
];

#[test]
fn cuts(rt: HostRuntime) -> Result<(), TextFault> {
    for (text, cut, shortage, valid) in &CUTS {
        let net = network(rt.alloc(), text)?;
        expect(&rt, check_cut(&net, cut, *shortage), *valid);
    }
    Ok(())
}

/// Edits are answered so.
fn expect_answer(rt: &impl Abort, answer: Result<(), u8>, expected: Result<(), u8>) {
    assert_eq!(rt; answer, expected);
}

/// An edit, and its answer.
static EDITS: [(Edit, Result<(), u8>); 8] = [
    (Edit::Cap { arc: 1, cap: 2 }, Ok(())),
    (Edit::Cap { arc: 1, cap: 1 }, Err(22)),
    (
        Edit::Cap {
            arc: 2,
            cap: 1_000_000_001,
        },
        Err(5),
    ),
    (Edit::Low { arc: 2, low: 1 }, Err(20)),
    (Edit::Cost { arc: 0, cost: 1 }, Err(20)),
    (Edit::Supply { node: 3, value: 1 }, Err(21)),
    (
        Edit::Add {
            tail: 1,
            head: 2,
            low: 0,
            cap: 5,
            cost: 1,
        },
        Ok(()),
    ),
    (
        Edit::Add {
            tail: 1,
            head: 2,
            low: 6,
            cap: 5,
            cost: 1,
        },
        Err(22),
    ),
];

#[test]
fn edits(rt: HostRuntime) -> Result<(), TextFault> {
    let net = network(rt.alloc(), UNFED)?;
    for (edit, answer) in &EDITS {
        expect_answer(&rt, net.edited(edit), *answer);
    }
    Ok(())
}

/// The arc that there is room for.
const ADD: Edit = Edit::Add {
    tail: 2,
    head: 1,
    low: 0,
    cap: 5,
    cost: 1,
};

/// Edits that are made together, and their answer.
static EDITS_TOGETHER: [(&[Edit], Result<(), u8>); 9] = [
    (&[], Ok(())),
    (
        &[Edit::Cap { arc: 1, cap: 3 }, Edit::Low { arc: 1, low: 3 }],
        Ok(()),
    ),
    (
        &[Edit::Cap { arc: 1, cap: 3 }, Edit::Low { arc: 1, low: 4 }],
        Err(22),
    ),
    (&[ADD, Edit::Cap { arc: 2, cap: 9 }], Ok(())),
    (&[Edit::Cap { arc: 2, cap: 9 }, ADD], Err(20)),
    (&[ADD, ADD], Err(24)),
    (&[ADD, Edit::Close { arc: 2 }, ADD], Err(24)),
    (
        &[Edit::Close { arc: 1 }, Edit::Low { arc: 1, low: 1 }],
        Err(22),
    ),
    (
        &[
            Edit::Supply { node: 3, value: 1 },
            Edit::Cap { arc: 7, cap: 1 },
        ],
        Err(21),
    ),
];

#[test]
fn edits_made_together(rt: HostRuntime) -> Result<(), TextFault> {
    let net = network(rt.alloc(), UNFED)?;
    for (edits, answer) in &EDITS_TOGETHER {
        expect_answer(&rt, net.edited_all(edits), *answer);
    }
    assert!(rt; net.arcs() == 1);
    Ok(())
}

#[test]
fn parts(rt: HostRuntime) -> Result<(), TextFault> {
    let net = network(rt.alloc(), DIAMOND)?;
    assert!(rt; net.kind() == Kind::Min);
    assert!(rt; net.nodes() == 4 && net.arcs() == 5);
    match net.arc(5) {
        Some(row) => assert!(rt; row.tail == 3 && row.head == 4 && row.cap == 5),
        None => panic!(rt; "there are five arcs"),
    }
    assert!(rt; net.reduced_arc(6).is_none());
    assert!(rt; net.return_arc().is_none());
    assert!(rt; net.reduced_supply(4) == Some(-4));
    assert!(rt; net.reduced_supply(5).is_none());
    Ok(())
}

/// A problem, for how many arcs more there is room, and the ends of the rows: the return arc of a maximum flow is first.
static ROWS: [(&[u8], u32, &[(u32, u32)]); 6] = [
    (SINGLE_ARC, 0, &[(1, 2)]),
    (DIAMOND, 0, &[(1, 2), (1, 3), (2, 3), (2, 4), (3, 4)]),
    (DIAMOND, 3, &[(1, 2), (1, 3), (2, 3), (2, 4), (3, 4)]),
    (PIPES, 0, &[(2, 1), (1, 2), (2, 1), (1, 2)]),
    (PIPES, 3, &[(2, 1), (1, 2), (2, 1), (1, 2)]),
    (PAIR, 1, &[(1, 2)]),
];

#[test]
fn rows_of_problems_given_up(rt: HostRuntime) -> Result<(), TextFault> {
    for (text, extra, ends) in &ROWS {
        let net = network_from(rt.alloc(), text, *extra)?;
        assert!(rt; net.rows().len() == ends.len());
        assert!(rt; net.room() == net.arcs().saturating_add(*extra));
        for (row, (tail, head)) in net.rows().iter().zip(*ends) {
            assert!(rt; row.tail == *tail && row.head == *head);
        }
    }
    Ok(())
}
