//! Proposals on small networks: what leads to a best flow is taken, and after a spoilt one the searches do the work.

ghost use Rattle.std.specs.Prelude.{◌≡◌, IfOk};

use crate::start::{MOST_ROWS, are_ready, start_flow};
use crate::steps::{prepare, take_up};
use augmentation::Scratch;
use cuts::Excess;
use dimacs_text::{ProblemReader, TextFault};
use network::{build, check_best};
use proposals::{FlowChange, Wanted};
use residual_graph::Graph;
use std::alloc::{AllocError, Global};
use std::process::Abort;
use std::test::Fail;
use tracked::Tracked;

/// The most arcs of a network here.
const MOST_ARCS: usize = 8;

/// Two ways from node 1 to node 3 cost the same: by the first two arcs, and by the third. The last two go round.
const TIES: &[u8] =
    b"p min 4 5\nn 1 2\nn 3 -2\na 1 2 0 2 1\na 2 3 0 2 1\na 1 3 0 2 2\na 3 4 0 5 1\na 4 3 0 5 1\n";
/// One unit of two can be sent.
const SHORT: &[u8] = b"p min 2 1\nn 1 2\nn 2 -2\na 1 2 0 1 1\n";
/// What lies at node 2 is to stay there, and what lies at node 1 passes through it.
const PASSED: &[u8] = b"p min 3 2\nn 1 3\nn 2 2\nn 3 -3\na 1 2 0 3 1\na 2 3 0 3 1\n";
/// Two arcs gain, of which the best flow leaves one empty, and one has a lower bound.
const GAINS: &[u8] =
    b"p min 4 5\nn 1 4\nn 4 -4\na 1 2 1 4 2\na 1 3 0 2 -1\na 2 4 0 3 1\na 3 4 0 5 3\na 2 3 0 2 -1\n";
/// One unit of three comes to node 3, and two come to node 2.
const STUCK: &[u8] = b"p min 3 2\nn 1 3\nn 3 -3\na 1 2 0 2 1\na 2 3 0 1 1\n";
/// Two nodes are assigned to two others.
const PAIRS: &[u8] = b"p asn 4 4\nn 1\nn 2\na 1 3 5\na 1 4 2\na 2 3 4\na 2 4 3\n";
/// The one greatest flow fills the arcs out of the source.
const GREATEST: &[u8] = b"p max 4 5\nn 1 s\nn 4 t\na 1 2 3\na 1 3 2\na 2 3 1\na 2 4 2\na 3 4 3\n";
/// A way of 26 arcs, of which the first has room for 5 and one in the middle for 3: what does not pass there goes home.
const LONG: &[u8] =
    b"p max 27 26\nn 1 s\nn 27 t\na 1 2 5\na 2 3 9\na 3 4 9\na 4 5 9\na 5 6 9\na 6 7 9\na 7 8 9\n\
a 8 9 9\na 9 10 9\na 10 11 9\na 11 12 9\na 12 13 9\na 13 14 9\na 14 15 3\na 15 16 9\n\
a 16 17 9\na 17 18 9\na 18 19 9\na 19 20 9\na 20 21 9\na 21 22 9\na 22 23 9\na 23 24 9\n\
a 24 25 9\na 25 26 9\na 26 27 9\n";

/// What is proposed: arcs with the flow that is wanted of each, and potentials that are likely to certify it.
type Proposed = (&'static [(u32, i64)], &'static [i64]);
/// What comes of it: the pushes that led to what was adopted, the pushes of the searches, the flow, what rests, and the
/// flow's worth where it is best.
type Outcome = (
    Option<u64>,
    u64,
    &'static [i64],
    &'static [i64],
    Option<i128>,
);

/// What is proposed, or nothing where the solver is to propose, and what comes of it.
type Step = (Option<Proposed>, Outcome);

/// What is proposed of `TIES`, and what comes of it. A search comes to node 3 by the third arc first, and the other way is no
/// nearer.
static PROPOSALS: [(Proposed, Outcome); 18] = [
    // The one way, the other, both.
    (
        (&[(2, 2)], &[0, -2, -1, 0, 0]),
        (Some(2), 0, &[0, 0, 2, 0, 0], &[0; 5], Some(4)),
    ),
    (
        (&[(0, 2), (1, 2)], &[0, -2, -1, 0, 0]),
        (Some(2), 0, &[2, 2, 0, 0, 0], &[0; 5], Some(4)),
    ),
    (
        (&[(0, 1), (1, 1), (2, 1)], &[0, -2, -1, 0, 0]),
        (Some(2), 0, &[1, 1, 1, 0, 0], &[0; 5], Some(4)),
    ),
    // The arcs in another order.
    (
        (&[(2, 1), (1, 1), (0, 1)], &[0, -2, -1, 0, 0]),
        (Some(2), 0, &[1, 1, 1, 0, 0], &[0; 5], Some(4)),
    ),
    // Potentials that are to be lowered.
    (
        (&[(0, 1), (1, 1), (2, 1)], &[0, 5, 6, 7, 7]),
        (Some(2), 0, &[1, 1, 1, 0, 0], &[0; 5], Some(4)),
    ),
    // A circle that costs is taken off, alone and where one way round is wanted more often.
    (
        (
            &[(0, 1), (1, 1), (2, 1), (3, 5), (4, 5)],
            &[0, -2, -1, 0, 0],
        ),
        (Some(2), 0, &[1, 1, 1, 0, 0], &[0; 5], Some(4)),
    ),
    (
        (
            &[(4, 5), (0, 1), (3, 5), (1, 1), (2, 1)],
            &[0, -2, -1, 0, 0],
        ),
        (Some(2), 0, &[1, 1, 1, 0, 0], &[0; 5], Some(4)),
    ),
    (
        (
            &[(0, 1), (1, 1), (2, 1), (3, 5), (4, 4)],
            &[0, -2, -1, 0, 0],
        ),
        (None, 1, &[0, 0, 2, 0, 0], &[0; 5], Some(4)),
    ),
    // A potential off by one: others are found that certify the flow.
    (
        (&[(0, 1), (1, 1), (2, 1)], &[0, -2, -2, 0, 0]),
        (Some(2), 0, &[1, 1, 1, 0, 0], &[0; 5], Some(4)),
    ),
    // A node to which more comes than goes on, one from which more goes than comes, one that gives more than it has.
    (
        (&[(0, 2), (1, 1)], &[0, -2, -1, 0, 0]),
        (None, 1, &[0, 0, 2, 0, 0], &[0; 5], Some(4)),
    ),
    (
        (&[(1, 1), (2, 1)], &[0, -2, -1, 0, 0]),
        (None, 1, &[0, 0, 2, 0, 0], &[0; 5], Some(4)),
    ),
    (
        (&[(0, 2), (1, 2), (2, 1)], &[0, -2, -1, 0, 0]),
        (None, 1, &[0, 0, 2, 0, 0], &[0; 5], Some(4)),
    ),
    // Flows out of their bounds: each arc gets what fits.
    (
        (&[(0, 3), (1, 3), (2, -1)], &[0, -2, -1, 0, 0]),
        (Some(2), 0, &[2, 2, 0, 0, 0], &[0; 5], Some(4)),
    ),
    (
        (
            &[(0, i64::MAX), (1, i64::MAX), (2, i64::MIN)],
            &[0, -2, -1, 0, 0],
        ),
        (Some(2), 0, &[2, 2, 0, 0, 0], &[0; 5], Some(4)),
    ),
    // An arc listed twice: the last flow counts.
    (
        (
            &[(2, 1), (0, 0), (1, 0), (3, 0), (4, 0), (2, 2)],
            &[0, -2, -1, 0, 0],
        ),
        (Some(2), 0, &[0, 0, 2, 0, 0], &[0; 5], Some(4)),
    ),
    // Arcs that are not there.
    (
        (&[(5, 2), (u32::MAX, 2), (2, 2)], &[0, -2, -1, 0, 0]),
        (Some(2), 0, &[0, 0, 2, 0, 0], &[0; 5], Some(4)),
    ),
    // Potentials far out of their range.
    (
        (&[(2, 2)], &[i64::MIN, i64::MAX, i64::MIN, i64::MAX, 0]),
        (Some(2), 0, &[0, 0, 2, 0, 0], &[0; 5], Some(4)),
    ),
    // Nothing.
    (
        (&[], &[0; 5]),
        (Some(0), 1, &[0, 0, 2, 0, 0], &[0; 5], Some(4)),
    ),
];

/// What is proposed where something stays: a problem, its excesses, and what comes of it.
static LEFT: [(&[u8], &[i64], Proposed, Outcome); 2] = [
    (
        SHORT,
        &[0, 2, -2],
        (&[(0, 1)], &[0, -1, 0]),
        (Some(1), 0, &[1], &[0, 1, -1], None),
    ),
    (
        PASSED,
        &[0, 3, 2, -3],
        (&[(0, 3), (1, 3)], &[0, -5, -1, 0]),
        (Some(3), 0, &[3, 3], &[0, 0, 2, 0], None),
    ),
];

/// Problems, the excesses with which they begin, and what comes of the solver's own proposal: all of it is adopted, and
/// no push is left to the searches.
static OWN: [(&[u8], &[i64], Outcome); 6] = [
    (
        GAINS,
        &[0, 1, -1, 4, -4],
        (Some(5), 0, &[2, 2, 2, 2, 0], &[0; 5], Some(10)),
    ),
    (
        PAIRS,
        &[0, 1, 1, -1, -1],
        (Some(2), 0, &[0, 1, 1, 0], &[0; 5], Some(6)),
    ),
    (
        GREATEST,
        &[0, 100_000_000_000_000, 0, 0, -100_000_000_000_000],
        (
            Some(100_000_000_000_000),
            0,
            &[5, 3, 2, 1, 2, 3],
            &[0; 5],
            Some(5),
        ),
    ),
    (SHORT, &[0, 2, -2], (Some(1), 0, &[1], &[0, 1, -1], None)),
    (
        STUCK,
        &[0, 3, 0, -3],
        (Some(1), 0, &[1, 1], &[0, 2, 0, -2], None),
    ),
    (
        LONG,
        &[
            0, 5, 0, 0, 0, 0, 0, 0, 0, 0, 0, 0, 0, 0, 0, 0, 0, 0, 0, 0, 0, 0, 0, 0, 0, 0, 0, -5,
        ],
        (
            Some(5),
            0,
            &[
                99_999_999_999_998,
                3,
                3,
                3,
                3,
                3,
                3,
                3,
                3,
                3,
                3,
                3,
                3,
                3,
                3,
                3,
                3,
                3,
                3,
                3,
                3,
                3,
                3,
                3,
                3,
                3,
                3,
            ],
            &[0; 28],
            Some(3),
        ),
    ),
];

/// The same, where the solver proposes twice: the second time near the nodes out of balance. Of a greatest flow more
/// lies at the source than the arcs can carry, and the rest goes back over the return arc.
static TWICE: [(&[u8], &[i64], Outcome); 3] = [
    (
        PAIRS,
        &[0, 1, 1, -1, -1],
        (Some(2), 0, &[0, 1, 1, 0], &[0; 5], Some(6)),
    ),
    (
        GREATEST,
        &[0, 7, 0, 0, -7],
        (
            Some(7),
            0,
            &[99_999_999_999_998, 3, 2, 1, 2, 3],
            &[0; 5],
            Some(5),
        ),
    ),
    (
        GREATEST,
        &[0, 1_000_000_005, 0, 0, -1_000_000_005],
        (
            Some(1_000_000_005),
            0,
            &[99_999_000_000_000, 3, 2, 1, 2, 3],
            &[0; 5],
            Some(5),
        ),
    ),
];

/// Flow that comes to a node and does not go on: it is refused.
static STRANDED: Proposed = (&[(0, 4)], &[0; 5]);

/// What the searches alone come to where arcs gain.
static SEARCHED: Outcome = (None, 4, &[2, 2, 2, 2, 0], &[0; 5], Some(10));

/// A problem, the excesses with which it begins, and the tables of the searches.
#[derive(Drop)]
struct Run {
    graph: Graph,
    balance: &'static [i64],
    scratch: Scratch,
}

/// Where a run begins: a flow, the excesses that it leaves, and potentials 0.
#[derive(Drop)]
struct Start {
    flow: Tracked<i64>,
    excess: Excess,
    potentials: Tracked<i64>,
}

/// The graph of a problem text.
fn graph_of(alloc: Global, text: &[u8]) -> Result<Graph, TextFault> {
    let mut reader = ProblemReader::new(alloc);
    reader.feed(text)?;
    let problem = reader.finish()?;
    let Ok(network) = build(alloc, &problem, 1) else {
        return Err(TextFault::Memory);
    };
    Ok(Graph::new(network))
}

/// The tables of the searches in a graph.
fn scratch_of(rt: &impl Abort, alloc: Global, graph: &Graph) -> Result<Scratch, AllocError> {
    let entries = graph.network().nodes().saturating_add(1);
    assert!(rt; entries as usize <= MOST_ROWS);
    Scratch::new(alloc, entries, graph.rows().len())
}

/// A problem where nothing is pushed yet.
fn run_of(
    rt: &impl Abort,
    alloc: Global,
    text: &[u8],
    balance: &'static [i64],
) -> Result<Run, Fail> {
    let graph = graph_of(alloc, text)?;
    let scratch = scratch_of(rt, alloc, &graph)?;
    Ok(Run {
        graph,
        balance,
        scratch,
    })
}

/// A copy of a table.
fn copy_of(alloc: Global, table: &[i64]) -> Result<Vec<i64>, AllocError>
    ensures { IfOk result (λ copy. copy.items ≡ table.now) }
{
    let mut copy = Vec::with_capacity(alloc, table.len())?;
    copy.extend_from_slice(table)?;
    Ok(copy)
}

/// A flow, one entry an arc.
fn tracked_of(rt: &impl Abort, alloc: Global, flow: Vec<i64>) -> Result<Tracked<i64>, AllocError> {
    let room = flow.len();
    assert!(rt; room <= MOST_ROWS);
    assert!(rt; room <= flow.capacity());
    Tracked::new(alloc, flow, room)
}

/// Excesses, one a node.
fn excess_of(rt: &impl Abort, alloc: Global, table: &[i64]) -> Result<Excess, AllocError> {
    assert!(rt; table.len() <= MOST_ROWS);
    Excess::new(alloc, copy_of(alloc, table)?)
}

/// Arcs with the flow that is wanted of each, as a proposal has them, with room for all arcs: the solver's own proposals are
/// written in the same list.
fn changes_of(alloc: Global, pairs: &[(u32, i64)]) -> Result<Vec<FlowChange>, AllocError> {
    let mut changes = Vec::with_capacity(alloc, MOST_ARCS)?;
    for (arc, flow) in pairs {
        changes.push(FlowChange {
            arc: *arc,
            next: 0,
            flow: *flow,
        })?;
    }
    Ok(changes)
}

/// Takes up a proposal, or where there is none the solver's own; how many pushes led to what was
/// adopted, and how many came after.
fn push_from(
    rt: &impl Abort,
    run: &mut Run,
    start: &mut Start,
    wanted: Option<(Wanted, &[i64])>,
) -> (Option<u64>, u64) {
    let ready = are_ready(
        &run.graph,
        start.flow.entries(),
        start.excess.entries(),
        start.potentials.entries(),
    );
    assert!(rt; ready);
    let entries = start.potentials.entries().len();
    assert!(rt; run.scratch.labels().len() == entries);
    prepare(
        &run.graph,
        start.flow.entries(),
        &start.excess,
        start.potentials.entries(),
        &mut run.scratch,
        wanted,
    );
    take_up(
        &run.graph,
        &mut start.flow,
        &mut start.excess,
        &mut start.potentials,
        &mut run.scratch,
    )
}

/// Whether the flow of the network's arcs has this worth, and the potentials certify it.
fn is_best(graph: &Graph, flow: &[i64], potentials: &[i64], worth: i128) -> bool {
    let first = graph.return_arcs();
    if first > flow.len() || potentials.is_empty() {
        return false;
    }
    check_best(graph.network(), &flow[first..], &potentials[1..], worth)
}

/// Where a run begins.
fn start_of(rt: &impl Abort, alloc: Global, run: &Run) -> Result<Start, AllocError> {
    let entries = run.balance.len();
    assert!(rt; entries <= MOST_ROWS);
    let flow = tracked_of(rt, alloc, start_flow(alloc, run.graph.rows())?)?;
    let excess = excess_of(rt, alloc, run.balance)?;
    let potentials = tracked_of(rt, alloc, vec![in alloc; 0; entries]?)?;
    Ok(Start {
        flow,
        excess,
        potentials,
    })
}

/// This comes of a proposal, or where there is none of the solver's own, from such a start.
fn expect_from(
    rt: &impl Abort,
    run: &mut Run,
    mut start: Start,
    wanted: Option<(Wanted, &[i64])>,
    outcome: &Outcome,
) {
    let pushes = push_from(rt, run, &mut start, wanted);
    assert_eq!(rt; pushes, (outcome.0, outcome.1));
    assert_eq!(rt; start.flow.entries(), outcome.2);
    assert_eq!(rt; start.excess.entries(), outcome.3);
    if let Some(worth) = outcome.4 {
        let best = is_best(
            &run.graph,
            start.flow.entries(),
            start.potentials.entries(),
            worth,
        );
        assert!(rt; best);
    }
    drop(start);
}

/// This comes of a proposal that is written down, or where there is none of the solver's own.
fn expect_step(
    rt: &impl Abort,
    alloc: Global,
    run: &mut Run,
    step: &Step,
) -> Result<(), AllocError> {
    let wanted = match &step.0 {
        Some((changes, told)) => Some((
            Wanted {
                changes: changes_of(alloc, changes)?,
            },
            *told,
        )),
        None => None,
    };
    match start_of(rt, alloc, run) {
        Ok(start) => {
            expect_from(rt, run, start, wanted, &step.1);
            Ok(())
        }
        Err(refused) => {
            drop(wanted);
            Err(refused)
        }
    }
}

/// The same of proposals, one after the other in the same tables.
fn expect_all(
    rt: &impl Abort,
    alloc: Global,
    run: &mut Run,
    steps: &[Step],
) -> Result<(), AllocError> {
    for step in steps {
        expect_step(rt, alloc, run, step)?;
    }
    Ok(())
}

/// The same of a problem that begins with these excesses. All tests give their tables back here, at one place, since it
/// takes long to prove that.
fn expect_of(
    rt: &impl Abort,
    alloc: Global,
    text: &[u8],
    balance: &'static [i64],
    steps: &[Step],
) -> Result<(), Fail> {
    let mut run = run_of(rt, alloc, text, balance)?;
    let done = expect_all(rt, alloc, &mut run, steps);
    drop(run);
    done?;
    Ok(())
}

#[test]
fn proposals_for_ties(rt: HostRuntime) -> Result<(), Fail> {
    for (proposed, outcome) in &PROPOSALS {
        let step = (Some(*proposed), *outcome);
        expect_of(&rt, rt.alloc(), TIES, &[0, 2, 0, -2, 0], &[step, step])?;
    }
    Ok(())
}

#[test]
fn proposals_that_leave_something(rt: HostRuntime) -> Result<(), Fail> {
    for (text, balance, proposed, outcome) in &LEFT {
        let step = (Some(*proposed), *outcome);
        expect_of(&rt, rt.alloc(), text, balance, &[step, step])?;
    }
    Ok(())
}

#[test]
fn own_proposals(rt: HostRuntime) -> Result<(), Fail> {
    for (text, balance, outcome) in &OWN {
        let step = (None, *outcome);
        expect_of(&rt, rt.alloc(), text, balance, &[step])?;
    }
    Ok(())
}

#[test]
fn own_proposals_near_an_edit(rt: HostRuntime) -> Result<(), Fail> {
    for (text, balance, outcome) in &TWICE {
        let step = (None, *outcome);
        expect_of(&rt, rt.alloc(), text, balance, &[step, step])?;
    }
    Ok(())
}

#[test]
fn own_proposal_after_spoilt_ones(rt: HostRuntime) -> Result<(), Fail> {
    let spoilt = (Some(STRANDED), SEARCHED);
    let own = (None, OWN[0].2);
    expect_of(&rt, rt.alloc(), GAINS, &[0, 1, -1, 4, -4], &[spoilt, own])
}
