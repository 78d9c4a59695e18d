//! What the records of groups hold, in worked examples.

use crate::sessions::{
    ADD, CAPACITIES, Command, DIAMOND, Differences, NARROW, SINGLE_ARC, go_to_and_fro, opened,
    replied,
};
use dimacs_text::{ArcRow, Edit};
use flow_solver::Verdict;
use session::Part;
use std::alloc::Global;
use std::process::Abort;

/// A group of edits of a problem, and what its record holds once it is done and once it is undone.
struct GroupStep {
    shows: &'static str,
    text: &'static [u8],
    edits: &'static [Edit],
    done: Differences<'static>,
    undone: Differences<'static>,
}

static GROUP_STEPS: [GroupStep; 5] = [
    GroupStep {
        shows: "two arcs, each with its row",
        text: DIAMOND,
        edits: CAPACITIES,
        done: Differences {
            parts: &[
                Part::Arc {
                    k: 1,
                    row: ArcRow {
                        tail: 1,
                        head: 2,
                        low: 0,
                        cap: 4,
                        cost: 2,
                    },
                },
                Part::Arc {
                    k: 2,
                    row: ArcRow {
                        tail: 1,
                        head: 3,
                        low: 0,
                        cap: 2,
                        cost: 2,
                    },
                },
            ],
            flows: &[(1, 2), (2, 2), (3, 2)],
            potentials: &[],
            marks: &[],
            verdict: Verdict::Best(14),
        },
        undone: Differences {
            parts: &[
                Part::Arc {
                    k: 1,
                    row: ArcRow {
                        tail: 1,
                        head: 2,
                        low: 0,
                        cap: 1,
                        cost: 2,
                    },
                },
                Part::Arc {
                    k: 2,
                    row: ArcRow {
                        tail: 1,
                        head: 3,
                        low: 0,
                        cap: 3,
                        cost: 2,
                    },
                },
            ],
            flows: &[(1, 1), (2, 3), (3, 1)],
            potentials: &[],
            marks: &[],
            verdict: Verdict::Best(13),
        },
    },
    GroupStep {
        shows: "an arc that is edited twice is named once, with the row before both",
        text: DIAMOND,
        edits: &[Edit::Cap { arc: 5, cap: 4 }, NARROW],
        done: Differences {
            parts: &[Part::Arc {
                k: 5,
                row: ArcRow {
                    tail: 3,
                    head: 4,
                    low: 0,
                    cap: 5,
                    cost: 1,
                },
            }],
            flows: &[(3, 2), (4, 0), (5, 4)],
            potentials: &[(1, -4), (2, -2), (3, -1)],
            marks: &[],
            verdict: Verdict::Best(14),
        },
        undone: Differences {
            parts: &[Part::Arc {
                k: 5,
                row: ArcRow {
                    tail: 3,
                    head: 4,
                    low: 0,
                    cap: 3,
                    cost: 1,
                },
            }],
            flows: &[(3, 1), (4, 1), (5, 3)],
            potentials: &[(1, -5), (2, -3), (3, -2)],
            marks: &[],
            verdict: Verdict::Best(15),
        },
    },
    GroupStep {
        shows: "an arc that is added and edited is one place, and gone with the row that it had last",
        text: SINGLE_ARC,
        edits: &[ADD, Edit::Cost { arc: 2, cost: 2 }],
        done: Differences {
            parts: &[Part::Last],
            flows: &[(1, 3)],
            potentials: &[(1, -4)],
            marks: &[],
            verdict: Verdict::Best(12),
        },
        undone: Differences {
            parts: &[Part::Gone {
                row: ArcRow {
                    tail: 1,
                    head: 2,
                    low: 0,
                    cap: 5,
                    cost: 2,
                },
                flow: 3,
            }],
            flows: &[(1, 0)],
            potentials: &[(1, -2)],
            marks: &[],
            verdict: Verdict::Best(6),
        },
    },
    GroupStep {
        shows: "added arcs are gone in their order",
        text: SINGLE_ARC,
        edits: &[
            ADD,
            Edit::Add {
                tail: 2,
                head: 1,
                low: 0,
                cap: 7,
                cost: 6,
            },
        ],
        done: Differences {
            parts: &[Part::Last, Part::Last],
            flows: &[(1, 3)],
            potentials: &[(1, -4)],
            marks: &[],
            verdict: Verdict::Best(12),
        },
        undone: Differences {
            parts: &[
                Part::Gone {
                    row: ArcRow {
                        tail: 1,
                        head: 2,
                        low: 0,
                        cap: 5,
                        cost: 1,
                    },
                    flow: 3,
                },
                Part::Gone {
                    row: ArcRow {
                        tail: 2,
                        head: 1,
                        low: 0,
                        cap: 7,
                        cost: 6,
                    },
                    flow: 0,
                },
            ],
            flows: &[(1, 0)],
            potentials: &[(1, -1)],
            marks: &[],
            verdict: Verdict::Best(3),
        },
    },
    GroupStep {
        shows: "nodes come before arcs, each in rising order",
        text: SINGLE_ARC,
        edits: &[
            Edit::Supply { node: 2, value: -4 },
            Edit::Cap { arc: 1, cap: 6 },
            Edit::Supply { node: 1, value: 4 },
        ],
        done: Differences {
            parts: &[
                Part::Supply { id: 1, value: 3 },
                Part::Supply { id: 2, value: -3 },
                Part::Arc {
                    k: 1,
                    row: ArcRow {
                        tail: 1,
                        head: 2,
                        low: 0,
                        cap: 5,
                        cost: 4,
                    },
                },
            ],
            flows: &[(1, 3)],
            potentials: &[],
            marks: &[],
            verdict: Verdict::Best(12),
        },
        undone: Differences {
            parts: &[
                Part::Supply { id: 1, value: 4 },
                Part::Supply { id: 2, value: -4 },
                Part::Arc {
                    k: 1,
                    row: ArcRow {
                        tail: 1,
                        head: 2,
                        low: 0,
                        cap: 6,
                        cost: 4,
                    },
                },
            ],
            flows: &[(1, 4)],
            potentials: &[],
            marks: &[],
            verdict: Verdict::Best(16),
        },
    },
];

/// Takes the step on a session on its problem.
fn take_group(rt: &impl Abort, alloc: Global, step: &GroupStep) {
    let mut session = opened(rt, alloc, alloc, step.text, 1000);
    replied(&mut session, &Command::Group(step.edits));
    go_to_and_fro(rt, &mut session, step.done, step.undone, step.shows);
}

#[test]
fn records_of_groups(rt: HostRuntime) {
    for step in &GROUP_STEPS {
        take_group(&rt, rt.alloc(), step);
    }
}
