//! What sessions answer, and what their records hold, in worked examples.

use dimacs_text::{ArcRow, Edit, GROUP_LIMIT, Problem, ProblemReader, TextFault};
use flow_solver::Verdict;
use session::{Part, Refusal, Session};
use std::alloc::{Allocator, Global};
use std::process::Abort;

/// One arc.
pub(crate) const SINGLE_ARC: &[u8] = b"p min 2 1\nn 1 3\nn 2 -3\na 1 2 0 5 4\n";
/// Two ways from node 1 to node 4, joined in the middle.
pub(crate) const DIAMOND: &[u8] =
    b"p min 4 5\nn 1 4\nn 4 -4\na 1 2 0 4 2\na 1 3 0 2 2\na 2 3 0 2 1\na 2 4 0 3 3\na 3 4 0 5 1\n";
/// Two arcs that are alike.
const EQUAL_ARCS: &[u8] = b"p min 2 2\nn 1 3\nn 2 -3\na 1 2 0 5 4\na 1 2 0 5 4\n";
/// The diamond, for a greatest flow.
const MAX_DIAMOND: &[u8] =
    b"p max 4 5\nn 1 s\nn 4 t\na 1 2 3\na 1 3 2\na 2 3 1\na 2 4 2\na 3 4 3\n";
/// A pair that can be chosen.
const PAIR: &[u8] = b"p asn 2 1\nn 1\na 1 2 -5\n";

/// Two pairs, each of two ways to choose.
pub(crate) const PAIRS: &[u8] = b"p asn 4 4\nn 1\nn 2\na 1 3 5\na 1 4 2\na 2 3 1\na 2 4 4\n";

/// The diamond's last arc is narrowed.
pub(crate) const NARROW: Edit = Edit::Cap { arc: 5, cap: 3 };
/// The diamond's source can send out one unit less.
pub(crate) const STARVE: Edit = Edit::Cap { arc: 1, cap: 1 };
/// A cheaper arc beside the single one.
pub(crate) const ADD: Edit = Edit::Add {
    tail: 1,
    head: 2,
    low: 0,
    cap: 5,
    cost: 1,
};
/// The second arc is closed.
pub(crate) const CLOSE_SECOND: Edit = Edit::Close { arc: 2 };
/// One more way to join node 1 to node 4, at cost 1.
pub(crate) const ADD_PAIR: Edit = Edit::Add {
    tail: 1,
    head: 4,
    low: 0,
    cap: 1,
    cost: 1,
};
/// The supplies of the single arc's nodes, one unit more.
const SUPPLIES: &[Edit] = &[
    Edit::Supply { node: 1, value: 4 },
    Edit::Supply { node: 2, value: -4 },
];
/// The diamond's first arc is narrowed, and its second one widened.
pub(crate) const CAPACITIES: &[Edit] = &[
    Edit::Cap { arc: 1, cap: 1 },
    Edit::Cap { arc: 2, cap: 3 },
];
/// A group whose second edit names no arc.
const NO_ARC: &[Edit] = &[NARROW, Edit::Cap { arc: 9, cap: 1 }, STARVE];
/// The first arc is closed.
const CLOSE: Edit = Edit::Close { arc: 1 };
/// The first arc costs 3 a unit.
pub(crate) const COST: Edit = Edit::Cost { arc: 1, cost: 3 };

/// The problem of a text.
fn problem_of(alloc: Global, text: &[u8]) -> Result<Problem, TextFault> {
    let mut reader = ProblemReader::new(alloc);
    reader.feed(text)?;
    reader.finish()
}

/// A session on a problem text, whose steps take their memory from `steps`.
fn session_in<A: Allocator + Copy>(
    rt: &impl Abort,
    alloc: Global,
    steps: A,
    text: &[u8],
    extra: u32,
) -> Session<A> {
    let problem = problem_of(alloc, text).expect(rt, "the problem is read");
    Session::open_in(alloc, steps, &problem, extra).expect(rt, "there is memory to open")
}

/// A session in a box, where its many fields are one: functions that hold one by value are slow to check.
fn boxed<A: Allocator + Copy>(
    rt: &impl Abort,
    alloc: Global,
    session: Session<A>,
) -> Box<Session<A>> {
    Box::new(alloc, session).expect(rt, "there is memory for a box")
}

/// A session as `session_in` gives it, in a box.
pub(crate) fn opened<A: Allocator + Copy>(
    rt: &impl Abort,
    alloc: Global,
    steps: A,
    text: &[u8],
    extra: u32,
) -> Box<Session<A>> {
    boxed(rt, alloc, session_in(rt, alloc, steps, text, extra))
}

/// What is asked of a session.
#[derive(Clone, Copy)]
pub(crate) enum Command {
    Apply(Edit),
    Group(&'static [Edit]),
    Undo,
    Redo,
}

/// What a session answers: the verdict of the moment that it comes to, or why it stays.
#[derive(Clone, Copy, Debug, PartialEq)]
pub(crate) enum Reply {
    Tells(Verdict),
    Refuses(u8),
    NoMemory,
    NoStep,
}

/// The reply to edits that were applied, or refused.
fn reply_to<A: Allocator + Copy>(session: &Session<A>, applied: Result<u64, Refusal>) -> Reply {
    match applied {
        Ok(_) => Reply::Tells(session.verdict()),
        Err(Refusal::Cause(number)) => Reply::Refuses(number),
        Err(Refusal::Memory) => Reply::NoMemory,
    }
}

/// Asks for a group of edits.
fn replied_to_group<A: Allocator + Copy>(session: &mut Session<A>, edits: &[Edit]) -> Reply {
    if edits.len() > GROUP_LIMIT {
        return Reply::Refuses(31);
    }
    let applied = session.apply_group(edits);
    reply_to(session, applied)
}

/// Asks a command of the session.
pub(crate) fn replied<A: Allocator + Copy>(session: &mut Session<A>, command: &Command) -> Reply {
    let moved = match command {
        Command::Apply(edit) => {
            let applied = session.apply(edit);
            return reply_to(session, applied);
        }
        Command::Group(edits) => return replied_to_group(session, edits),
        Command::Undo => session.undo(),
        Command::Redo => session.redo(),
    };
    if moved {
        Reply::Tells(session.verdict())
    } else {
        Reply::NoStep
    }
}

/// A session on a problem, what is asked of it in turn, and the replies.
struct Dialogue {
    shows: &'static str,
    text: &'static [u8],
    extra: u32,
    turns: &'static [(Command, Reply)],
}

static DIALOGUES: [Dialogue; 7] = [
    Dialogue {
        shows: "an undone arc is out of the numbering; a refusal keeps the future, a new edit drops it",
        text: SINGLE_ARC,
        extra: 1000,
        turns: &[
            (Command::Undo, Reply::NoStep),
            (Command::Apply(ADD), Reply::Tells(Verdict::Best(3))),
            (Command::Undo, Reply::Tells(Verdict::Best(12))),
            (
                Command::Apply(Edit::Cap { arc: 2, cap: 1 }),
                Reply::Refuses(20),
            ),
            (Command::Redo, Reply::Tells(Verdict::Best(3))),
            (Command::Undo, Reply::Tells(Verdict::Best(12))),
            (Command::Apply(COST), Reply::Tells(Verdict::Best(9))),
            (Command::Redo, Reply::NoStep),
        ],
    },
    Dialogue {
        shows: "without room an arc is refused, after what is wrong with its ends; an edit that changes nothing is a step",
        text: SINGLE_ARC,
        extra: 0,
        turns: &[
            (Command::Apply(ADD), Reply::Refuses(24)),
            (
                Command::Apply(Edit::Add {
                    tail: 1,
                    head: 3,
                    low: 0,
                    cap: 5,
                    cost: 1,
                }),
                Reply::Refuses(21),
            ),
            (
                Command::Apply(Edit::Cap { arc: 1, cap: 5 }),
                Reply::Tells(Verdict::Best(12)),
            ),
            (Command::Undo, Reply::Tells(Verdict::Best(12))),
            (Command::Undo, Reply::NoStep),
        ],
    },
    Dialogue {
        shows: "a greatest flow takes no costs, and follows arcs that are closed, widened and added",
        text: MAX_DIAMOND,
        extra: 1000,
        turns: &[
            (
                Command::Apply(Edit::Cost { arc: 1, cost: 2 }),
                Reply::Refuses(23),
            ),
            (
                Command::Apply(Edit::Close { arc: 5 }),
                Reply::Tells(Verdict::Best(2)),
            ),
            (Command::Undo, Reply::Tells(Verdict::Best(5))),
            (
                Command::Apply(Edit::Cap { arc: 4, cap: 3 }),
                Reply::Tells(Verdict::Best(5)),
            ),
            (
                Command::Apply(Edit::Add {
                    tail: 1,
                    head: 4,
                    low: 0,
                    cap: 2,
                    cost: 0,
                }),
                Reply::Tells(Verdict::Best(7)),
            ),
            (Command::Undo, Reply::Tells(Verdict::Best(5))),
            (Command::Redo, Reply::Tells(Verdict::Best(7))),
        ],
    },
    Dialogue {
        shows: "a pair that was closed is chosen again once the steps are undone, its cost edited meanwhile",
        text: PAIR,
        extra: 1000,
        turns: &[
            (Command::Apply(CLOSE), Reply::Tells(Verdict::Infeasible(1))),
            (Command::Apply(COST), Reply::Tells(Verdict::Infeasible(1))),
            (Command::Undo, Reply::Tells(Verdict::Infeasible(1))),
            (Command::Undo, Reply::Tells(Verdict::Best(-5))),
        ],
    },
    Dialogue {
        shows: "a group is one step",
        text: SINGLE_ARC,
        extra: 0,
        turns: &[
            (Command::Group(SUPPLIES), Reply::Tells(Verdict::Best(16))),
            (Command::Undo, Reply::Tells(Verdict::Best(12))),
            (Command::Redo, Reply::Tells(Verdict::Best(16))),
            (Command::Undo, Reply::Tells(Verdict::Best(12))),
            (Command::Undo, Reply::NoStep),
        ],
    },
    Dialogue {
        shows: "a refused group changes nothing, and the future is kept",
        text: DIAMOND,
        extra: 0,
        turns: &[
            (Command::Group(NO_ARC), Reply::Refuses(20)),
            (Command::Undo, Reply::NoStep),
            (Command::Apply(NARROW), Reply::Tells(Verdict::Best(15))),
            (Command::Undo, Reply::Tells(Verdict::Best(14))),
            (Command::Group(NO_ARC), Reply::Refuses(20)),
            (Command::Redo, Reply::Tells(Verdict::Best(15))),
        ],
    },
    Dialogue {
        shows: "a group without edits is a step",
        text: DIAMOND,
        extra: 0,
        turns: &[
            (Command::Apply(NARROW), Reply::Tells(Verdict::Best(15))),
            (Command::Undo, Reply::Tells(Verdict::Best(14))),
            (Command::Group(&[]), Reply::Tells(Verdict::Best(14))),
            (Command::Redo, Reply::NoStep),
            (Command::Undo, Reply::Tells(Verdict::Best(14))),
            (Command::Undo, Reply::NoStep),
        ],
    },
];

/// Asks each command of the session in turn, and compares its reply.
fn follow(rt: &impl Abort, session: &mut Session, dialogue: &Dialogue) {
    for (command, expected) in dialogue.turns {
        assert!(rt;
            replied(session, command) == *expected,
            "{}",
            dialogue.shows
        );
    }
}

/// Holds the dialogue with a session on its problem.
fn converse(rt: &impl Abort, alloc: Global, dialogue: &Dialogue) {
    let mut session = opened(rt, alloc, alloc, dialogue.text, dialogue.extra);
    follow(rt, &mut session, dialogue);
}

#[test]
fn replies(rt: HostRuntime) {
    for dialogue in &DIALOGUES {
        converse(&rt, rt.alloc(), dialogue);
    }
}

/// An edit of a problem, and the least and the greatest number of pushes that it may take.
struct Work {
    shows: &'static str,
    text: &'static [u8],
    edit: Edit,
    least: u64,
    most: u64,
}

static WORK: [Work; 3] = [
    Work {
        shows: "what the narrowed arc loses is one unit, sent another way",
        text: DIAMOND,
        edit: NARROW,
        least: 1,
        most: 1,
    },
    Work {
        shows: "an edit that changes nothing takes no push",
        text: SINGLE_ARC,
        edit: Edit::Cap { arc: 1, cap: 5 },
        least: 0,
        most: 0,
    },
    Work {
        shows: "no more pushes than the dearer arc carries",
        text: EQUAL_ARCS,
        edit: Edit::Cost { arc: 1, cost: 9 },
        least: 0,
        most: 5,
    },
];

/// How many pushes the edit takes.
fn pushes_of(rt: &impl Abort, alloc: Global, work: &Work) -> u64 {
    let mut session = opened(rt, alloc, alloc, work.text, 0);
    session.apply(&work.edit).expect(rt, work.shows)
}

#[test]
fn pushes(rt: HostRuntime) {
    for work in &WORK {
        let pushes = pushes_of(&rt, rt.alloc(), work);
        assert!(rt;
            work.least <= pushes && pushes <= work.most,
            "{}",
            work.shows
        );
    }
}

/// How many pushes the group of capacities takes.
fn pushes_of_group(rt: &impl Abort, alloc: Global) -> u64 {
    let mut session = opened(rt, alloc, alloc, DIAMOND, 0);
    session
        .apply_group(CAPACITIES)
        .expect(rt, "the group is taken")
}

#[test]
fn pushes_of_a_group(rt: HostRuntime) {
    let pushes = pushes_of_group(&rt, rt.alloc());
    assert!(&rt; 1 <= pushes && pushes <= 4);
}

/// Asks for a group of as many edits as one may have, all the same.
fn apply_longest(rt: &impl Abort, alloc: Global, session: &mut Session) {
    let edits = vec![in alloc; NARROW; GROUP_LIMIT].expect(rt, "there is memory for the edits");
    let reply = replied_to_group(session, &edits);
    assert!(rt; reply == Reply::Tells(Verdict::Best(15)));
    assert!(rt; session.steps() == (1, 0));
}

#[test]
fn longest_group(rt: HostRuntime) {
    let mut session = opened(&rt, rt.alloc(), rt.alloc(), DIAMOND, 0);
    apply_longest(&rt, rt.alloc(), &mut session);
}

/// What a record holds, to be compared whole.
#[derive(Clone, Copy, PartialEq)]
pub(crate) struct Differences<'a> {
    pub(crate) parts: &'a [Part],
    pub(crate) flows: &'a [(u32, i64)],
    pub(crate) potentials: &'a [(u32, i64)],
    pub(crate) marks: &'a [(u32, bool)],
    pub(crate) verdict: Verdict,
}

/// What the record of a step holds.
pub(crate) fn differences_at<A: Allocator + Copy>(
    session: &Session<A>,
    i: usize,
) -> Option<Differences<'_>> {
    let record = session.moved(i)?;
    Some(Differences {
        parts: &record.parts,
        flows: &record.flows,
        potentials: &record.potentials,
        marks: &record.marks,
        verdict: record.verdict,
    })
}

/// An edit of a problem, and what its record holds once it is done and once it is undone.
struct Step {
    shows: &'static str,
    text: &'static [u8],
    edit: Edit,
    done: Differences<'static>,
    undone: Differences<'static>,
}

static STEPS: [Step; 4] = [
    Step {
        shows: "the flow, the potentials and the capacity that a narrowed arc gave up",
        text: DIAMOND,
        edit: NARROW,
        done: Differences {
            parts: &[Part::Arc {
                k: 5,
                row: ArcRow {
                    tail: 3,
                    head: 4,
                    low: 0,
                    cap: 5,
                    cost: 1,
                },
            }],
            flows: &[(3, 2), (4, 0), (5, 4)],
            potentials: &[(1, -4), (2, -2), (3, -1)],
            marks: &[],
            verdict: Verdict::Best(14),
        },
        undone: Differences {
            parts: &[Part::Arc {
                k: 5,
                row: ArcRow {
                    tail: 3,
                    head: 4,
                    low: 0,
                    cap: 3,
                    cost: 1,
                },
            }],
            flows: &[(3, 1), (4, 1), (5, 3)],
            potentials: &[(1, -5), (2, -3), (3, -2)],
            marks: &[],
            verdict: Verdict::Best(15),
        },
    },
    Step {
        shows: "an added arc that is there is named alone, an undone one with its row and its flow",
        text: SINGLE_ARC,
        edit: ADD,
        done: Differences {
            parts: &[Part::Last],
            flows: &[(1, 3)],
            potentials: &[(1, -4)],
            marks: &[],
            verdict: Verdict::Best(12),
        },
        undone: Differences {
            parts: &[Part::Gone {
                row: ArcRow {
                    tail: 1,
                    head: 2,
                    low: 0,
                    cap: 5,
                    cost: 1,
                },
                flow: 3,
            }],
            flows: &[(1, 0)],
            potentials: &[(1, -1)],
            marks: &[],
            verdict: Verdict::Best(3),
        },
    },
    Step {
        shows: "the flow of a return arc is in no record",
        text: MAX_DIAMOND,
        edit: Edit::Close { arc: 5 },
        done: Differences {
            parts: &[Part::Arc {
                k: 5,
                row: ArcRow {
                    tail: 3,
                    head: 4,
                    low: 0,
                    cap: 3,
                    cost: 0,
                },
            }],
            flows: &[(1, 3), (2, 2), (3, 1), (5, 3)],
            potentials: &[(2, 0), (3, 0)],
            marks: &[],
            verdict: Verdict::Best(5),
        },
        undone: Differences {
            parts: &[Part::Arc {
                k: 5,
                row: ArcRow {
                    tail: 3,
                    head: 4,
                    low: 0,
                    cap: 0,
                    cost: 0,
                },
            }],
            flows: &[(1, 2), (2, 0), (3, 0), (5, 0)],
            potentials: &[(2, -1), (3, -1)],
            marks: &[],
            verdict: Verdict::Best(2),
        },
    },
    Step {
        shows: "where no pairing is left the cut comes, and goes with the undo",
        text: PAIR,
        edit: CLOSE,
        done: Differences {
            parts: &[Part::Arc {
                k: 1,
                row: ArcRow {
                    tail: 1,
                    head: 2,
                    low: 0,
                    cap: 1,
                    cost: -5,
                },
            }],
            flows: &[(1, 1)],
            potentials: &[],
            marks: &[(1, false)],
            verdict: Verdict::Best(-5),
        },
        undone: Differences {
            parts: &[Part::Arc {
                k: 1,
                row: ArcRow {
                    tail: 1,
                    head: 2,
                    low: 0,
                    cap: 0,
                    cost: -5,
                },
            }],
            flows: &[(1, 0)],
            potentials: &[],
            marks: &[(1, true)],
            verdict: Verdict::Infeasible(1),
        },
    },
];

/// Compares the record of the only step of a session.
fn compare_record(rt: &impl Abort, session: &Session, expected: Differences<'_>, shows: &str) {
    assert!(rt; differences_at(session, 0) == Some(expected), "{shows}");
    assert!(rt; session.moved(1).is_none(), "{shows}");
}

/// Goes to and fro over a step that was taken, and compares its record each time: with `done` and with `undone`.
pub(crate) fn go_to_and_fro(
    rt: &impl Abort,
    session: &mut Session,
    done: Differences<'_>,
    undone: Differences<'_>,
    shows: &str,
) {
    assert!(rt; session.steps() == (1, 0), "{shows}");
    compare_record(rt, session, done, shows);
    assert!(rt; session.undo(), "{shows}");
    assert!(rt; session.steps() == (0, 1), "{shows}");
    compare_record(rt, session, undone, shows);
    assert!(rt; session.redo(), "{shows}");
    compare_record(rt, session, done, shows);
}

/// Takes the step on a session on its problem.
fn take(rt: &impl Abort, alloc: Global, step: &Step) {
    let mut session = opened(rt, alloc, alloc, step.text, 1000);
    replied(&mut session, &Command::Apply(step.edit));
    go_to_and_fro(rt, &mut session, step.done, step.undone, step.shows);
}

#[test]
fn records(rt: HostRuntime) {
    for step in &STEPS {
        take(&rt, rt.alloc(), step);
    }
}

/// The marks and the verdict of the record of the first step.
fn marks_and_verdict(session: &Session) -> Option<(&[(u32, bool)], Verdict)> {
    let record = session.moved(0)?;
    Some((&record.marks, record.verdict))
}

/// Starves the diamond: a cut comes.
fn starve(rt: &impl Abort, session: &mut Session) {
    let reply = replied(session, &Command::Apply(STARVE));
    assert!(rt; reply == Reply::Tells(Verdict::Infeasible(1)));
    assert!(rt; session.cut() == [true, false, false, false].as_slice());
    let expected = ([(1, false)].as_slice(), Verdict::Best(14));
    assert!(rt; marks_and_verdict(session) == Some(expected));
}

/// Takes that back: the cut goes, and all else is as at the opening.
fn feed_again(rt: &impl Abort, session: &mut Session) {
    assert!(rt; session.undo());
    assert!(rt; session.cut() == [false; 4].as_slice());
    let expected = ([(1, true)].as_slice(), Verdict::Infeasible(1));
    assert!(rt; marks_and_verdict(session) == Some(expected));
    assert!(rt; session.potentials() == [-4, -2, -1, 0].as_slice());
    assert!(rt; session.flow() == [2, 2, 2, 0, 4].as_slice());
}

#[test]
fn cuts_come_and_go(rt: HostRuntime) {
    let mut session = opened(&rt, rt.alloc(), rt.alloc(), DIAMOND, 0);
    starve(&rt, &mut session);
    feed_again(&rt, &mut session);
}
