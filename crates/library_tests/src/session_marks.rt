//! Marks, and moves to the moments that bear them, in worked examples.

use crate::sessions::{CAPACITIES, Command, DIAMOND, NARROW, Reply, STARVE, opened, replied};
use dimacs_text::{Edit, Name};
use flow_solver::Verdict;
use refusing::Refusing;
use session::{MARK_LIMIT, Session};
use std::alloc::{Allocator, Global};
use std::process::Abort;

/// The diamond's fourth arc is as wide as it was.
const SAME: Edit = Edit::Cap { arc: 4, cap: 3 };
/// The diamond's last arc is as wide as at first.
const WIDEN: Edit = Edit::Cap { arc: 5, cap: 5 };
/// A group whose second edit names no arc.
const NO_ARC: &[Edit] = &[STARVE, Edit::Cap { arc: 9, cap: 1 }];
/// Sixteen names of a letter each, and one more.
const NAMES: &[u8] = b"abcdefghijklmnopq";

/// What is asked of a session that has marks.
#[derive(Clone, Copy)]
enum Asked {
    Step(Command),
    Mark(&'static [u8]),
    Back(&'static [u8]),
}

/// The diamond's last arc is narrowed.
const EDIT: Asked = Asked::Step(Command::Apply(NARROW));

const UNDO: Asked = Asked::Step(Command::Undo);

const REDO: Asked = Asked::Step(Command::Redo);

/// The reply before any edit.
const FIRST: Reply = Reply::Tells(Verdict::Best(14));

/// The reply where the last arc is narrowed.
const NARROWED: Reply = Reply::Tells(Verdict::Best(15));

/// The reply where no legal flow exists.
const STARVED: Reply = Reply::Tells(Verdict::Infeasible(1));

/// No moment bears the name.
const NO_MARK: Reply = Reply::Refuses(28);

/// Sixteen other names have marks.
const NO_PLACE: Reply = Reply::Refuses(33);

/// The name of these letters.
fn name_of(rt: &impl Abort, letters: &[u8]) -> Name {
    Name::of(letters).expect(rt, "these are letters")
}

/// The verdict of the moment that a session comes to, or the number of the refusal.
fn reply_to<A: Allocator + Copy>(session: &Session<A>, answer: Result<(), u8>) -> Reply {
    match answer {
        Ok(()) => Reply::Tells(session.verdict()),
        Err(number) => Reply::Refuses(number),
    }
}

/// Puts a mark.
fn marked<A: Allocator + Copy>(rt: &impl Abort, session: &mut Session<A>, letters: &[u8]) -> Reply {
    let answer = session.mark(&name_of(rt, letters));
    reply_to(session, answer)
}

/// Moves to a mark.
fn moved<A: Allocator + Copy>(rt: &impl Abort, session: &mut Session<A>, letters: &[u8]) -> Reply {
    let answer = session.back(&name_of(rt, letters));
    reply_to(session, answer)
}

/// Asks it of the session.
fn answered<A: Allocator + Copy>(
    rt: &impl Abort,
    session: &mut Session<A>,
    asked: &Asked,
) -> Reply {
    match asked {
        Asked::Step(command) => replied(session, command),
        Asked::Mark(letters) => marked(rt, session, letters),
        Asked::Back(letters) => moved(rt, session, letters),
    }
}

/// What is asked of a session on the diamond in turn, and the replies.
struct Dialogue {
    shows: &'static str,
    turns: &'static [(Asked, Reply)],
}

static DIALOGUES: [Dialogue; 6] = [
    Dialogue {
        shows: "marks are moved to and fro; an edit takes away those of the moments that it drops",
        turns: &[
            (Asked::Mark(b"a"), FIRST),
            (EDIT, NARROWED),
            (Asked::Mark(b"b"), NARROWED),
            (Asked::Back(b"a"), FIRST),
            (Asked::Back(b"b"), NARROWED),
            (UNDO, FIRST),
            (Asked::Step(Command::Apply(SAME)), FIRST),
            (Asked::Back(b"b"), NO_MARK),
            (Asked::Back(b"a"), FIRST),
        ],
    },
    Dialogue {
        shows: "a moment without a legal flow bears a mark",
        turns: &[
            (Asked::Step(Command::Apply(STARVE)), STARVED),
            (Asked::Mark(b"starved"), STARVED),
            (UNDO, FIRST),
            (Asked::Back(b"starved"), STARVED),
            (Asked::Back(b"starved"), STARVED),
        ],
    },
    Dialogue {
        shows: "a refused group keeps all marks, and the moments that bear them",
        turns: &[
            (EDIT, NARROWED),
            (Asked::Mark(b"narrow"), NARROWED),
            (UNDO, FIRST),
            (Asked::Mark(b"wide"), FIRST),
            (Asked::Step(Command::Group(NO_ARC)), Reply::Refuses(20)),
            (Asked::Back(b"narrow"), NARROWED),
            (Asked::Back(b"wide"), FIRST),
        ],
    },
    Dialogue {
        shows: "a group is one step: it takes away the marks after the moment that it starts from",
        turns: &[
            (EDIT, NARROWED),
            (Asked::Mark(b"kept"), NARROWED),
            (Asked::Step(Command::Apply(STARVE)), STARVED),
            (Asked::Mark(b"dropped"), STARVED),
            (UNDO, NARROWED),
            (Asked::Step(Command::Group(&[])), NARROWED),
            (Asked::Back(b"dropped"), NO_MARK),
            (Asked::Mark(b"dropped"), NARROWED),
            (UNDO, NARROWED),
            (UNDO, FIRST),
            (Asked::Back(b"dropped"), NARROWED),
            (REDO, Reply::NoStep),
            (Asked::Back(b"kept"), NARROWED),
            (REDO, NARROWED),
        ],
    },
    Dialogue {
        shows: "a name that has a mark takes it along; a mark is not undone",
        turns: &[
            (Asked::Mark(b"here"), FIRST),
            (EDIT, NARROWED),
            (Asked::Mark(b"here"), NARROWED),
            (UNDO, FIRST),
            (Asked::Back(b"here"), NARROWED),
            (UNDO, FIRST),
            (UNDO, Reply::NoStep),
        ],
    },
    Dialogue {
        shows: "names are told apart by their letters, capitals too",
        turns: &[
            (Asked::Back(b"ab"), NO_MARK),
            (Asked::Mark(b"ab"), FIRST),
            (EDIT, NARROWED),
            (Asked::Mark(b"aB"), NARROWED),
            (Asked::Back(b"ac"), NO_MARK),
            (Asked::Back(b"a"), NO_MARK),
            (Asked::Back(b"abc"), NO_MARK),
            (Asked::Back(b"ab"), FIRST),
            (Asked::Back(b"aB"), NARROWED),
        ],
    },
];

/// Asks it all of the session in turn, and compares the replies.
fn follow<A: Allocator + Copy>(
    rt: &impl Abort,
    session: &mut Session<A>,
    turns: &[(Asked, Reply)],
    shows: &str,
) {
    for (asked, expected) in turns {
        assert!(rt; answered(rt, session, asked) == *expected, "{shows}");
    }
}

/// Holds the dialogue with a session.
fn converse(rt: &impl Abort, alloc: Global, dialogue: &Dialogue) {
    let mut session = opened(rt, alloc, alloc, DIAMOND, 1000);
    follow(rt, &mut session, dialogue.turns, dialogue.shows);
}

#[test]
fn marks_and_back(rt: HostRuntime) {
    for dialogue in &DIALOGUES {
        converse(&rt, rt.alloc(), dialogue);
    }
}

/// Puts marks of sixteen names on the present moment.
fn mark_all(rt: &impl Abort, session: &mut Session) {
    for letters in NAMES[..MARK_LIMIT].chunks(1) {
        assert!(rt; marked(rt, session, letters) == FIRST);
    }
}

/// Where sixteen names have marks, only they can be marked. A name whose mark is taken away leaves its place to another.
static AT_THE_LIMIT: &[(Asked, Reply)] = &[
    (Asked::Mark(b"q"), NO_PLACE),
    (Asked::Back(b"q"), NO_MARK),
    (EDIT, NARROWED),
    (Asked::Mark(b"q"), NO_PLACE),
    (Asked::Mark(b"p"), NARROWED),
    (Asked::Back(b"o"), FIRST),
    (Asked::Back(b"p"), NARROWED),
    (UNDO, FIRST),
    (Asked::Step(Command::Apply(SAME)), FIRST),
    (Asked::Back(b"p"), NO_MARK),
    (Asked::Mark(b"q"), FIRST),
    (Asked::Mark(b"p"), NO_PLACE),
];

#[test]
fn seventeen_names(rt: HostRuntime) {
    let mut session = opened(&rt, rt.alloc(), rt.alloc(), DIAMOND, 1000);
    mark_all(&rt, &mut session);
    follow(&rt, &mut session, AT_THE_LIMIT, "seventeen names");
}

/// The diamond is narrowed and widened again.
static TO_AND_FRO: &[(Asked, Reply)] = &[
    (EDIT, NARROWED),
    (Asked::Step(Command::Apply(WIDEN)), FIRST),
];

/// Narrows the diamond and widens it again, so many times.
fn narrow_and_widen(rt: &impl Abort, session: &mut Session, times: usize) {
    for _ in 0..times {
        follow(rt, session, TO_AND_FRO, "many steps");
    }
}

/// The last of many steps, which has a mark, and the way back to the mark before them.
static TO_THE_START: &[(Asked, Reply)] = &[
    (EDIT, NARROWED),
    (Asked::Mark(b"end"), NARROWED),
    (Asked::Back(b"start"), FIRST),
];

#[test]
fn back_over_many_steps(rt: HostRuntime) {
    let mut session = opened(&rt, rt.alloc(), rt.alloc(), DIAMOND, 1000);
    assert!(rt; marked(&rt, &mut session, b"start") == FIRST);
    narrow_and_widen(&rt, &mut session, 150);
    follow(&rt, &mut session, TO_THE_START, "back over many steps");
    assert!(rt; session.steps() == (0, 301));
    assert!(rt; moved(&rt, &mut session, b"end") == NARROWED);
    assert!(rt; session.steps() == (301, 0));
}

/// Narrows the diamond, with a mark before and after, and goes back.
static MARKED: &[(Asked, Reply)] = &[
    (Asked::Mark(b"wide"), FIRST),
    (EDIT, NARROWED),
    (Asked::Mark(b"narrow"), NARROWED),
    (Asked::Back(b"wide"), FIRST),
];

/// Where no growth is served, what takes memory is refused, and keeps all marks.
static REFUSED: &[(Asked, Reply)] = &[
    (Asked::Step(Command::Group(CAPACITIES)), Reply::NoMemory),
    (Asked::Back(b"narrow"), NARROWED),
    (Asked::Mark(b"more"), NARROWED),
    (Asked::Back(b"wide"), FIRST),
    (Asked::Back(b"more"), NARROWED),
];

#[test]
fn refused_growths_keep_marks(rt: HostRuntime) {
    let memory = Refusing::new(rt.alloc());
    let mut session = opened(&rt, rt.alloc(), &memory, DIAMOND, 1000);
    follow(&rt, &mut session, MARKED, "marks");
    memory.plan(0, u64::MAX);
    follow(&rt, &mut session, REFUSED, "refused growths");
    assert!(rt; session.steps() == (1, 0));
}
