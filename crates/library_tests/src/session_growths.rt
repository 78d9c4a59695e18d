//! Each growth of an edit, and of a group of edits, refused in turn.

use crate::sessions::{
    ADD, ADD_PAIR, CAPACITIES, CLOSE_SECOND, COST, Command, DIAMOND, NARROW, PAIRS, Reply,
    SINGLE_ARC, STARVE, differences_at, opened, replied,
};
use dimacs_text::Edit;
use network::Network;
use refusing::Refusing;
use session::Session;
use std::alloc::{Allocator, Global};
use std::process::Abort;

/// More growths than any edit or group takes.
const MOST: u64 = 32;

/// An edit at a moment to which some steps lead.
struct Case {
    shows: &'static str,
    text: &'static [u8],
    before: &'static [Command],
    edit: Edit,
}

static CASES: [Case; 7] = [
    Case {
        shows: "a flow, potentials and a place in an empty history",
        text: DIAMOND,
        before: &[],
        edit: NARROW,
    },
    Case {
        shows: "a cut",
        text: DIAMOND,
        before: &[],
        edit: STARVE,
    },
    Case {
        shows: "the future of an undone step is kept",
        text: DIAMOND,
        before: &[Command::Apply(NARROW), Command::Undo],
        edit: STARVE,
    },
    Case {
        shows: "an arc that was added is taken away again",
        text: SINGLE_ARC,
        before: &[],
        edit: ADD,
    },
    Case {
        shows: "an undone arc can still be done again",
        text: SINGLE_ARC,
        before: &[Command::Apply(ADD), Command::Undo],
        edit: COST,
    },
    Case {
        shows: "a pair",
        text: PAIRS,
        before: &[],
        edit: CLOSE_SECOND,
    },
    Case {
        shows: "a pair that was added is taken away again",
        text: PAIRS,
        before: &[Command::Apply(CLOSE_SECOND), Command::Undo],
        edit: ADD_PAIR,
    },
];

/// What is asked at a moment to which some steps lead.
#[derive(Drop)]
struct Trial {
    shows: &'static str,
    text: &'static [u8],
    before: &'static [Command],
    asked: Command,
}

static GROUPS: [Trial; 2] = [
    Trial {
        shows: "the rows of two arcs",
        text: DIAMOND,
        before: &[],
        asked: Command::Group(CAPACITIES),
    },
    Trial {
        shows: "the future of an undone group is kept",
        text: DIAMOND,
        before: &[Command::Group(CAPACITIES), Command::Undo],
        asked: Command::Group(&[NARROW, STARVE]),
    },
];

/// The trial of a case.
fn trial_of(case: &Case) -> Trial {
    Trial {
        shows: case.shows,
        text: case.text,
        before: case.before,
        asked: Command::Apply(case.edit),
    }
}

/// Whether two networks have the same arcs and supplies.
fn same_network(network: &Network, twin: &Network) -> bool {
    for k in 0..twin.arcs().saturating_add(2) {
        if network.arc(k) != twin.arc(k) {
            return false;
        }
    }
    for id in 0..twin.nodes().saturating_add(2) {
        if network.reduced_supply(id) != twin.reduced_supply(id) {
            return false;
        }
    }
    network.arcs() == twin.arcs()
}

/// Whether two sessions have the same steps, with the same records.
fn same_steps<A: Allocator + Copy>(session: &Session<A>, twin: &Session) -> bool {
    let (past, future) = twin.steps();
    for i in 0..past.saturating_add(future).saturating_add(1) {
        if differences_at(session, i) != differences_at(twin, i) {
            return false;
        }
    }
    session.steps() == (past, future)
}

/// Whether two sessions show the same.
fn same_views<A: Allocator + Copy>(session: &Session<A>, twin: &Session) -> bool {
    same_network(session.network(), twin.network())
        && session.verdict() == twin.verdict()
        && session.flow() == twin.flow()
        && session.potentials() == twin.potentials()
        && session.cut() == twin.cut()
        && same_steps(session, twin)
}

/// Takes the steps before what is asked.
fn bring<A: Allocator + Copy>(session: &mut Session<A>, trial: &Trial) {
    for command in trial.before {
        replied(session, command);
    }
}

/// Whether what is asked is refused for want of memory, where growths are planned to be refused. Then all is as before, as
/// the twin shows, and else the twin is asked it too. Another step has to lead to the same place.
fn is_refused<A: Allocator + Copy>(
    rt: &impl Abort,
    session: &mut Session<A>,
    twin: &mut Session,
    trial: &Trial,
) -> bool {
    let refused = replied(session, &trial.asked) == Reply::NoMemory;
    if !refused {
        replied(twin, &trial.asked);
    }
    assert!(rt; same_views(session, twin), "{}", trial.shows);
    assert!(rt; session.redo() == twin.redo(), "{}", trial.shows);
    assert!(rt; same_views(session, twin), "{}", trial.shows);
    refused
}

/// Whether what is asked is refused, where so many growths of it are served and so many refused after those. A fresh session
/// is brought to its moment, since a place in the history that was served stays reserved.
fn refuses(rt: &impl Abort, alloc: Global, trial: &Trial, served: u64, refused: u64) -> bool {
    let memory = Refusing::new(alloc);
    let mut session = opened(rt, alloc, &memory, trial.text, 1000);
    let mut twin = opened(rt, alloc, alloc, trial.text, 1000);
    bring(&mut session, trial);
    bring(&mut twin, trial);
    memory.plan(served, refused);
    let answer = is_refused(rt, &mut session, &mut twin, trial);
    assert!(rt;
        answer == (memory.refused_left() < refused),
        "{}",
        trial.shows
    );
    answer
}

/// How many growths of what is asked are refused in turn before none is.
fn growths(rt: &impl Abort, alloc: Global, trial: &Trial, refused: u64) -> u64 {
    for served in 0..MOST {
        if !refuses(rt, alloc, trial, served, refused) {
            return served;
        }
    }
    MOST
}

#[test]
fn each_growth_of_an_edit_is_refused_in_turn(rt: HostRuntime) {
    for case in &CASES {
        for refused in [1, u64::MAX] {
            let growths = growths(&rt, rt.alloc(), &trial_of(case), refused);
            assert!(rt; 2 <= growths && growths < MOST, "{}", case.shows);
        }
    }
}

#[test]
fn each_growth_of_a_group_is_refused_in_turn(rt: HostRuntime) {
    for trial in &GROUPS {
        for refused in [1, u64::MAX] {
            let growths = growths(&rt, rt.alloc(), trial, refused);
            assert!(rt; 2 <= growths && growths < MOST, "{}", trial.shows);
        }
    }
}
