//! Each growth of a history refused in turn.

ghost use Rattle.std.specs.Prelude.{◌≡◌, ◌<◌};
ghost use Rattle.std.proofs.Common.{◌∙◌, arith};
ghost use Rattle.std.proofs.lemmas.List.{set-set, set-get_or};

use crate::tests::{MEMORY, Place, board_of};
use crate::{Change, History};
use refusing::Refusing;
use std::alloc::{AllocError, Allocator, Global};
use std::process::Abort;

/// More growths than any call of a history takes.
const MOST: u64 = 9;

/// The places changed, and the values there.
fn changes_of<A: Allocator>(history: &History<Place, A>) -> [Option<(usize, i64)>; 3] {
    let shown = |i: usize| history.change(i).map(|place| (place.at, place.value));
    [shown(0), shown(1), shown(2)]
}

/// Reserves a place, after each growth for it was refused in turn. Gives how many growths that were.
fn reserve_after_refusals<'a>(
    rt: &impl Abort,
    memory: &'a Refusing<Global>,
    history: &mut History<Place, &'a Refusing<Global>>,
) -> u64
    ensures past { history.new.past ≡ history.old.past }
    ensures future { history.new.future ≡ history.old.future }
    ensures room { 0 < history.new.room }
{
    for served in 0..MOST {
        let steps = history.steps();
        let changes = changes_of(history);
        memory.plan(served, 1);
        match history.reserve_one() {
            Ok(()) => {
                assert_eq!(rt; memory.refused_left(), 1, "a refusal was passed over");
                memory.plan(0, 0);
                return served;
            }
            Err(AllocError) => {
                assert_eq!(rt; memory.refused_left(), 0, "nothing was refused");
                assert_eq!(rt; history.steps(), steps);
                assert_eq!(rt; changes_of(history), changes);
            }
        }
    }
    assert!(rt; false, "no end of growths");
    MOST
}

#[test]
fn each_growth_is_refused_in_turn(rt: HostRuntime) {
    let memory = Refusing::new(rt.alloc());
    let mut board = board_of(rt.alloc(), 7).expect(&rt, MEMORY);
    let mut history = History::new(&memory);
    let growths = reserve_after_refusals(&rt, &memory, &mut history);
    assert!(rt; growths > 0);
    let mut change = Place { at: 0, value: 8 };
    change.swap(&mut board);
    history.push(change);
    assert_eq!(rt; history.steps(), (1, 0));
    assert!(rt; history.undo(&mut board));

    // The future stays where the growth for a new step is refused: a place is there already.
    assert_eq!(rt; reserve_after_refusals(&rt, &memory, &mut history), 0);
    assert!(rt; history.redo(&mut board));
    assert_eq!(rt; board.values.as_slice(), [8].as_slice());
}

#[test]
fn growths_refused_from_then_on(rt: HostRuntime) {
    let memory = Refusing::new(rt.alloc());
    let mut history: History<Place, &Refusing<Global>> = History::new(&memory);
    memory.plan(0, u64::MAX);
    assert!(rt; history.reserve_one().is_err());
    assert!(rt; history.reserve_one().is_err());
    memory.plan(0, 0);
    history.reserve_one().expect(&rt, MEMORY);
}
