//! Marks in a session, from commands to replies.

use crate::running::expect_dialogues;

/// A problem, commands with marks, and what is written.
const MARKS: &str = "\
DIAMOND|mark a/cap 5 3/mark b/back a/back b/undo/cap 4 3/back b/back a/mark 1x/|s 14/s 14/s 15/s 15/s 14/s 15/s 14/s 14/r 28/s 14/r 32/
# A mark that is moved, and one that is moved from a future moment.
DIAMOND|mark a/cap 5 3/mark a/undo/back a/undo/mark a/redo/back a/undo/|s 14/s 14/s 15/s 15/s 14/s 15/s 14/s 14/s 15/s 14/r 25/
# A mark is no step, and not undone: nothing is undone but edits, and what they dropped stays dropped.
DIAMOND|mark a/undo/cap 5 3/mark b/undo/undo/back b/undo/redo/back b/redo/|s 14/s 14/r 25/s 15/s 15/s 14/r 25/s 15/s 14/s 15/s 15/r 26/
# Over more than one step, with the records of each, to the very flows.
DIAMOND|mark a/show/cap 5 3/cap 1 1/cap 5 5/mark b/back a/show/back b/show/back a/redo/show/|s 14/s 14/s 14/f 1 2 2/f 1 3 2/f 2 3 2/f 2 4 0/f 3 4 4/s 15/i 1/i 1/i 1/s 14/s 14/f 1 2 2/f 1 3 2/f 2 3 2/f 2 4 0/f 3 4 4/i 1/i 1/k 1/s 14/s 15/s 15/f 1 2 2/f 1 3 2/f 2 3 1/f 2 4 1/f 3 4 3/
# More than one name on a moment, and the moment that is present.
DIAMOND|mark a/mark b/back a/back b/cap 5 3/back b/back a/back a/redo/|s 14/s 14/s 14/s 14/s 14/s 15/s 14/s 14/s 14/s 15/
# On a moment without a legal flow.
DIAMOND|cap 1 1/mark low/undo/back low/show/|s 14/i 1/i 1/s 14/i 1/i 1/k 1/
# On an arc that is added, and whose number is free where it is not there.
SINGLE_ARC|mark old/add 1 2 0 5 1/mark new/back old/cap 2 1/back new/cap 2 1/back new/back old/cap 1 3/back new/|s 12/s 12/s 3/s 3/s 12/r 20/s 3/s 9/s 3/s 12/s 12/r 28/
# What is refused keeps all marks.
DIAMOND|cap 5 3/mark a/undo/cap 9 1/fly/group/cap 1 1/cap 9 1/end/end/mark 1/back b/back a/redo/|s 14/s 15/s 15/s 14/r 20/r 2/r 20/r 29/r 32/r 28/s 15/r 26/
# A group takes away the marks of the moments that it drops, and no others; a group without edits too.
DIAMOND|mark a/cap 5 3/mark b/undo/group/cap 1 1/cap 2 3/end/back b/mark b/back a/back b/undo/group/end/back b/back a/|s 14/s 14/s 15/s 15/s 14/s 13/r 28/s 13/s 14/s 13/s 14/s 14/r 28/s 14/
# The marks of the present and of the past stay.
DIAMOND|mark a/cap 5 3/mark b/cap 5 5/mark c/undo/cap 1 1/back c/back b/back a/|s 14/s 14/s 15/s 15/s 14/s 14/s 15/i 1/r 28/s 15/s 14/
# In a group they are no edits, where they read as such lines.
DIAMOND|mark a/group/mark b/end/group/back a/end/group/mark 1x/end/group/back a-b/end/group/mark/end/group/back a b/end/back b/|s 14/s 14/r 29/r 29/r 32/r 32/r 3/r 3/r 28/
# Names are told apart by each letter, by how many they are and by small and large ones.
DIAMOND|mark aB/cap 5 3/mark ab/back aB/back ab/back a/back aBc/back AB/back Ba/|s 14/s 14/s 15/s 15/s 14/s 15/r 28/r 28/r 28/r 28/
# One field, and then letters alone.
DIAMOND|mark/mark a b/back/back 1 2/mark a_b/back 7/mark [/mark @/mark `/mark {/mark ä/MARK a/marks a/|s 14/r 3/r 3/r 3/r 3/r 32/r 32/r 32/r 32/r 32/r 32/r 32/r 2/r 2/
DIAMOND|\tmark  Zz \r// cap 5 3/back\tZz|s 14/s 14/s 15/s 14/
# The other kinds.
MAX_DIAMOND|mark a/close 5/mark b/back a/back b/back c/|s 5/s 5/s 2/s 2/s 5/s 2/r 28/
CLOSED_PAIR|mark a/close 1/mark b/back a/back b/show/|s -5/s -5/i 1/i 1/s -5/i 1/i 1/k 1/
# A name may be a verb.
DIAMOND|mark back/cap 5 3/mark undo/back back/back undo/undo/|s 14/s 14/s 15/s 15/s 14/s 15/s 14/
";

/// Sixteen names, each marked on the opening moment but the last, which is on the next.
const SIXTEEN: &str =
    "mark a/mark b/mark c/mark d/mark e/mark f/mark g/mark h/mark i/mark j/mark k/mark l/mark m/mark n/mark o/cap 5 3/mark p/";

const SIXTEEN_REPLIES: &str =
    "s 14/s 14/s 14/s 14/s 14/s 14/s 14/s 14/s 14/s 14/s 14/s 14/s 14/s 14/s 14/s 14/s 15/s 15/";

/// A problem, commands after sixteen names are marked, and what is written for these.
const AT_THEIR_LIMITS: &str = "\
# A seventeenth name is refused, and a name that has a mark is marked again.
DIAMOND|mark q/mark a/mark p/mark q/back b/back a/back q/|r 33/s 15/s 15/r 33/s 14/s 15/r 28/
# A name is free again where its moment is dropped.
DIAMOND|undo/mark q/cap 4 3/mark q/back p/mark p/back q/|s 14/r 33/s 14/s 14/r 28/r 33/s 14/
# 32 letters, and 33.
DIAMOND|back abcdefghijklmnopqrstuvwxyzABCDEF/back abcdefghijklmnopqrstuvwxyzABCDEFG/mark abcdefghijklmnopqrstuvwxyzABCDEF/mark abcdefghijklmnopqrstuvwxyzABCDEFG/|r 28/r 32/r 33/r 32/
DIAMOND|undo/cap 4 3/mark abcdefghijklmnopqrstuvwxyzABCDEF/back a/back abcdefghijklmnopqrstuvwxyzABCDEF/back abcdefghijklmnopqrstuvwxyzABCDE/|s 14/s 14/s 14/s 14/s 14/r 28/
";

#[test]
fn marks_are_answered_so_in_any_pieces(rt: HostRuntime) {
    expect_dialogues(&rt, rt.alloc(), 1000, "", "", MARKS);
}

#[test]
fn sixteen_names_are_marked(rt: HostRuntime) {
    expect_dialogues(
        &rt,
        rt.alloc(),
        1000,
        SIXTEEN,
        SIXTEEN_REPLIES,
        AT_THEIR_LIMITS,
    );
}
