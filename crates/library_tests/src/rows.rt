//! Tables of cases: texts of a case a line, whose cells are cut by a space or a `|`.

use std::alloc::Global;
use std::process::Abort;
use std::test::Fail;

/// The cell before the first such letter of a row, and the rest.
pub(crate) fn cut<'a>(rt: &impl Abort, row: &'a str, letter: char) -> (&'a str, &'a str) {
    row.split_once(letter).expect(rt, "a row has one cell more")
}

/// The text of a cell, where a `/` stands for an LF.
pub(crate) fn text_of(rt: &impl Abort, alloc: Global, cell: &str) -> String {
    let text = cell.replace(alloc, '/', "\n");
    text.expect(rt, "there is memory for a text")
}

/// A comment of one byte more than a line may have.
pub(crate) fn long_comment() -> [u8; 1025] {
    let mut text = [b'x'; 1025];
    text[0] = b'c';
    text
}

/// A text that has a fault: the number of the fault, and the faulty line.
#[derive(Drop)]
pub(crate) struct Faulty {
    pub(crate) number: u8,
    pub(crate) line: u64,
    pub(crate) text: String,
}

/// The faulty text of a row: its number, its line and then the text.
pub(crate) fn faulty_of(rt: &impl Abort, alloc: Global, row: &str) -> Result<Faulty, Fail> {
    let (number, rest) = cut(rt, row, ' ');
    let (line, text) = cut(rt, rest, ' ');
    Ok(Faulty {
        number: number.parse()?,
        line: line.parse()?,
        text: text_of(rt, alloc, text),
    })
}
