//! Lines that are cut, and their words.

use dimacs_lines::{LineCutter, is_blank, line_end, next_integer, next_natural};
use std::process::Abort;

/// The cutter takes so many bytes of a piece, and they end its line or do not.
fn expect_taken(rt: &impl Abort, cutter: &mut LineCutter, piece: &[u8], taken: usize, ended: bool) {
    assert!(rt; cutter.take(piece) == (taken, ended));
}

#[test]
fn a_line_is_cut(rt: HostRuntime) {
    let mut cutter = LineCutter::new();
    expect_taken(&rt, &mut cutter, b" \t", 2, false);
    assert!(rt; cutter.begun());
    expect_taken(&rt, &mut cutter, b"\r\nn 1", 2, true);
    assert!(rt; !cutter.begun());
    match cutter.line() {
        Some(line) => assert!(rt; line == b" \t\r".as_slice() && is_blank(line)),
        None => panic!(rt; "the line fits"),
    }
}

#[test]
fn numbers_are_read_where_they_stand(rt: HostRuntime) {
    let text = b"a 12 \t007 -5\r\n".as_slice();
    assert!(rt; next_natural(text, 1) == Some((12, 4)));
    assert!(rt; next_natural(text, 4) == Some((7, 9)));
    assert!(rt; next_natural(text, 9).is_none());
    assert!(rt; next_integer(text, 9) == Some((-5, 12)));
    assert!(rt; line_end(text, 9).is_none());
    assert!(rt; line_end(text, 12) == Some(14));
}
