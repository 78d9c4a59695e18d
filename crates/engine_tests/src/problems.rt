//! Problems on which the engines are run, and how many bytes a device passes.

use std::process::Abort;

pub(crate) const SINGLE_ARC: &[u8] = b"p min 2 1\nn 1 3\nn 2 -3\na 1 2 0 5 4\n";

pub(crate) const RIGHT_ANSWER: &[u8] = b"s 12\nf 1 2 3\nv 1 -4\nv 2 0\n";

pub(crate) const DIAMOND: &[u8] =
    b"p min 4 5\nn 1 4\nn 4 -4\na 1 2 0 4 2\na 1 3 0 2 2\na 2 3 0 2 1\na 2 4 0 3 3\na 3 4 0 5 1\n";

pub(crate) const DIAMOND_SOLVED: &[u8] =
    b"s 14\nf 1 2 2\nf 1 3 2\nf 2 3 2\nf 2 4 0\nf 3 4 4\nv 1 -4\nv 2 -2\nv 3 -1\nv 4 0\n";

pub(crate) const SURPLUS: &[u8] = b"p min 2 1\nn 1 1\na 1 2 0 5 1\n";

pub(crate) const PARALLEL_ARCS: &[u8] = b"p min 2 2\nn 1 2\nn 2 -2\na 1 2 0 2 1\na 1 2 1 2 5\n";

/// Two arcs that serve equally well.
pub(crate) const EQUAL_ARCS_SAME_BLOCK: &[u8] =
    b"p min 2 2\nn 1 3\nn 2 -3\na 1 2 0 5 4\na 1 2 0 5 4\n";

pub(crate) const MAX_DIAMOND: &[u8] =
    b"p max 4 5\nn 1 s\nn 4 t\na 1 2 3\na 1 3 2\na 2 3 1\na 2 4 2\na 3 4 3\n";

pub(crate) const MAX_WITHOUT_ARCS: &[u8] = b"p max 2 0\nn 1 s\nn 2 t\n";

pub(crate) const PAIRS: &[u8] = b"p asn 4 4\nn 1\nn 2\na 1 3 5\na 1 4 2\na 2 3 1\na 2 4 4\n";

pub(crate) const CLOSED_PAIR: &[u8] = b"p asn 2 1\nn 1\na 1 2 -5\n";

pub(crate) const LONE_NODE: &[u8] = b"p min 1 0\n";

pub(crate) const GAINFUL_CYCLE: &[u8] = b"p min 2 2\na 1 2 0 3 -2\na 2 1 0 4 1\n";

pub(crate) const DEFICIT: &[u8] = b"p min 2 1\nn 2 -1\na 1 2 0 5 1\n";

pub(crate) const GREATEST_PRODUCT: &[u8] =
    b"p min 2 1\nn 1 1000000000\nn 2 -1000000000\na 1 2 0 1000000000 1000000000\n";

pub(crate) const GREATEST_LARGER_PRODUCT: &[u8] =
    b"p min 2 1\nn 1 1000000000\nn 2 -1000000000\na 1 2 0 1000000000 1000000000000\n";

pub(crate) const UNFED_LOWER_BOUND: &[u8] = b"p min 2 1\na 1 2 2 5 1\n";

pub(crate) const FIRST_FORM_COMES_FIRST: &[u8] = b"p min 3 1\nn 1 1\nn 2 -3\na 3 2 0 1 1\n";

/// Its first two arcs may carry one unit round, or none.
pub(crate) const MAX_TWO_BEST_FLOWS: &[u8] =
    b"p max 3 3\nn 1 s\nn 3 t\na 1 2 2\na 2 1 1\na 2 3 1\n";

pub(crate) const LONE_SINK_SIDE_NODE: &[u8] = b"p asn 1 0\n";

pub(crate) const ONE_AGAINST_TWO: &[u8] = b"p asn 3 2\nn 1\na 1 2 1\na 1 3 1\n";

/// The problems that are small, with their names in tables.
pub(crate) fn problems() -> [(&'static str, &'static [u8]); 19] {
    [
        ("SINGLE_ARC", SINGLE_ARC),
        ("DIAMOND", DIAMOND),
        ("SURPLUS", SURPLUS),
        ("PARALLEL_ARCS", PARALLEL_ARCS),
        ("EQUAL_ARCS_SAME_BLOCK", EQUAL_ARCS_SAME_BLOCK),
        ("MAX_DIAMOND", MAX_DIAMOND),
        ("MAX_WITHOUT_ARCS", MAX_WITHOUT_ARCS),
        ("PAIRS", PAIRS),
        ("CLOSED_PAIR", CLOSED_PAIR),
        ("LONE_NODE", LONE_NODE),
        ("GAINFUL_CYCLE", GAINFUL_CYCLE),
        ("DEFICIT", DEFICIT),
        ("GREATEST_PRODUCT", GREATEST_PRODUCT),
        ("GREATEST_LARGER_PRODUCT", GREATEST_LARGER_PRODUCT),
        ("UNFED_LOWER_BOUND", UNFED_LOWER_BOUND),
        ("FIRST_FORM_COMES_FIRST", FIRST_FORM_COMES_FIRST),
        ("MAX_TWO_BEST_FLOWS", MAX_TWO_BEST_FLOWS),
        ("LONE_SINK_SIDE_NODE", LONE_SINK_SIDE_NODE),
        ("ONE_AGAINST_TWO", ONE_AGAINST_TWO),
    ]
}

/// The problem of this name.
pub(crate) fn problem_of(rt: &impl Abort, name: &str) -> &'static [u8] {
    for (known, problem) in problems() {
        if known == name {
            return problem;
        }
    }
    panic!(rt; "no problem is named {name}");
}

/// How many bytes a device passes in one call.
pub(crate) const PIECES: [usize; 6] = [1, 2, 7, 1024, 1025, 100_000];
