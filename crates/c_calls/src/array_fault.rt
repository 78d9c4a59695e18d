//! The first fault of a problem's arrays: each has the number that it has in a text.

ghost use Rattle.std.specs.Prelude.{◌≡◌, ◌≤◌, pos, ◌≤ℤ◌, MatchOption, length};
ghost use Rattle.c_calls.specs.Arrays.{AreFaultless, AreArcsFaultless, AreSuppliesFaultless, IsArcFault, IsEven, IsFirstFault, IsNodeFault, test_bound, test_counts, test_integer, test_natural, test_row};

use crate::arrays::{Arrays, row_at};
use dimacs_text::{
    ARC_LIMIT, ArcRow, CAP_LIMIT, COST_LIMIT, LineFault, NODE_LIMIT, ProblemFault, SUPPLY_LIMIT,
};

/// The first fault of a problem's arrays: that of a node, that of an arc, or that of their counts.
#[repr(C)]
#[derive(Clone, Copy)]
pub struct ArrayFault {
    /// The node whose supply has it, counted from 1, or 0.
    pub node: u32,
    /// The arc that has it, counted from 1, or 0.
    pub arc: u32,
    pub number: u8,
}

/// The least number that no field of a text says.
const NO_NUMBER: u64 = 1_000_000_000_000_000_000;

/// The first fault of arrays: of the counts, else of the first supply that has one, else of the first arc that has one.
pub(crate) fn first_fault(arrays: &Arrays) -> Option<ArrayFault>
    requires { IsEven arrays.now }
    ensures { MatchOption result (AreFaultless arrays.now) (IsFirstFault arrays.now) }
{
    if let Err(fault) = test_counts(arrays) {
        return Some(ArrayFault {
            node: 0,
            arc: 0,
            number: fault.number(),
        });
    }
    if let Some(found) = faulty_node(arrays.supply) {
        return Some(found);
    }
    faulty_arc(arrays)
}

/// The first node whose supply has a fault.
fn faulty_node(supply: &[i64]) -> Option<ArrayFault>
    requires { length supply.now ≤ NODE_LIMIT }
    ensures { MatchOption result (AreSuppliesFaultless supply.now) (IsNodeFault supply.now) }
{
    for (place, value) in supply.iter().enumerate() {
        if let Err(fault) = test_integer(*value, SUPPLY_LIMIT) {
            return Some(ArrayFault {
                node: place as u32 + 1,
                arc: 0,
                number: fault.number(),
            });
        }
    }
    None
}

/// The first arc that has a fault.
fn faulty_arc(arrays: &Arrays) -> Option<ArrayFault>
    requires even { IsEven arrays.now }
    requires count { length arrays.now.tail.now ≤ ARC_LIMIT }
    ensures { MatchOption result (AreArcsFaultless arrays.now) (IsArcFault arrays.now) }
{
    let nodes = arrays.supply.len() as u64;
    for place in 0..arrays.tail.len() {
        if let Err(fault) = test_row(nodes, &row_at(arrays, place)) {
            return Some(ArrayFault {
                node: 0,
                arc: place as u32 + 1,
                number: fault.number(),
            });
        }
    }
    None
}

/// Tests how many nodes and arcs there are, as the fields of a problem line.
#[tactic(auto, unfolding(crate::specs::Arrays::test_counts))]
fn test_counts(arrays: &Arrays) -> Result<(), LineFault>
    ensures { result ≡ test_counts (length arrays.now.supply.now) (length arrays.now.tail.now) }
{
    test_natural(arrays.supply.len() as u64, 1, u64::from(NODE_LIMIT))?;
    test_natural(arrays.tail.len() as u64, 0, u64::from(ARC_LIMIT))
}

/// Tests an arc, as the fields of its line.
#[tactic(auto, unfolding(crate::specs::Arrays::test_row))]
fn test_row(nodes: u64, row: &ArcRow) -> Result<(), ProblemFault>
    ensures { result ≡ test_row nodes row.now }
{
    test_natural(u64::from(row.tail), 1, nodes)?;
    test_natural(u64::from(row.head), 1, nodes)?;
    test_bound(row.low)?;
    test_bound(row.cap)?;
    test_integer(row.cost, COST_LIMIT)?;
    if row.low > row.cap {
        return Err(ProblemFault::LowAboveCap);
    }
    Ok(())
}

/// Tests a lower bound or a capacity, which have no sign in a text.
#[tactic(auto, unfolding(crate::specs::Arrays::test_bound))]
fn test_bound(value: i64) -> Result<(), LineFault>
    ensures { result ≡ test_bound value }
{
    if value < 0 {
        return Err(LineFault::NotANumber);
    }
    test_natural(value as u64, 0, CAP_LIMIT)
}

/// Tests a number as a field without a sign: whether it has too many digits, and then its range.
#[tactic(auto, unfolding(crate::specs::Arrays::test_natural))]
fn test_natural(value: u64, low: u64, high: u64) -> Result<(), LineFault>
    ensures { result ≡ test_natural low high value }
{
    if value >= NO_NUMBER {
        return Err(LineFault::NotANumber);
    }
    if value < low || value > high {
        return Err(LineFault::OutOfRange);
    }
    Ok(())
}

/// Tests a number as a field with a sign: whether it has too many digits, and then its range.
#[tactic(auto, unfolding(crate::specs::Arrays::test_integer))]
fn test_integer(value: i64, limit: i64) -> Result<(), LineFault>
    requires { pos 0 ≤ℤ limit }
    ensures { result ≡ test_integer limit value }
{
    if value.unsigned_abs() >= NO_NUMBER {
        return Err(LineFault::NotANumber);
    }
    if value < -limit || value > limit {
        return Err(LineFault::OutOfRange);
    }
    Ok(())
}
