//! Values that are made one after the other.

ghost use Rattle.std.specs.Prelude.{◌≡◌, IfOk, Ok};

use std::alloc::AllocError;

/// Both values, or the failure of one. So whoever makes many tables has one exit, with nothing to let go of: with an exit
/// after each table, the steps that let go of those before it would stand, and be proved, at every one.
///
/// # Errors
/// That of the first, else that of the second.
pub fn both<A: Drop, B: Drop>(
    first: Result<A, AllocError>,
    second: Result<B, AllocError>,
) -> Result<(A, B), AllocError>
    ensures first { IfOk result (λ made. first ≡ Ok made.0) }
    ensures second { IfOk result (λ made. second ≡ Ok made.1) }
{
    let first = first?;
    let second = second?;
    Ok((first, second))
}
