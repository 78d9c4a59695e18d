//! Numbers as the two sides of a search see them.

ghost use Rattle.relaxation.specs.Limits.{IsWithin, rest_limit};

/// A number as a side sees it: behind, excess is deficit and a potential counts the other way.
#[inline(always)]
pub fn seen<const AHEAD: bool>(number: i64) -> i64
    requires { IsWithin rest_limit number }
    ensures { IsWithin rest_limit result }
{
    if AHEAD { number } else { -number }
}
