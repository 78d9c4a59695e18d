//! What is told of the present moment at once.

ghost use Rattle.std.specs.Prelude.{◌≡◌};
ghost use Rattle.c_calls.specs.Library.{IsViewOf, joined};

use flow_solver::Verdict;
use session::Session;

/// The verdict of the present moment, its sizes, and how many moments are past and future.
#[repr(C)]
#[derive(Clone, Copy)]
pub struct View {
    /// The worth of a best flow is `worth_high` times 2^64 plus `worth_low`; 0 where there is none.
    pub worth_high: i64,
    pub worth_low: u64,
    /// How many units are missing where no legal flow exists, else 0.
    pub shortage: i64,
    /// How many moments can be undone.
    pub past: u64,
    /// How many moments can be done again.
    pub future: u64,
    pub nodes: u32,
    pub arcs: u32,
    /// Whether a legal flow exists.
    pub feasible: bool,
}

/// What is told of a session.
pub fn look(session: &Session) -> View
    ensures { IsViewOf session.now.moments result }
{
    let (past, future) = session.steps();
    let (feasible, (worth_high, worth_low), shortage) = match session.verdict() {
        Verdict::Best(worth) => (true, halves(worth), 0),
        Verdict::Infeasible(shortage) => (false, (0, 0), shortage),
    };
    View {
        worth_high,
        worth_low,
        shortage,
        past: past as u64,
        future: future as u64,
        nodes: session.potentials().len() as u32,
        arcs: session.flow().len() as u32,
        feasible,
    }
}

/// The halves of a number, of which the high one has the sign.
fn halves(number: i128) -> (i64, u64)
    ensures { number ≡ joined result.0 result.1 }
{
    let high = number.div_euclid(1 << 64);
    let low = number.rem_euclid(1 << 64);
    (high as i64, low as u64)
}
