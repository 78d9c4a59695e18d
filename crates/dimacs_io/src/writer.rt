//! Writers of one line each: the lines of a solution in the DIMACS formats for network flows, and the refusal line of a
//! session. Each is written whole or given up at the first failed call, and none can fail for want of memory.
ghost use Rattle.std.specs.Prelude.{◌-◌, ◌^◌, ◌<◌};
ghost use Rattle.dimacs_io.specs.Calls.{WritesText};
ghost use Rattle.dimacs_io.specs.Line.{value_line, flow_line, potential_line, shortage_line, cut_line, refusal_line};

use crate::device::{Broken, Sink};
use crate::line::Line;

/// Writes `bytes`: hands them whole to `write`, then what is left of them, up to the first failure.
///
/// `Broken` is answered where a call of `write` failed; a beginning of `bytes` was written then. No call is made again
/// after a failure, and `flush` is not called. The other writers fail in the same way.
pub fn write_all<O: Sink>(out: &mut O, bytes: &[u8]) -> Result<(), Broken>
    requires { O.failures out.old < 2 ^ 64 - 1 }
    ensures { WritesText O.Sink result out.old out.new bytes.now }
{
    let mut done = 0;
    while done < bytes.len() {
        done += out.write(&bytes[done..])?;
    }
    Ok(())
}

/// Writes the solution line `s VALUE`: the worth of a flow.
pub fn write_s<O: Sink>(out: &mut O, value: i128) -> Result<(), Broken>
    requires { O.failures out.old < 2 ^ 64 - 1 }
    ensures { WritesText O.Sink result out.old out.new (value_line value) }
{
    let mut line = Line::new();
    line.push_text(b"s ");
    line.push_number(value);
    line.push_text(b"\n");
    write_all(out, line.as_bytes())
}

/// Writes the flow line `f SRC DST FLOW`: the flow of an arc from node `tail` to node `head`.
pub fn write_f<O: Sink>(out: &mut O, tail: u32, head: u32, flow: i64) -> Result<(), Broken>
    requires { O.failures out.old < 2 ^ 64 - 1 }
    ensures { WritesText O.Sink result out.old out.new (flow_line tail head flow) }
{
    let mut line = Line::new();
    line.push_text(b"f ");
    line.push_number(tail);
    line.push_text(b" ");
    line.push_number(head);
    line.push_text(b" ");
    line.push_number(flow);
    line.push_text(b"\n");
    write_all(out, line.as_bytes())
}

/// Writes `v ID POTENTIAL`: the potential of node `id`.
pub fn write_v<O: Sink>(out: &mut O, id: u32, potential: i64) -> Result<(), Broken>
    requires { O.failures out.old < 2 ^ 64 - 1 }
    ensures { WritesText O.Sink result out.old out.new (potential_line id potential) }
{
    let mut line = Line::new();
    line.push_text(b"v ");
    line.push_number(id);
    line.push_text(b" ");
    line.push_number(potential);
    line.push_text(b"\n");
    write_all(out, line.as_bytes())
}

/// Writes `i SHORTAGE`: no flow exists, and a cut falls short by this much.
pub fn write_i<O: Sink>(out: &mut O, shortage: i64) -> Result<(), Broken>
    requires { O.failures out.old < 2 ^ 64 - 1 }
    ensures { WritesText O.Sink result out.old out.new (shortage_line shortage) }
{
    let mut line = Line::new();
    line.push_text(b"i ");
    line.push_number(shortage);
    line.push_text(b"\n");
    write_all(out, line.as_bytes())
}

/// Writes `k ID`: node `id` is in the cut.
pub fn write_k<O: Sink>(out: &mut O, id: u32) -> Result<(), Broken>
    requires { O.failures out.old < 2 ^ 64 - 1 }
    ensures { WritesText O.Sink result out.old out.new (cut_line id) }
{
    let mut line = Line::new();
    line.push_text(b"k ");
    line.push_number(id);
    line.push_text(b"\n");
    write_all(out, line.as_bytes())
}

/// Writes `r N`: a command was refused for the reason of this number.
pub fn write_r<O: Sink>(out: &mut O, number: u8) -> Result<(), Broken>
    requires { O.failures out.old < 2 ^ 64 - 1 }
    ensures { WritesText O.Sink result out.old out.new (refusal_line number) }
{
    let mut line = Line::new();
    line.push_text(b"r ");
    line.push_number(number);
    line.push_text(b"\n");
    write_all(out, line.as_bytes())
}
