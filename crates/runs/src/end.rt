//! How a run ends, and what is told of it.
ghost use Rattle.std.specs.Prelude.{◌≡◌, ◌-◌, ◌^◌, ◌<◌};
ghost use Rattle.dimacs_io.specs.Calls.{WritesText};
ghost use Rattle.runs.specs.End.{status_of, told, text_name};

use dimacs_io::{Broken, Line, Sink, write_all};

/// A text that is read.
#[derive(Clone, Copy, Debug, PartialEq, Eq)]
pub enum Text {
    /// The problem.
    Problem,
    /// The answer that is checked.
    Answer,
    /// The commands of a session.
    Commands,
}

impl Text {
    /// Its name on the standard error.
    fn name(&self) -> &'static [u8]
        ensures { result.now ≡ text_name self.now }
    {
        match self {
            Text::Problem => b"problem",
            Text::Answer => b"answer",
            Text::Commands => b"commands",
        }
    }
}

/// How a run ends.
#[derive(Clone, Copy, Debug, PartialEq, Eq)]
pub enum End {
    /// A best flow was written.
    Solved,
    /// No legal flow exists, and a proof of that was written.
    Infeasible,
    /// The commands came to their end.
    Ended,
    /// The answer is right.
    Valid,
    /// The answer is not right.
    NotValid,
    /// A text has a fault, by its number, at a line counted from 1.
    Refused { input: Text, number: u8, line: u64 },
    /// A text could not be read to its end.
    ReadFailed(Text),
    /// The output could not be written.
    WriteFailed,
    /// Memory was refused.
    Memory,
}

impl End {
    /// The exit status of the program.
    pub fn status(&self) -> u8
        ensures { result ≡ status_of self.now }
    {
        match self {
            End::Solved | End::Ended | End::Valid => 0,
            End::Infeasible | End::NotValid => 1,
            End::Refused { .. } => 3,
            End::ReadFailed(_) | End::WriteFailed => 4,
            End::Memory => 5,
        }
    }

    /// Writes the line that is told on the standard error, if there is one. It cannot fail for want of memory.
    pub fn tell<E: Sink>(&self, err: &mut E) -> Result<(), Broken>
        requires { E.failures err.old < 2 ^ 64 - 1 }
        ensures { WritesText E.Sink result err.old err.new (told self.now) }
    {
        write_all(err, self.line().as_bytes())
    }

    /// The line that is told, or nothing.
    fn line(&self) -> Line
        ensures { result ≡ told self.now }
    {
        let mut line = Line::new();
        match self {
            End::Refused {
                input,
                number,
                line: at,
            } => {
                line.push_text(b"mcf: ");
                line.push_text(input.name());
                line.push_text(b" line ");
                line.push_number(*at);
                line.push_text(b": fault ");
                line.push_number(*number);
                line.push_text(b"\n");
            }
            End::ReadFailed(text) => {
                line.push_text(b"mcf: ");
                line.push_text(text.name());
                line.push_text(b": read failed\n");
            }
            End::WriteFailed => line.push_text(b"mcf: output: write failed\n"),
            End::Memory => line.push_text(b"mcf: want of memory\n"),
            End::Solved | End::Infeasible | End::Ended | End::Valid | End::NotValid => {}
        }
        line
    }
}
