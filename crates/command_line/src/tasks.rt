//! What a command line asks for.

ghost use Rattle.std.specs.Prelude.{◌≡◌};
ghost use Rattle.command_line.specs.Files.{answer_file, problem_file};
ghost use Rattle.command_line.specs.Tasks.{IsWantOfMemory};
ghost use Rattle.command_line.specs.declared.tasks.Usage.TheVariants as usage;

use clap::Error;
use std::alloc::AllocError;

/// For how many arcs more a session may be asked to have room.
pub const EXTRA_LIMIT: u32 = 100_000;
/// For how many arcs more a session has room where the command line does not say it.
pub const DEFAULT_EXTRA: u32 = 1_000;

/// What the program is asked to do.
#[derive(Clone, Copy, Debug, PartialEq, Eq)]
pub enum Task<'a> {
    /// Solve the problem in a file, or on the standard input, with a proof or not.
    Solve { proof: bool, file: Option<&'a str> },
    /// Run a session on the problem in a file, with room for `extra` arcs more, 0 to `EXTRA_LIMIT`.
    Session { problem: &'a str, extra: u32 },
    /// Check the answer in one file to the problem in another.
    Check { problem: &'a str, answer: &'a str },
}

impl<'a> Task<'a> {
    /// The file that the problem is in, if it is in one.
    pub fn problem(&self) -> Option<&'a str>
        ensures { result ≡ problem_file self.now }
    {
        match *self {
            Task::Solve { file, .. } => file,
            Task::Session { problem, .. } => Some(problem),
            Task::Check { problem, .. } => Some(problem),
        }
    }

    /// The file that the answer is in, where one is checked.
    pub fn answer(&self) -> Option<&'a str>
        ensures { result ≡ answer_file self.now }
    {
        match *self {
            Task::Check { answer, .. } => Some(answer),
            Task::Solve { .. } | Task::Session { .. } => None,
        }
    }
}

/// Why words name no task: a mistake in them, a request for help, or want of memory.
#[derive(Drop)]
pub enum Usage {
    /// As `clap` tells it.
    Words(Error),
    /// A number of arcs that is none in a text: with a sign, or with too many digits.
    NotANumber,
}

impl From<Error> for Usage {
    ghost from_gives = { λ error made. made ≡ usage.Words error };

    fn from(error: Error) -> Usage {
        Usage::Words(error)
    }
}

impl From<AllocError> for Usage {
    ghost from_gives = { λ _ made. IsWantOfMemory made };

    fn from(error: AllocError) -> Usage {
        Usage::Words(Error::from(error))
    }
}
