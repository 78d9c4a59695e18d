//! The faults of a command text.

ghost use Rattle.std.specs.Prelude.{◌≡◌};
ghost use Rattle.dimacs_text.specs.CommandFault.{number_of};

use dimacs_lines::LineFault;

/// What is wrong with a line of a command text, by itself or in a group.
#[derive(Clone, Copy, Debug, PartialEq, Eq)]
pub enum CommandFault {
    /// The line is faulty in any text.
    Line(LineFault),
    /// Problems of this kind do not have the command.
    NotForKind,
    /// A line of a group is no edit; or `end` comes while no group is open.
    OutOfPlace,
    /// A group has more edits than `GROUP_LIMIT`.
    GroupTooLong,
    /// A field is not 1 to `NAME_LIMIT` letters.
    NotAName,
}

impl CommandFault {
    /// Its number.
    pub fn number(self) -> u8
        ensures { result ≡ number_of self }
    {
        match self {
            CommandFault::Line(fault) => fault.number(),
            CommandFault::NotForKind => 23,
            CommandFault::OutOfPlace => 29,
            CommandFault::GroupTooLong => 31,
            CommandFault::NotAName => 32,
        }
    }
}

impl From<LineFault> for CommandFault {
    ghost use Rattle.std.specs.Prelude.{◌≡◌};
    ghost use Rattle.dimacs_text.specs.declared.command_fault.CommandFault.TheVariants as faults;

    ghost from_gives = { λ of_line fault. fault ≡ faults.Line of_line };

    fn from(fault: LineFault) -> Self {
        CommandFault::Line(fault)
    }
}
