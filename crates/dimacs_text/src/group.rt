//! Edits that are made together.

ghost use Rattle.std.specs.Prelude.{◌≡◌, length};
ghost use Rattle.std.specs.Option.{option_map};
ghost use Rattle.dimacs_lines.specs.Lines.{Line};
ghost use Rattle.dimacs_text.specs.Command.{asked, ends_group};
ghost use Rattle.dimacs_lines.specs.Cut.{kept};
ghost use Rattle.dimacs_text.specs.Group.{edit_of, is_end_asked, gathered, gathered_after, and_line};
ghost use Rattle.dimacs_text.specs.CommandFault.{number_of};

use crate::command::{Command, Edit, read_line};
use crate::command_fault::CommandFault;
use crate::problem::Kind;
use arrayvec::ArrayVec;
use dimacs_lines::LineFault;
use std::marker::Model;

/// The most edits of a group.
pub const GROUP_LIMIT: usize = 1000;

/// The edits between a line `group` and its `end`. Taking a line cannot fail for lack of memory.
///
/// The first line that is refused by itself decides the fault of the group, and lines after it are passed over.
#[derive(Drop)]
pub struct Group {
    edits: ArrayVec<Edit, GROUP_LIMIT>,
    fault: Option<CommandFault>,
}

impl Model for Group {
    ghost use Rattle.dimacs_text.specs.Group.{Gathered};
    ghost use Rattle.dimacs_text.specs.declared.group.TheConstants.{GROUP_LIMIT};
    ghost use Rattle.std.specs.Prelude.{◌≤◌, length};

    ghost Value = { Gathered };

    ghost view = { λ g. record { edits = g.edits.items; fault = g.fault } };

    ghost invariant = { λ g. length g.edits.items ≤ GROUP_LIMIT };
}

impl Group {
    ghost use Rattle.std.specs.Prelude.{[], ◌∷◌, List, Option, length, ◌≤◌};
    ghost use Rattle.std.specs.Option.{option_map};
    ghost use Rattle.dimacs_text.specs.declared.group.TheConstants.{GROUP_LIMIT};
    ghost use Rattle.dimacs_text.specs.declared.problem.Kind.{Kind};

    /// A group without lines.
    #[tactic(auto, unfolding(crate::specs::Group::gathered))]
    pub fn new() -> Self
        ensures { (kind : Kind) → result ≡ gathered kind 0 [] }
    {
        Group {
            edits: ArrayVec::new(),
            fault: None,
        }
    }

    /// Takes the next line, or `None` for one that is too long, and answers whether it ends the group. Blank lines are
    /// to be passed over by the caller.
    pub fn take(&mut self, kind: Kind, line: Option<&[u8]>) -> bool
        ensures ends { (whole : Line) → option_map (λ line. line.now) line.entry ≡ kept whole
            → result ≡ ends_group whole }
        ensures lines { (whole : Line) → option_map (λ line. line.now) line.entry ≡ kept whole
            → (lines : List Line)
            → self.old ≡ gathered kind 0 lines
            → self.new ≡ gathered kind 0 (and_line (ends_group whole) lines whole) }
    {
        self.take_asked(asked(kind, line))
    }

    /// The edits before the first line that is refused by itself.
    pub fn edits(&self) -> &[Edit]
        ensures edits { result.now ≡ self.now.edits }
        ensures limit { length result.now ≤ GROUP_LIMIT }
    {
        self.edits.as_slice()
    }

    /// The number of the first line that is refused by itself, if one is: 1 to 5, 23 and 32 as for any command, 29 where
    /// it is no edit, 31 where it is an edit too many.
    pub fn fault(&self) -> Option<u8>
        ensures { result ≡ option_map number_of self.now.fault }
    {
        match self.fault {
            None => None,
            Some(fault) => Some(fault.number()),
        }
    }

    /// Takes what the next line asks for, and answers whether it ends the group.
    fn take_asked(&mut self, asked: Result<Command, CommandFault>) -> bool
        ensures ends { result ≡ is_end_asked asked }
        ensures after { self.new ≡ gathered_after self.old asked }
    {
        if let Ok(Command::End) = asked {
            return true;
        }
        if self.fault.is_none() {
            match edit_of(asked) {
                Ok(edit) if !self.edits.is_full() => self.edits.push(edit),
                Ok(_) => self.fault = Some(CommandFault::GroupTooLong),
                Err(fault) => self.fault = Some(fault),
            }
        }
        false
    }
}

/// The edit that a line of a group gives: nothing else stands in one.
fn edit_of(asked: Result<Command, CommandFault>) -> Result<Edit, CommandFault>
    ensures { result ≡ edit_of asked }
{
    match asked? {
        Command::Edit(edit) => Ok(edit),
        _ => Err(CommandFault::OutOfPlace),
    }
}

/// What a line asks for; it is not known where it is too long.
fn asked(kind: Kind, line: Option<&[u8]>) -> Result<Command, CommandFault>
    ensures { (whole : Line) → option_map (λ line. line.now) line.entry ≡ kept whole
        → result ≡ asked kind whole }
{
    match line {
        None => Err(LineFault::TooLong.into()),
        Some(line) => read_line(kind, line),
    }
}
