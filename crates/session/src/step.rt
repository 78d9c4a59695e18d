//! The steps of a session: by a command, and by a group.

ghost use Rattle.std.specs.Prelude.{◌≡◌, IfErr, OnOk};
ghost use Rattle.dimacs_text.specs.declared.command.Command.TheVariants as commands;
ghost use Rattle.network.specs.Edited.{edited_all};
ghost use Rattle.session.specs.Reply.{IsStep};
ghost use Rattle.session.specs.Session.{present_kind};
ghost use Rattle.session.specs.Step.{StepBy, StepOfEdit, StepOfGroup};

use crate::refusal::StepRefusal;
use crate::reply::Reply;
use crate::session::Session;
use dimacs_text::{Command, Edit, Group, Name};
use network::Network;
use std::alloc::Allocator;

impl<A: Allocator + Copy> Session<A> {
    /// Takes the step of a command. After a refusal the session is as before.
    ///
    /// # Errors
    /// Why the step was refused; `Group` and `End` are no steps by themselves.
    pub fn step(&mut self, command: &Command) -> Result<Reply, StepRefusal>
        ensures step { IsStep (StepBy command.now) self.old result self.new }
        ensures kind { present_kind self.new.moments ≡ present_kind self.old.moments }
    {
        match command {
            Command::Edit(edit) => self.step_by_edit(edit),
            Command::Undo => self.step_back(),
            Command::Redo => self.step_on(),
            Command::Show => Ok(Reply::Solution { proof: false }),
            Command::Proof => Ok(Reply::Solution { proof: true }),
            Command::Group => Err(StepRefusal::OutOfPlace),
            Command::End => Err(StepRefusal::OutOfPlace),
            Command::Mark(name) => self.step_by_mark(name),
            Command::Back(name) => self.step_to_mark(name),
        }
    }

    /// Takes the step of a group: its edits are applied together, where none of its lines is refused. After a refusal
    /// the session is as before.
    ///
    /// # Errors
    /// Why the step was refused: by the first of the group's lines that is refused, by itself or by the network.
    pub fn step_group(&mut self, group: &Group) -> Result<Reply, StepRefusal>
        ensures step { IsStep (StepOfGroup group.now) self.old result self.new }
        ensures kind { present_kind self.new.moments ≡ present_kind self.old.moments }
    {
        if let Some(number) = group.fault() {
            let first = first_refusal(self.network(), group.edits(), number);
            return Err(StepRefusal::Cause(first));
        }
        match self.apply_group(group.edits()) {
            Ok(_) => Ok(Reply::Verdict),
            Err(refusal) => Err(refusal.into()),
        }
    }

    /// Applies an edit.
    fn step_by_edit(&mut self, edit: &Edit) -> Result<Reply, StepRefusal>
        ensures step { IsStep (StepOfEdit edit.now) self.old result self.new }
        ensures kind { present_kind self.new.moments ≡ present_kind self.old.moments }
    {
        match self.apply(edit) {
            Ok(_) => Ok(Reply::Verdict),
            Err(refusal) => Err(refusal.into()),
        }
    }

    /// Goes back one moment.
    fn step_back(&mut self) -> Result<Reply, StepRefusal>
        ensures step { IsStep (StepBy commands.Undo) self.old result self.new }
        ensures kind { present_kind self.new.moments ≡ present_kind self.old.moments }
    {
        if self.undo() {
            Ok(Reply::Verdict)
        } else {
            Err(StepRefusal::NothingToUndo)
        }
    }

    /// Goes on one moment.
    fn step_on(&mut self) -> Result<Reply, StepRefusal>
        ensures step { IsStep (StepBy commands.Redo) self.old result self.new }
        ensures kind { present_kind self.new.moments ≡ present_kind self.old.moments }
    {
        if self.redo() {
            Ok(Reply::Verdict)
        } else {
            Err(StepRefusal::NothingToRedo)
        }
    }

    /// Puts the name's mark on the present moment.
    fn step_by_mark(&mut self, name: &Name) -> Result<Reply, StepRefusal>
        ensures step { IsStep (StepBy (commands.Mark name.now)) self.old result self.new }
        ensures kind { present_kind self.new.moments ≡ present_kind self.old.moments }
    {
        if self.put_mark(name) {
            Ok(Reply::Verdict)
        } else {
            Err(StepRefusal::TooManyMarks)
        }
    }

    /// Moves to the moment that bears the name.
    fn step_to_mark(&mut self, name: &Name) -> Result<Reply, StepRefusal>
        ensures step { IsStep (StepBy (commands.Back name.now)) self.old result self.new }
        ensures kind { present_kind self.new.moments ≡ present_kind self.old.moments }
    {
        if self.move_to_mark(name) {
            Ok(Reply::Verdict)
        } else {
            Err(StepRefusal::NoSuchMark)
        }
    }
}

/// The number of the first refusal of a group, which is that of an edit, or this number of a line after its edits.
fn first_refusal(network: &Network, edits: &[Edit], number: u8) -> u8
    ensures allowed { OnOk (edited_all network.now edits.now) (result ≡ number) }
    ensures refused { IfErr (edited_all network.now edits.now) (λ earlier. result ≡ earlier) }
{
    match network.edited_all(edits) {
        Ok(()) => number,
        Err(earlier) => earlier,
    }
}
