//! The lines of a command text, taken one after the other: single ones, and those of groups.

ghost use Rattle.std.specs.Prelude.{◌≡◌, ◌≢◌, List, [], None, Some, Option, IfSome};
ghost use Rattle.std.specs.Bool.{OnTrue};
ghost use Rattle.dimacs_lines.specs.Fields.{words_of};
ghost use Rattle.dimacs_lines.specs.Lines.{Line};
ghost use Rattle.dimacs_text.specs.Group.{gathered};
ghost use Rattle.dimacs_text.specs.declared.problem.Kind.{Kind};
ghost use Rattle.session.specs.Session.{present_kind};
ghost use Rattle.session.specs.Step.{state_of};
ghost use Rattle.session.specs.Turns.{asks, gathered_in, IsPassedAs, LineTaken};

use crate::refusal::StepRefusal;
use crate::reply::Reply;
use crate::session::Session;
use dimacs_text::{Command, Group, LineFault, groups_are_bracketed, is_blank, read_command};
use std::alloc::Allocator;

impl<A: Allocator + Copy> Session<A> {
    /// Takes a line, which is `None` where it is too long, and the step of the turn that it makes whole: of the line by
    /// itself, or of the group that it ends. It makes none whole where it is blank, opens a group or goes into one. The
    /// caller keeps the group that stands open.
    pub fn take_line(
        &mut self,
        group: &mut Option<Group>,
        line: Option<&[u8]>,
    ) -> Option<Result<Reply, StepRefusal>>
        ensures taken { (whole : Line) → IsPassedAs line.entry whole
            → (opened : Option (List Line)) → group.old ≡ gathered_in (state_of self.old) opened
            → LineTaken self.old opened whole result self.new group.new }
        ensures kind { present_kind self.new.moments ≡ present_kind self.old.moments }
    {
        if !asks(line) {
            return None;
        }
        match group {
            None => self.take_alone(group, line),
            Some(open) => {
                if !open.take(self.network().kind(), line) {
                    return None;
                }
                let reply = self.step_group(open);
                *group = None;
                Some(reply)
            }
        }
    }

    /// Takes a line that asks for something while no group stands open: it opens one, or is a step by itself.
    fn take_alone(
        &mut self,
        group: &mut Option<Group>,
        line: Option<&[u8]>,
    ) -> Option<Result<Reply, StepRefusal>>
        requires asks { IfSome line (λ l. words_of l.now ≢ []) }
        requires alone { group.old ≡ None }
        ensures taken { (whole : Line) → IsPassedAs line.entry whole
            → LineTaken self.old None whole result self.new group.new }
        ensures kind { present_kind self.new.moments ≡ present_kind self.old.moments }
    {
        groups_are_bracketed();
        let Some(line) = line else {
            return Some(Err(StepRefusal::Cause(LineFault::TooLong.number())));
        };
        let command = match read_command(self.network().kind(), line) {
            Ok(command) => command,
            Err(number) => return Some(Err(StepRefusal::Cause(number))),
        };
        match command {
            Command::Group => {
                open_group(group);
                None
            }
            _ => Some(self.step(&command)),
        }
    }
}

/// Whether a line asks for something: it is too long, or not blank.
fn asks(line: Option<&[u8]>) -> bool
    ensures asks { (whole : Line) → IsPassedAs line.entry whole → result ≡ asks whole }
    ensures words { OnTrue result (IfSome line.entry (λ l. words_of l.now ≢ [])) }
{
    match line {
        None => true,
        Some(line) => !is_blank(line),
    }
}

/// A group stands open, with no line in it yet.
fn open_group(group: &mut Option<Group>)
    ensures { (kind : Kind) → group.new ≡ Some (gathered kind 0 []) }
{
    *group = Some(Group::new());
}
