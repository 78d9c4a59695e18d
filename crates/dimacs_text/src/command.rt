//! One line of a command text.

ghost use Rattle.std.specs.Prelude.{◌≡◌, ◌≢◌, ◌↔◌, IsTrue, [], ◌∷◌, ◌<◌, Ok};
ghost use Rattle.dimacs_text.specs.declared.command.Command.TheVariants as commands;
ghost use Rattle.dimacs_text.specs.declared.problem.Kind.{Kind};
ghost use Rattle.dimacs_lines.specs.Fields.{words_of};
ghost use Rattle.dimacs_lines.specs.Lines.{Line};
ghost use Rattle.dimacs_text.specs.Command.{asked, command, opens_group, ends_group, verb_of, is_for, read_words, read_by, read_bare, read_name, read_cap, read_low, read_cost, read_supply, read_add, read_min_arc, read_max_arc, read_asn_arc, read_close, as_edit};

use crate::command_fault::CommandFault;
use crate::problem::{CAP_LIMIT, COST_LIMIT, Kind, SUPPLY_LIMIT};
use dimacs_lines::{
    LINE_LIMIT, LineFault, Name, Words, integer_in, is_word, natural_in, number_in,
};

/// A change of an instance. Arcs and nodes are named by their numbers, counted from 1; whether they exist is not tested
/// yet.
#[derive(Clone, Copy, Debug, PartialEq, Eq)]
pub enum Edit {
    /// Sets the capacity of an arc, 0 to `CAP_LIMIT`.
    Cap {
        arc: u64,
        cap: i64,
    },
    /// Sets the lower bound of an arc, 0 to `CAP_LIMIT`.
    Low {
        arc: u64,
        low: i64,
    },
    /// Sets the cost of an arc, -`COST_LIMIT` to `COST_LIMIT`.
    Cost {
        arc: u64,
        cost: i64,
    },
    /// Sets the supply of a node, -`SUPPLY_LIMIT` to `SUPPLY_LIMIT`.
    Supply {
        node: u64,
        value: i64,
    },
    /// Adds an arc, with numbers in these ranges; nothing says yet that `low <= cap`.
    Add {
        tail: u64,
        head: u64,
        low: i64,
        cap: i64,
        cost: i64,
    },
    /// Sets the lower bound and the capacity of an arc to 0.
    Close {
        arc: u64,
    },
}

/// What the unused places of an array of edits hold: no arc has the number 0.
impl Default for Edit {
    fn default() -> Self {
        Edit::Close { arc: 0 }
    }
}

impl Edit {
    ghost use Rattle.dimacs_text.specs.Command.{is_for, verb_for};

    /// Whether problems of the kind have the edit.
    pub fn is_for(&self, kind: Kind) -> bool
        ensures { result ≡ is_for kind (verb_for self.now) }
    {
        self.verb().is_for(kind)
    }

    /// The first word of the command that asks for it.
    fn verb(&self) -> Verb
        ensures { result ≡ verb_for self.now }
    {
        match self {
            Edit::Cap { .. } => Verb::Cap,
            Edit::Low { .. } => Verb::Low,
            Edit::Cost { .. } => Verb::Cost,
            Edit::Supply { .. } => Verb::Supply,
            Edit::Add { .. } => Verb::Add,
            Edit::Close { .. } => Verb::Close,
        }
    }
}

/// What a line asks for.
#[derive(Clone, Copy, Debug, PartialEq, Eq)]
pub enum Command {
    /// Changes the instance.
    Edit(Edit),
    /// Moves one moment back.
    Undo,
    /// Moves one moment forward.
    Redo,
    /// Prints the solution.
    Show,
    /// Prints the solution with its potentials.
    Proof,
    /// Opens a group: the edits up to `end` are made together.
    Group,
    /// Ends a group.
    End,
    /// Puts a mark of this name on the present moment.
    Mark(Name),
    /// Moves to the moment that has the mark of this name.
    Back(Name),
}

/// The first word of a command.
#[derive(Clone, Copy)]
pub enum Verb {
    Cap,
    Low,
    Cost,
    Supply,
    Add,
    Close,
    Undo,
    Redo,
    Show,
    Proof,
    Group,
    End,
    Mark,
    Back,
}

impl Verb {
    /// The verb that a word is, if it is one.
    pub fn of(word: &[u8]) -> Option<Self>
        ensures { result ≡ verb_of word.now }
    {
        match word {
            _ if is_word(word, b"cap") => Some(Verb::Cap),
            _ if is_word(word, b"low") => Some(Verb::Low),
            _ if is_word(word, b"cost") => Some(Verb::Cost),
            _ if is_word(word, b"supply") => Some(Verb::Supply),
            _ if is_word(word, b"add") => Some(Verb::Add),
            _ if is_word(word, b"close") => Some(Verb::Close),
            _ if is_word(word, b"undo") => Some(Verb::Undo),
            _ if is_word(word, b"redo") => Some(Verb::Redo),
            _ if is_word(word, b"show") => Some(Verb::Show),
            _ if is_word(word, b"proof") => Some(Verb::Proof),
            _ if is_word(word, b"group") => Some(Verb::Group),
            _ if is_word(word, b"end") => Some(Verb::End),
            _ if is_word(word, b"mark") => Some(Verb::Mark),
            _ if is_word(word, b"back") => Some(Verb::Back),
            _ => None,
        }
    }

    /// Whether problems of the kind have the command.
    pub fn is_for(self, kind: Kind) -> bool
        ensures { result ≡ is_for kind self }
    {
        match (self, kind) {
            (Verb::Cap, Kind::Asn) => false,
            (Verb::Low, Kind::Max) => false,
            (Verb::Low, Kind::Asn) => false,
            (Verb::Cost, Kind::Max) => false,
            (Verb::Supply, Kind::Max) => false,
            (Verb::Supply, Kind::Asn) => false,
            _ => true,
        }
    }
}

/// Reads a line of a command text that is not blank, for a problem of the kind.
///
/// An error is the number of the first check that fails: the line is too long (1), no command (2), not for this kind
/// (23), it has the wrong number of fields (3), a field is not a number (4) or out of range (5), or not a name (32).
pub fn read_command(kind: Kind, line: &[u8]) -> Result<Command, u8>
    requires { words_of line.now ≢ [] }
    ensures { result ≡ command kind line.now }
{
    match read_line(kind, line) {
        Ok(command) => Ok(command),
        Err(fault) => Err(fault.number()),
    }
}

/// Reads a line of a command text.
pub(crate) fn read_line(kind: Kind, line: &[u8]) -> Result<Command, CommandFault>
    ensures { result ≡ asked kind line.now }
{
    if line.len() > LINE_LIMIT {
        return Err(LineFault::TooLong.into());
    }
    read_words(kind, Words::new(line))
}

/// A law, with nothing to run: the lines that open and end a group are the same for every kind.
pub fn groups_are_bracketed()
    ensures opens { (kind : Kind) (line : Line) → (asked kind line ≡ Ok commands.Group)
        ↔ IsTrue (opens_group line) }
    ensures ends { (kind : Kind) (line : Line) → (asked kind line ≡ Ok commands.End)
        ↔ IsTrue (ends_group line) }
{}

/// Reads the words of a line.
#[tactic(auto, unfolding(crate::specs::Command::read_words))]
fn read_words(kind: Kind, mut words: Words) -> Result<Command, CommandFault>
    ensures { result ≡ read_words kind words.entry }
{
    let first = words.next().ok_or(LineFault::UnknownDesignator)?;
    let verb = Verb::of(first.bytes()).ok_or(LineFault::UnknownDesignator)?;
    if !verb.is_for(kind) {
        return Err(CommandFault::NotForKind);
    }
    read_by(kind, verb, words)
}

/// Reads the fields after the verb.
fn read_by(kind: Kind, verb: Verb, fields: Words) -> Result<Command, CommandFault>
    ensures { result ≡ read_by kind verb fields.entry }
{
    match verb {
        Verb::Cap => as_edit(read_cap(fields)),
        Verb::Low => as_edit(read_low(fields)),
        Verb::Cost => as_edit(read_cost(fields)),
        Verb::Supply => as_edit(read_supply(fields)),
        Verb::Add => as_edit(read_add(kind, fields)),
        Verb::Close => as_edit(read_close(fields)),
        Verb::Undo => read_bare(fields, Command::Undo),
        Verb::Redo => read_bare(fields, Command::Redo),
        Verb::Show => read_bare(fields, Command::Show),
        Verb::Proof => read_bare(fields, Command::Proof),
        Verb::Group => read_bare(fields, Command::Group),
        Verb::End => read_bare(fields, Command::End),
        Verb::Mark => Ok(Command::Mark(read_name(fields)?)),
        Verb::Back => Ok(Command::Back(read_name(fields)?)),
    }
}

/// An edit is a command.
fn as_edit(edit: Result<Edit, LineFault>) -> Result<Command, CommandFault>
    ensures { result ≡ as_edit edit }
{
    Ok(Command::Edit(edit?))
}

/// A command without fields.
fn read_bare(fields: Words, command: Command) -> Result<Command, CommandFault>
    ensures { result ≡ read_bare fields.entry command }
{
    fields.none()?;
    Ok(command)
}

/// The field of `mark NAME` and `back NAME`.
#[tactic(auto, unfolding(crate::specs::Command::read_name))]
fn read_name(fields: Words) -> Result<Name, CommandFault>
    ensures { result ≡ read_name fields.entry }
{
    Name::of(fields.one()?.bytes()).ok_or(CommandFault::NotAName)
}

/// The fields of `cap K V`.
#[tactic(auto, unfolding(crate::specs::Command::read_cap))]
fn read_cap(fields: Words) -> Result<Edit, LineFault>
    ensures { result ≡ read_cap fields.entry }
{
    let (arc, cap) = fields.two()?;
    let (arc, cap) = (number_in(arc), natural_in(cap, 0, CAP_LIMIT));
    Ok(Edit::Cap {
        arc: arc?,
        cap: cap? as i64,
    })
}

/// The fields of `low K V`.
#[tactic(auto, unfolding(crate::specs::Command::read_low))]
fn read_low(fields: Words) -> Result<Edit, LineFault>
    ensures { result ≡ read_low fields.entry }
{
    let (arc, low) = fields.two()?;
    let (arc, low) = (number_in(arc), natural_in(low, 0, CAP_LIMIT));
    Ok(Edit::Low {
        arc: arc?,
        low: low? as i64,
    })
}

/// The fields of `cost K V`.
#[tactic(auto, unfolding(crate::specs::Command::read_cost))]
fn read_cost(fields: Words) -> Result<Edit, LineFault>
    ensures { result ≡ read_cost fields.entry }
{
    let (arc, cost) = fields.two()?;
    let (arc, cost) = (number_in(arc), integer_in(cost, COST_LIMIT));
    Ok(Edit::Cost {
        arc: arc?,
        cost: cost?,
    })
}

/// The fields of `supply ID V`.
#[tactic(auto, unfolding(crate::specs::Command::read_supply))]
fn read_supply(fields: Words) -> Result<Edit, LineFault>
    ensures { result ≡ read_supply fields.entry }
{
    let (node, value) = fields.two()?;
    let (node, value) = (number_in(node), integer_in(value, SUPPLY_LIMIT));
    Ok(Edit::Supply {
        node: node?,
        value: value?,
    })
}

/// The fields of `add`, which are those of the kind's arc line.
fn read_add(kind: Kind, fields: Words) -> Result<Edit, LineFault>
    ensures { result ≡ read_add kind fields.entry }
{
    match kind {
        Kind::Min => read_min_arc(fields),
        Kind::Max => read_max_arc(fields),
        Kind::Asn => read_asn_arc(fields),
    }
}

/// The fields `SRC DST LOW CAP COST`.
#[tactic(auto, unfolding(crate::specs::Command::read_min_arc))]
fn read_min_arc(fields: Words) -> Result<Edit, LineFault>
    ensures { result ≡ read_min_arc fields.entry }
{
    let (tail, head, low, cap, cost) = fields.five()?;
    let (tail, head) = (number_in(tail), number_in(head));
    let (low, cap) = (natural_in(low, 0, CAP_LIMIT), natural_in(cap, 0, CAP_LIMIT));
    let cost = integer_in(cost, COST_LIMIT);
    Ok(Edit::Add {
        tail: tail?,
        head: head?,
        low: low? as i64,
        cap: cap? as i64,
        cost: cost?,
    })
}

/// The fields `SRC DST CAP`.
#[tactic(auto, unfolding(crate::specs::Command::read_max_arc))]
fn read_max_arc(fields: Words) -> Result<Edit, LineFault>
    ensures { result ≡ read_max_arc fields.entry }
{
    let (tail, head, cap) = fields.three()?;
    let (tail, head) = (number_in(tail), number_in(head));
    let cap = natural_in(cap, 0, CAP_LIMIT);
    Ok(Edit::Add {
        tail: tail?,
        head: head?,
        low: 0,
        cap: cap? as i64,
        cost: 0,
    })
}

/// The fields `SRC DST COST`.
#[tactic(auto, unfolding(crate::specs::Command::read_asn_arc))]
fn read_asn_arc(fields: Words) -> Result<Edit, LineFault>
    ensures { result ≡ read_asn_arc fields.entry }
{
    let (tail, head, cost) = fields.three()?;
    let (tail, head) = (number_in(tail), number_in(head));
    let cost = integer_in(cost, COST_LIMIT);
    Ok(Edit::Add {
        tail: tail?,
        head: head?,
        low: 0,
        cap: 1,
        cost: cost?,
    })
}

/// The field of `close K`.
#[tactic(auto, unfolding(crate::specs::Command::read_close))]
fn read_close(fields: Words) -> Result<Edit, LineFault>
    ensures { result ≡ read_close fields.entry }
{
    let arc = number_in(fields.one()?)?;
    Ok(Edit::Close { arc })
}
