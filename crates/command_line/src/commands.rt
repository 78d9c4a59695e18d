//! The commands of the program, as `clap` builds them.
ghost use Rattle.std.specs.Prelude.{◌≡◌, IfOk, codes, false};
ghost use Rattle.clap.specs.Words.{App, app_of, new_app, rule_of, with_rule, with_subcommand};
ghost use Rattle.clap.specs.declared.builder.command.Command.TheViews.{out-Command};
ghost use Rattle.command_line.specs.Tasks as tasks;
ghost use Rattle.command_line.specs.Tasks.{extra_rule, file_rule, needed_rule, proof_rule};

use crate::help;
use crate::tasks::EXTRA_LIMIT;
use clap::{Arg, ArgAction, Command};
use std::alloc::{AllocError, Global};

/// What `--version` says after the program's name.
const VERSION: &str = "0.1.0";

/// `--proof`
fn proof<'a>(alloc: Global) -> Arg<'a>
    ensures rule { rule_of result ≡ proof_rule }
    ensures local { result.global ≡ false }
{
    Arg::new(alloc, "proof")
        .long("proof")
        .help("Print the potentials too, which prove that the flow is best")
        .action(ArgAction::SetTrue)
}

/// `--extra N`, with N up to `EXTRA_LIMIT`.
fn extra<'a>(alloc: Global) -> Arg<'a>
    ensures rule { rule_of result ≡ extra_rule }
    ensures local { result.global ≡ false }
{
    Arg::new(alloc, "extra")
        .long("extra")
        .value_name("N")
        .help("How many arcs can be added: 0 to 100,000, and 1,000 without this option")
        .action(ArgAction::Set)
        .value_parser(clap::value_parser!(u32).range(0..=i64::from(EXTRA_LIMIT)))
}

/// A file that may be left out.
fn file<'a>(alloc: Global) -> Arg<'a>
    ensures rule { rule_of result ≡ file_rule }
    ensures local { result.global ≡ false }
{
    Arg::new(alloc, "file")
        .value_name("FILE")
        .help("The problem; standard input where it is left out")
        .action(ArgAction::Set)
}

/// A file that has to be named, and what help calls it and says of it.
fn needed<'a>(alloc: Global, id: &'a str, name: &'a str, words: &'a str) -> Arg<'a>
    ensures rule { rule_of result ≡ needed_rule id.entry.now }
    ensures local { result.global ≡ false }
{
    Arg::new(alloc, id)
        .value_name(name)
        .help(words)
        .action(ArgAction::Set)
        .required(true)
}

/// The problem of a session or a check.
fn problem<'a>(alloc: Global) -> Arg<'a>
    ensures rule { rule_of result ≡ needed_rule (codes "problem") }
    ensures local { result.global ≡ false }
{
    needed(alloc, "problem", "PROBLEM", "The file of the problem")
}

/// The answer that is checked.
fn answer<'a>(alloc: Global) -> Arg<'a>
    ensures rule { rule_of result ≡ needed_rule (codes "answer") }
    ensures local { result.global ≡ false }
{
    needed(
        alloc,
        "answer",
        "ANSWER",
        "The file of the answer, as 'mcf solve --proof' prints it",
    )
}

/// A command of this name with two arguments.
fn command<'a>(
    alloc: Global,
    name: &'a str,
    about: &'a str,
    after_help: &'a str,
    first: Arg<'a>,
    second: Arg<'a>,
) -> Result<Command<'a>, AllocError>
    requires first { first.global ≡ false }
    requires second { second.global ≡ false }
    ensures app { IfOk result (λ c. app_of c ≡ with_rule
        (with_rule (new_app name.entry.now) (rule_of first.entry)) (rule_of second.entry)) }
    ensures local { IfOk result (λ c. (out-Command c).has_globals ≡ false) }
{
    Command::new(alloc, name)
        .about(about)
        .after_help(after_help)
        .arg(first)?
        .arg(second)
}

/// `solve [--proof] [FILE]`
fn solve_command<'a>(alloc: Global) -> Result<Command<'a>, AllocError>
    ensures app { IfOk result (λ c. app_of c ≡ tasks.solve_command) }
    ensures local { IfOk result (λ c. (out-Command c).has_globals ≡ false) }
{
    let (about, after_help) = (help::SOLVE, help::AFTER_SOLVE);
    command(alloc, "solve", about, after_help, proof(alloc), file(alloc))
}

/// `session [--extra N] PROBLEM`
fn session_command<'a>(alloc: Global) -> Result<Command<'a>, AllocError>
    ensures app { IfOk result (λ c. app_of c ≡ tasks.session_command) }
    ensures local { IfOk result (λ c. (out-Command c).has_globals ≡ false) }
{
    let (about, after_help) = (help::SESSION, help::AFTER_SESSION);
    command(
        alloc,
        "session",
        about,
        after_help,
        extra(alloc),
        problem(alloc),
    )
}

/// `check PROBLEM ANSWER`
fn check_command<'a>(alloc: Global) -> Result<Command<'a>, AllocError>
    ensures app { IfOk result (λ c. app_of c ≡ tasks.check_command) }
    ensures local { IfOk result (λ c. (out-Command c).has_globals ≡ false) }
{
    let (about, after_help) = (help::CHECK, help::AFTER_CHECK);
    command(
        alloc,
        "check",
        about,
        after_help,
        problem(alloc),
        answer(alloc),
    )
}

/// The program before its commands.
fn bare_program<'a>(alloc: Global) -> Command<'a>
    ensures app { app_of result ≡ tasks.bare_program }
    ensures local { (out-Command result).has_globals ≡ false }
{
    Command::new(alloc, "mcf")
        .version(VERSION)
        .about(help::PROGRAM)
        .after_help(help::AFTER_PROGRAM)
        .subcommand_required(true)
}

/// The program with its commands.
pub fn program<'a>(alloc: Global) -> Result<Command<'a>, AllocError>
    ensures app { IfOk result (λ c. app_of c ≡ tasks.program) }
{
    let program = with_command(bare_program(alloc), solve_command(alloc))?;
    let program = with_command(program, session_command(alloc))?;
    with_command(program, check_command(alloc))
}

/// A program with one command more.
fn with_command<'a>(
    program: Command<'a>,
    command: Result<Command<'a>, AllocError>,
) -> Result<Command<'a>, AllocError>
    ensures { (app sub : App) → app_of program.entry ≡ app
        → IfOk command.entry (λ c. app_of c ≡ sub)
        → IfOk command.entry (λ c. (out-Command c).has_globals ≡ false)
        → IfOk result (λ more. app_of more ≡ with_subcommand app sub.top) }
{
    match command {
        Ok(command) => program.subcommand(command),
        Err(refused) => Err(refused),
    }
}
