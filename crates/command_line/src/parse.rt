//! The task that a command line names.
ghost use Rattle.std.specs.Prelude.{◌≡◌, true, IfOk, IfErr, MatchResult, Some, codes, is_some, map, string_bytes};
ghost use Rattle.clap.specs.Words.{first_of, found_of, rows_of};
ghost use Rattle.command_line.specs.Tasks.{CallCommand, IsExtra, IsNotANumber, IsRefusal, Names, command_of};

use crate::commands::program;
use crate::tasks::{DEFAULT_EXTRA, EXTRA_LIMIT, Task, Usage};
use clap::ArgMatches;
use dimacs_lines::DIGIT_LIMIT;
use std::alloc::Global;

/// Reads the words of a command line, the program's own name first.
pub fn task<'a>(alloc: Global, words: &'a [String]) -> Result<Task<'a>, Usage>
    ensures named { IfOk result (Names (command_of (map string_bytes words.entry.now))) }
    ensures taken { IfOk result (λ _. CallCommand (map string_bytes words.entry.now)) }
    ensures refused { IfErr result (IsRefusal (map string_bytes words.entry.now)) }
{
    let matches = program(alloc)?.try_get_matches_from(words)?;
    let Some((name, found)) = matches.subcommand() else {
        unreachable!();
    };
    match name {
        "solve" => Ok(solve_task(found)),
        "session" => session_task(found),
        "check" => Ok(check_task(found)),
        _ => unreachable!(),
    }
}

/// The task of `solve`, by its matches.
fn solve_task<'a>(found: &ArgMatches<'a>) -> Task<'a>
    ensures { Names (Some (codes "solve", rows_of (found_of found.now))) result }
{
    Task::Solve {
        proof: found.get_one("proof").unwrap_or(false),
        file: found.get_str("file"),
    }
}

/// The task of `session`, by its matches.
fn session_task<'a>(found: &ArgMatches<'a>) -> Result<Task<'a>, Usage>
    requires { is_some (first_of (codes "problem") (rows_of (found_of found.now))) ≡ true }
    ensures { MatchResult result (Names (Some (codes "session", rows_of (found_of found.now))))
        (IsNotANumber (rows_of (found_of found.now))) }
{
    let extra = extra(found)?;
    Ok(Task::Session {
        problem: named_file(found, "problem"),
        extra,
    })
}

/// For how many arcs more the word of `--extra` asks for room. It is a number as in a text, where `clap` takes a sign and
/// any number of zeros too.
fn extra(found: &ArgMatches<'_>) -> Result<u32, Usage>
    ensures { MatchResult result (IsExtra (first_of (codes "extra") (rows_of (found_of found.now))))
        (IsNotANumber (rows_of (found_of found.now))) }
{
    let Some(word) = found.get_str("extra") else {
        return Ok(DEFAULT_EXTRA);
    };
    let Ok(extra) = word.parse::<u32>() else {
        return Err(Usage::NotANumber);
    };
    if word.starts_with('+') {
        return Err(Usage::NotANumber);
    }
    if word.len() > DIGIT_LIMIT {
        return Err(Usage::NotANumber);
    }
    if extra > EXTRA_LIMIT {
        return Err(Usage::NotANumber);
    }
    Ok(extra)
}

/// The task of `check`, by its matches.
fn check_task<'a>(found: &ArgMatches<'a>) -> Task<'a>
    requires problem { is_some (first_of (codes "problem") (rows_of (found_of found.now))) ≡ true }
    requires answer { is_some (first_of (codes "answer") (rows_of (found_of found.now))) ≡ true }
    ensures { Names (Some (codes "check", rows_of (found_of found.now))) result }
{
    Task::Check {
        problem: named_file(found, "problem"),
        answer: named_file(found, "answer"),
    }
}

/// The file that an argument names which the command line has to have.
fn named_file<'a>(found: &ArgMatches<'a>, id: &str) -> &'a str
    requires { is_some (first_of id.now (rows_of (found_of found.now))) ≡ true }
    ensures { first_of id.now (rows_of (found_of found.now)) ≡ Some result.now }
{
    let Some(file) = found.get_str(id) else {
        unreachable!();
    };
    file
}
