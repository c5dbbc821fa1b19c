//! The arguments of the commands on programs.

ghost use Rattle.std.specs.Prelude.{IfOk};
ghost use Rattle.clap.specs.Words.{found_of, rows_of};
ghost use Rattle.cli_base.specs.Values.{OnWrong};
ghost use Rattle.cli_words.specs.Words.{VerbMakes, VerbMakesNone};

use crate::request::Command;
use crate::task::Task;
use crate::verb::Verb;
use clap::ArgMatches;
use cli_base::{ArgsError, ArgumentFault, is_text, read_run, shape_of, text_of};
use std::alloc::Global;

/// The command of `asm`.
pub fn read_assemble<'a>(found: &ArgMatches<'a>) -> Result<Command<'a>, ArgsError>
    ensures made { IfOk result (VerbMakes Verb.Assemble (rows_of (found_of found.now))) }
    ensures none { OnWrong result (VerbMakesNone Verb.Assemble (rows_of (found_of found.now))) }
{
    let text = text_of(found, "IN")?;
    let out = text_of(found, "OUT")?;
    Ok(Command::Task(Task::Assemble { text, out }))
}

/// The command of `compile`.
pub fn read_compile<'a>(alloc: Global, found: &ArgMatches<'a>) -> Result<Command<'a>, ArgsError>
    ensures made { IfOk result (VerbMakes Verb.Compile (rows_of (found_of found.now))) }
    ensures none { OnWrong result (VerbMakesNone Verb.Compile (rows_of (found_of found.now))) }
{
    let text = text_of(found, "IN")?;
    let out = text_of(found, "OUT")?;
    let shape = shape_of(alloc, found)?;
    Ok(Command::Task(Task::Compile { text, shape, out }))
}

/// The command of `list`.
pub fn read_list<'a>(found: &ArgMatches<'a>) -> Result<Command<'a>, ArgsError>
    ensures made { IfOk result (VerbMakes Verb.List (rows_of (found_of found.now))) }
    ensures none { OnWrong result (VerbMakesNone Verb.List (rows_of (found_of found.now))) }
{
    let path = text_of(found, "IN")?;
    Ok(Command::Task(Task::List { path }))
}

/// The command of `verify`.
pub fn read_verify<'a>(alloc: Global, found: &ArgMatches<'a>) -> Result<Command<'a>, ArgsError>
    ensures made { IfOk result (VerbMakes Verb.Verify (rows_of (found_of found.now))) }
    ensures none { OnWrong result (VerbMakesNone Verb.Verify (rows_of (found_of found.now))) }
{
    let path = text_of(found, "IN")?;
    let shape = shape_of(alloc, found)?;
    Ok(Command::Task(Task::Verify { path, shape }))
}

/// The command of `run`. `--trace` is an error, since `trace` is a command of its own.
pub fn read_run_command<'a>(alloc: Global, found: &ArgMatches<'a>) -> Result<Command<'a>, ArgsError>
    ensures made { IfOk result (VerbMakes Verb.Run (rows_of (found_of found.now))) }
    ensures none { OnWrong result (VerbMakesNone Verb.Run (rows_of (found_of found.now))) }
{
    if is_text(found, "trace", "true") {
        return Err(ArgsError::Wrong(ArgumentFault::Trace));
    }
    match read_run(alloc, found) {
        Ok(run) => Ok(Command::Task(Task::Run(run))),
        Err(error) => Err(error),
    }
}
