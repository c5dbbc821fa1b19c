//! The arguments of `halt`, `resume` and `state`.

ghost use Rattle.std.specs.Prelude.{IfOk};
ghost use Rattle.clap.specs.Words.{found_of, rows_of};
ghost use Rattle.cli_base.specs.Values.{OnWrong};
ghost use Rattle.cli_words.specs.Words.{VerbMakes, VerbMakesNone};

use crate::request::Command;
use crate::task::Task;
use crate::verb::Verb;
use clap::ArgMatches;
use cli_base::{ArgsError, number_of, text_of};
use operator_request::OperatorRequest;

/// The command of `halt`.
pub fn read_halt<'a>(found: &ArgMatches<'a>) -> Result<Command<'a>, ArgsError>
    ensures made { IfOk result (VerbMakes Verb.Halt (rows_of (found_of found.now))) }
    ensures none { OnWrong result (VerbMakesNone Verb.Halt (rows_of (found_of found.now))) }
{
    let appid = text_of(found, "APPID")?;
    let port = number_of(found, "operator")?;
    let request = OperatorRequest::Halt(appid);
    Ok(Command::Task(Task::Send { request, port }))
}

/// The command of `resume`.
pub fn read_resume<'a>(found: &ArgMatches<'a>) -> Result<Command<'a>, ArgsError>
    ensures made { IfOk result (VerbMakes Verb.Resume (rows_of (found_of found.now))) }
    ensures none { OnWrong result (VerbMakesNone Verb.Resume (rows_of (found_of found.now))) }
{
    let appid = text_of(found, "APPID")?;
    let port = number_of(found, "operator")?;
    let request = OperatorRequest::Resume(appid);
    Ok(Command::Task(Task::Send { request, port }))
}

/// The command of `state`.
pub fn read_state<'a>(found: &ArgMatches<'a>) -> Result<Command<'a>, ArgsError>
    ensures made { IfOk result (VerbMakes Verb.State (rows_of (found_of found.now))) }
    ensures none { OnWrong result (VerbMakesNone Verb.State (rows_of (found_of found.now))) }
{
    let port = number_of(found, "operator")?;
    let request = OperatorRequest::State;
    Ok(Command::Task(Task::Send { request, port }))
}
