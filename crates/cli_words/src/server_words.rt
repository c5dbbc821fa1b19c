//! The arguments of `replay`, and of the commands that start a server or are sent to one.

ghost use Rattle.std.specs.Prelude.{List, IfOk, OnErr, codes};
ghost use Rattle.clap.specs.Words.{Row, found_of, rows_of};
ghost use Rattle.cli_base.specs.Values.{HasFlag, HasShort, OnWrong};
ghost use Rattle.cli_words.specs.Words.{HasPlan, LacksPlan, VerbMakes, VerbMakesNone};

use crate::request::{Command, ServeArgs, ServePlan};
use crate::task::Task;
use crate::verb::Verb;
use clap::ArgMatches;
use cli_base::{
    ArgsError, ArgumentFault, flag_of, number_of, optional_number, optional_text, text_of,
};
use operator_request::OperatorRequest;

/// The command of `replay`.
pub fn read_replay<'a>(found: &ArgMatches<'a>) -> Result<Command<'a>, ArgsError>
    ensures made { IfOk result (VerbMakes Verb.Replay (rows_of (found_of found.now))) }
    ensures none { OnWrong result (VerbMakesNone Verb.Replay (rows_of (found_of found.now))) }
{
    let manifest = text_of(found, "MANIFEST")?;
    let script = text_of(found, "SCRIPT")?;
    Ok(Command::Task(Task::Replay { manifest, script }))
}

/// The command of `serve`.
pub fn read_serve<'a>(found: &ArgMatches<'a>) -> Result<Command<'a>, ArgsError>
    ensures made { IfOk result (VerbMakes Verb.Serve (rows_of (found_of found.now))) }
    ensures none { OnWrong result (VerbMakesNone Verb.Serve (rows_of (found_of found.now))) }
{
    let manifest = text_of(found, "MANIFEST")?;
    let plan = plan_of(found)?;
    Ok(Command::Serve(ServeArgs {
        manifest,
        counters: optional_text(found, "counters"),
        plan,
    }))
}

// How a server is to serve, by the options.
fn plan_of(found: &ArgMatches<'_>) -> Result<ServePlan, ArgsError>
    ensures given { IfOk result (HasPlan (rows_of (found_of found.now))) }
    ensures lacking { OnErr result (LacksPlan (rows_of (found_of found.now))) }
{
    let port = number_of(found, "port")?;
    let operator = number_of(found, "operator")?;
    let workers = number_of(found, "workers")?;
    let timeout = number_of(found, "timeout")?;
    let wait = optional_number(found, "wait-counters");
    if workers < 1 || workers > 64 {
        return Err(ArgsError::Wrong(ArgumentFault::Missing));
    }
    Ok(ServePlan {
        port,
        operator,
        workers,
        timeout,
        wait,
        log: flag_of(found, "log"),
    })
}

/// The command of `load`.
pub fn read_load<'a>(found: &ArgMatches<'a>) -> Result<Command<'a>, ArgsError>
    ensures made { IfOk result (VerbMakes Verb.Load (rows_of (found_of found.now))) }
    ensures none { OnWrong result (VerbMakesNone Verb.Load (rows_of (found_of found.now))) }
{
    let path = text_of(found, "PATH")?;
    let port = number_of(found, "operator")?;
    let request = OperatorRequest::Load(path);
    Ok(Command::Task(Task::Send { request, port }))
}

/// The command of `show`.
pub fn read_show<'a>(found: &ArgMatches<'a>) -> Result<Command<'a>, ArgsError>
    ensures made { IfOk result (VerbMakes Verb.Show (rows_of (found_of found.now))) }
    ensures none { OnWrong result (VerbMakesNone Verb.Show (rows_of (found_of found.now))) }
{
    let port = number_of(found, "operator")?;
    let request = OperatorRequest::Show;
    Ok(Command::Task(Task::Send { request, port }))
}

/// The command of `cells`.
pub fn read_cells<'a>(found: &ArgMatches<'a>) -> Result<Command<'a>, ArgsError>
    ensures made { IfOk result (VerbMakes Verb.Cells (rows_of (found_of found.now))) }
    ensures none { OnWrong result (VerbMakesNone Verb.Cells (rows_of (found_of found.now))) }
{
    let port = number_of(found, "operator")?;
    let request = OperatorRequest::Cells;
    Ok(Command::Task(Task::Send { request, port }))
}

/// The command of `stop`.
pub fn read_stop<'a>(found: &ArgMatches<'a>) -> Result<Command<'a>, ArgsError>
    ensures made { IfOk result (VerbMakes Verb.Stop (rows_of (found_of found.now))) }
    ensures none { OnWrong result (VerbMakesNone Verb.Stop (rows_of (found_of found.now))) }
{
    let port = number_of(found, "operator")?;
    let wait = flag_of(found, "wait");
    Ok(Command::Task(stop_or_wait(wait, port)))
}

// A request to stop, which waits for the server's end if `wait` is true.
fn stop_or_wait<'a>(wait: bool, port: u16) -> Task<'a>
    ensures { (rows : List Row) → HasShort (codes "operator") rows port
        → HasFlag (codes "wait") rows wait → VerbMakes Verb.Stop rows (Command.Task result) }
{
    if wait {
        Task::StopAndWait { port }
    } else {
        Task::Send {
            request: OperatorRequest::Stop,
            port,
        }
    }
}
