//! The commands `explain`, `order` and `trace`.

ghost use Rattle.std.specs.Prelude.{IfOk};
ghost use Rattle.clap.specs.Words.{found_of, rows_of};
ghost use Rattle.cli_base.specs.Values.{OnWrong};
ghost use Rattle.cli_tool_words.specs.Words.{VerbMakes, VerbMakesNone};

use crate::args::ToolCommand;
use crate::verb::ToolVerb;
use clap::ArgMatches;
use cli_base::{ArgsError, read_run, shape_of, text_of};
use std::alloc::Global;

/// `explain`.
pub(crate) fn read_explain<'a>(
    alloc: Global,
    found: &ArgMatches<'a>,
) -> Result<ToolCommand<'a>, ArgsError>
    ensures made { IfOk result (VerbMakes ToolVerb.Explain (rows_of (found_of found.now))) }
    ensures none { OnWrong result
        (VerbMakesNone ToolVerb.Explain (rows_of (found_of found.now))) }
{
    let path = text_of(found, "IN")?;
    let shape = shape_of(alloc, found)?;
    Ok(ToolCommand::Explain { path, shape })
}

/// `order`.
pub(crate) fn read_order<'a>(found: &ArgMatches<'a>) -> Result<ToolCommand<'a>, ArgsError>
    ensures made { IfOk result (VerbMakes ToolVerb.Order (rows_of (found_of found.now))) }
    ensures none { OnWrong result
        (VerbMakesNone ToolVerb.Order (rows_of (found_of found.now))) }
{
    let path = text_of(found, "IN")?;
    let out = text_of(found, "OUT")?;
    Ok(ToolCommand::Order { path, out })
}

/// `trace`.
pub(crate) fn read_trace<'a>(
    alloc: Global,
    found: &ArgMatches<'a>,
) -> Result<ToolCommand<'a>, ArgsError>
    ensures made { IfOk result (VerbMakes ToolVerb.Trace (rows_of (found_of found.now))) }
    ensures none { OnWrong result
        (VerbMakesNone ToolVerb.Trace (rows_of (found_of found.now))) }
{
    match read_run(alloc, found) {
        Ok(run) => Ok(ToolCommand::Trace(run)),
        Err(error) => Err(error),
    }
}
