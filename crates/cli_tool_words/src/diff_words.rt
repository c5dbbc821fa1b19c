//! The arguments of `diff`.

ghost use Rattle.std.specs.Prelude.{IfOk};
ghost use Rattle.clap.specs.Words.{found_of, rows_of};
ghost use Rattle.cli_base.specs.Values.{OnWrong};
ghost use Rattle.cli_tool_words.specs.Words.{VerbMakes, VerbMakesNone};

use crate::args::{DiffArgs, ToolCommand};
use crate::ask_words::cells_of;
use crate::verb::ToolVerb;
use clap::ArgMatches;
use cli_base::{ArgsError, flag_of, from_of, optional_number, optional_text, text_of};
use std::alloc::Global;

/// The command of `diff`.
pub(crate) fn read_diff<'a>(
    alloc: Global,
    found: &ArgMatches<'a>,
) -> Result<ToolCommand<'a>, ArgsError>
    ensures made { IfOk result (VerbMakes ToolVerb.Diff (rows_of (found_of found.now))) }
    ensures none { OnWrong result (VerbMakesNone ToolVerb.Diff (rows_of (found_of found.now))) }
{
    let old = text_of(found, "OLD")?;
    let new = text_of(found, "NEW")?;
    let from = from_of(found)?;
    let cells = cells_of(alloc, found)?;
    Ok(ToolCommand::Diff(DiffArgs {
        old,
        new,
        appid: optional_text(found, "app"),
        from,
        cells,
        operator: optional_number(found, "operator"),
        fail_on_lost: flag_of(found, "fail-on-lost"),
        json: flag_of(found, "json"),
    }))
}
