//! The arguments of `why`.

ghost use Rattle.std.specs.Prelude.{IfOk};
ghost use Rattle.clap.specs.Words.{found_of, rows_of};
ghost use Rattle.cli_base.specs.Values.{OnWrong};
ghost use Rattle.cli_tool_words.specs.Words.{VerbMakes, VerbMakesNone};

use crate::args::{ToolCommand, WhyArgs};
use crate::ask_words::cells_of;
use crate::verb::ToolVerb;
use clap::ArgMatches;
use cli_base::{ArgsError, flag_of, optional_number, optional_text, text_of, texts_of};
use std::alloc::Global;

/// The command of `why`.
pub(crate) fn read_why<'a>(
    alloc: Global,
    found: &ArgMatches<'a>,
) -> Result<ToolCommand<'a>, ArgsError>
    ensures made { IfOk result (VerbMakes ToolVerb.Why (rows_of (found_of found.now))) }
    ensures none { OnWrong result (VerbMakesNone ToolVerb.Why (rows_of (found_of found.now))) }
{
    let manifest = text_of(found, "MANIFEST")?;
    let cells = cells_of(alloc, found)?;
    let Ok(logs) = texts_of(alloc, found, "LOG") else {
        return Err(ArgsError::Memory);
    };
    Ok(ToolCommand::Why(WhyArgs {
        manifest,
        logs,
        address: optional_text(found, "address"),
        bucket: optional_number(found, "bucket"),
        id: optional_text(found, "id"),
        all: flag_of(found, "all"),
        cells,
        operator: optional_number(found, "operator"),
    }))
}
