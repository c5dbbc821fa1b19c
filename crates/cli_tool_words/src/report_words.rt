//! The arguments of `report`.

ghost use Rattle.std.specs.Prelude.{◌↔◌, IfOk, IsSome, IsTrue, OnErr};
ghost use Rattle.std.specs.Option.{option_copied};
ghost use Rattle.clap.specs.Words.{first_of, found_of, rows_of};
ghost use Rattle.cli_base.specs.Values.{OnWrong};
ghost use Rattle.cli_tool_words.specs.ReportWords.{IsNamedTime, LacksNamedTime, LacksPage};
ghost use Rattle.cli_tool_words.specs.ReportWords.{MixesState};
ghost use Rattle.cli_tool_words.specs.Words.{VerbMakes, VerbMakesNone};

use crate::args::{ReportArgs, ToolCommand};
use crate::verb::ToolVerb;
use clap::ArgMatches;
use cli_base::{ArgsError, ArgumentFault, flag_of, optional_number, optional_text, texts_of};
use moments::{NamedTime, moment_in};
use std::alloc::Global;

/// The command of `report`.
pub(crate) fn read_report<'a>(
    alloc: Global,
    found: &ArgMatches<'a>,
) -> Result<ToolCommand<'a>, ArgsError>
    ensures made { IfOk result (VerbMakes ToolVerb.Report (rows_of (found_of found.now))) }
    ensures none { OnWrong result (VerbMakesNone ToolVerb.Report (rows_of (found_of found.now))) }
{
    let since = moment_of(found, "since", ArgumentFault::Since)?;
    let until = moment_of(found, "until", ArgumentFault::Until)?;
    if mixes_state(found) {
        return Err(ArgsError::Wrong(ArgumentFault::State));
    }
    if lacks_page(found) {
        return Err(ArgsError::Wrong(ArgumentFault::Missing));
    }
    let Ok(logs) = texts_of(alloc, found, "LOG") else {
        return Err(ArgsError::Memory);
    };
    Ok(ToolCommand::Report(ReportArgs {
        logs,
        since,
        until,
        prometheus: flag_of(found, "prometheus"),
        picture: optional_text(found, "svg"),
        page: optional_text(found, "html"),
        folder: optional_text(found, "folder"),
        state: optional_text(found, "state"),
        heads: flag_of(found, "heads"),
        operator: optional_number(found, "operator"),
    }))
}

// Whether `--state` is given with a moment.
fn mixes_state(found: &ArgMatches<'_>) -> bool
    ensures { IsTrue result ↔ MixesState (rows_of (found_of found.now)) }
{
    has_value(found, "state") && (has_value(found, "since") || has_value(found, "until"))
}

// Whether `--folder` is given without a page.
fn lacks_page(found: &ArgMatches<'_>) -> bool
    ensures { IsTrue result ↔ LacksPage (rows_of (found_of found.now)) }
{
    has_value(found, "folder") && !has_value(found, "html")
}

fn has_value(found: &ArgMatches<'_>, id: &str) -> bool
    ensures { IsTrue result ↔ IsSome (first_of id.now (rows_of (found_of found.now))) }
{
    optional_text(found, id).is_some()
}

// The moment of an option, if given; or this fault.
fn moment_of(
    found: &ArgMatches<'_>,
    id: &str,
    fault: ArgumentFault,
) -> Result<Option<NamedTime>, ArgsError>
    ensures given { IfOk result (IsNamedTime (first_of id.now (rows_of (found_of found.now)))) }
    ensures lacking { OnErr result
        (LacksNamedTime (first_of id.now (rows_of (found_of found.now)))) }
{
    moment_by(optional_text(found, id), fault)
}

fn moment_by(text: Option<&str>, fault: ArgumentFault) -> Result<Option<NamedTime>, ArgsError>
    ensures given { IfOk result (IsNamedTime (option_copied text.entry)) }
    ensures lacking { OnErr result (LacksNamedTime (option_copied text.entry)) }
{
    match text {
        Some(text) => match moment_in(text) {
            Some(moment) => Ok(Some(moment)),
            None => Err(ArgsError::Wrong(fault)),
        },
        None => Ok(None),
    }
}
