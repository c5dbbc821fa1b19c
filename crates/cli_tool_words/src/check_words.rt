//! The arguments of `check`.

ghost use Rattle.std.specs.Prelude.{◌≡◌, IfOk, map};
ghost use Rattle.std.specs.List.{list_all};
ghost use Rattle.clap.specs.Words.{found_of, rows_of};
ghost use Rattle.cli_base.specs.Values.{OnWrong};
ghost use Rattle.cli_tool_words.specs.CheckWords.{HasCheck, LacksCheck};
ghost use Rattle.cli_tool_words.specs.Words.{VerbMakes, VerbMakesNone};
ghost use Rattle.warnings.specs.Names.{is_warning_name};

use crate::args::{CheckArgs, ToolCommand};
use crate::verb::ToolVerb;
use clap::ArgMatches;
use cli_base::{ArgsError, ArgumentFault, flag_of, texts_of};
use std::alloc::Global;
use warnings::is_warning_name;

/// The command of `check`.
pub(crate) fn read_check<'a>(
    alloc: Global,
    found: &ArgMatches<'a>,
) -> Result<ToolCommand<'a>, ArgsError>
    ensures made { IfOk result (VerbMakes ToolVerb.Check (rows_of (found_of found.now))) }
    ensures none { OnWrong result (VerbMakesNone ToolVerb.Check (rows_of (found_of found.now))) }
{
    match check_args(alloc, found) {
        Ok(args) => Ok(ToolCommand::Check(args)),
        Err(error) => Err(error),
    }
}

// An error if a text of `--allow` isn't a warning's name.
fn check_args<'a>(alloc: Global, found: &ArgMatches<'a>) -> Result<CheckArgs<'a>, ArgsError>
    ensures given { IfOk result (HasCheck (rows_of (found_of found.now))) }
    ensures lacking { OnWrong result (LacksCheck (rows_of (found_of found.now))) }
{
    let Ok(allowed) = texts_of(alloc, found, "allow") else {
        return Err(ArgsError::Memory);
    };
    if !are_names(allowed.as_slice()) {
        return Err(ArgsError::Wrong(ArgumentFault::Allow));
    }
    let Ok(manifests) = texts_of(alloc, found, "MANIFEST") else {
        return Err(ArgsError::Memory);
    };
    Ok(CheckArgs {
        manifests,
        strict: flag_of(found, "strict"),
        allowed,
        json: flag_of(found, "json"),
    })
}

// Whether each text is a warning's name.
fn are_names(texts: &[&str]) -> bool
    ensures { result ≡ list_all is_warning_name (map (λ name. name.now) texts.now) }
{
    let mut left = texts;
    while let [text, others @ ..] = left {
        if !is_warning_name(text) {
            return false;
        }
        left = others;
    }
    true
}
