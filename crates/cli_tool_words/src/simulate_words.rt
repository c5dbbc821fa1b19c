//! The arguments of `simulate`.

ghost use Rattle.std.specs.Prelude.{◌↔◌, IfOk, IsNone, IsTrue, OnErr};
ghost use Rattle.std.specs.Option.{option_copied};
ghost use Rattle.clap.specs.Words.{found_of, rows_of};
ghost use Rattle.cli_base.specs.Values.{OnWrong};
ghost use Rattle.cli_tool_words.specs.SimulateWords as specs;
ghost use Rattle.cli_tool_words.specs.Words.{VerbMakes, VerbMakesNone};

use crate::args::{SimulateArgs, ToolCommand};
use crate::verb::ToolVerb;
use clap::ArgMatches;
use cli_base::{
    AppArgs, ArgsError, ArgumentFault, flag_of, is_text, optional_text, read_app, text_of,
};

/// The command of `simulate`.
pub(crate) fn read_simulate<'a>(found: &ArgMatches<'a>) -> Result<ToolCommand<'a>, ArgsError>
    ensures made { IfOk result (VerbMakes ToolVerb.Simulate (rows_of (found_of found.now))) }
    ensures none { OnWrong result
        (VerbMakesNone ToolVerb.Simulate (rows_of (found_of found.now))) }
{
    let manifest = text_of(found, "MANIFEST")?;
    let app = read_anyone(found)?;
    if writes_over(found) {
        return Err(ArgsError::Wrong(ArgumentFault::Overwritten));
    }
    if wants_against(found) {
        return Err(ArgsError::Wrong(ArgumentFault::Against));
    }
    Ok(ToolCommand::Simulate(SimulateArgs {
        manifest,
        against: optional_text(found, "against"),
        picture: optional_text(found, "svg"),
        app,
        appid: optional_text(found, "app"),
        fail_on_lost: flag_of(found, "fail-on-lost"),
        json: flag_of(found, "json"),
    }))
}

// The app that the options describe, without an appid and a cohort, since each app is simulated in
// each bucket.
fn read_anyone<'a>(found: &ArgMatches<'a>) -> Result<AppArgs<'a>, ArgsError>
    ensures given { IfOk result (specs.HasAnyone (rows_of (found_of found.now))) }
    ensures lacking { OnErr result (specs.LacksAnyone (rows_of (found_of found.now))) }
{
    let app = read_app(found)?;
    if is_anyones(&app) {
        Ok(app)
    } else {
        Err(ArgsError::Wrong(ArgumentFault::OneClient))
    }
}

// Whether the app has neither an appid nor a cohort.
fn is_anyones(app: &AppArgs<'_>) -> bool
    ensures { IsTrue result ↔ specs.IsAnyones app.now }
{
    is_absent(app.appid) && is_absent(app.cohort)
}

// Whether the file of the picture is one of the manifests.
fn writes_over(found: &ArgMatches<'_>) -> bool
    ensures { IsTrue result ↔ specs.WritesOver (rows_of (found_of found.now)) }
{
    match optional_text(found, "svg") {
        Some(file) => is_text(found, "MANIFEST", file) || is_text(found, "against", file),
        None => false,
    }
}

// Whether `--fail-on-lost` is given without `--against`.
fn wants_against(found: &ArgMatches<'_>) -> bool
    ensures { IsTrue result ↔ specs.WantsAgainst (rows_of (found_of found.now)) }
{
    is_text(found, "fail-on-lost", "true") && is_absent(optional_text(found, "against"))
}

fn is_absent(text: Option<&str>) -> bool
    ensures { IsTrue result ↔ IsNone (option_copied text.entry) }
{
    text.is_none()
}
