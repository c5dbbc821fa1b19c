//! The argument of `completion`.

ghost use Rattle.std.specs.Prelude.{◌≡◌, ◌≢◌, IfNone, IfOk, IfSome, OnErr};
ghost use Rattle.clap.specs.Words.{found_of, rows_of};
ghost use Rattle.cli_base.specs.Values.{OnWrong};
ghost use Rattle.cli_tool_words.specs.CompletionWords as specs;
ghost use Rattle.cli_tool_words.specs.Words.{VerbMakes, VerbMakesNone};

use crate::args::{Shell, ToolCommand};
use crate::verb::ToolVerb;
use clap::ArgMatches;
use cli_base::{ArgsError, ArgumentFault, text_of};

/// The command of `completion`.
pub(crate) fn read_completion<'a>(found: &ArgMatches<'a>) -> Result<ToolCommand<'a>, ArgsError>
    ensures made { IfOk result (VerbMakes ToolVerb.Completion (rows_of (found_of found.now))) }
    ensures none { OnWrong result
        (VerbMakesNone ToolVerb.Completion (rows_of (found_of found.now))) }
{
    match shell_of(found) {
        Ok(shell) => Ok(ToolCommand::Completion { shell }),
        Err(error) => Err(error),
    }
}

fn shell_of(found: &ArgMatches<'_>) -> Result<Shell, ArgsError>
    ensures given { IfOk result (specs.HasShell (rows_of (found_of found.now))) }
    ensures lacking { OnErr result (specs.LacksShell (rows_of (found_of found.now))) }
{
    let name = text_of(found, "SHELL")?;
    match shell_named(name) {
        Some(shell) => Ok(shell),
        None => Err(ArgsError::Wrong(ArgumentFault::Shell)),
    }
}

fn shell_named(name: &str) -> Option<Shell>
    ensures named { IfSome result (λ shell. name.now ≡ specs.name_of shell) }
    ensures only { IfNone result ((shell : Shell) → name.now ≢ specs.name_of shell) }
{
    match name {
        "bash" => Some(Shell::Bash),
        "zsh" => Some(Shell::Zsh),
        "fish" => Some(Shell::Fish),
        "man" => Some(Shell::Man),
        _ => None,
    }
}
