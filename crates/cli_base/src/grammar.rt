//! The grammar of a command line, from a table of commands.

ghost use Rattle.std.specs.Prelude.{◌≡◌, IfOk, false};
ghost use Rattle.clap.specs.Words.{app_of, shape_of};
ghost use Rattle.clap.specs.declared.builder.command.Command.TheViews.{out-Command as fields_of};
ghost use Rattle.cli_base.specs.Grammar as specs;

use crate::argument::arg_of;
use crate::help::HELP;
use crate::row::CommandRow;
use clap::Command;
use std::alloc::{AllocError, Global};

// The command of a row. None of its arguments is global.
fn command_of<'a, V>(alloc: Global, row: &CommandRow<V>) -> Result<Command<'a>, AllocError>
    ensures shape { IfOk result (λ c. shape_of c ≡ specs.shape_of_row row.now) }
    ensures local { IfOk result (λ c. (fields_of c).has_globals ≡ false) }
{
    let mut command = Command::new(alloc, row.name).about(row.about);
    for argument in row.arguments {
        let arg = arg_of(alloc, argument)?;
        command = command.arg(arg)?;
    }
    match row.end {
        Some(text) => Ok(command.after_help(text)),
        None => Ok(command),
    }
}

/// The grammar of these commands. The page of help without a command is the same for each table:
/// it names the commands of both programs.
pub fn grammar_of<'a, V>(alloc: Global, rows: &[CommandRow<V>]) -> Result<Command<'a>, AllocError>
    ensures { IfOk result (λ c. app_of c ≡ specs.app_of_rows rows.now) }
{
    let mut grammar = Command::new(alloc, "rollout")
        .override_help(HELP)
        .subcommand_required(true);
    for row in rows {
        let command = command_of(alloc, row)?;
        grammar = grammar.subcommand(command)?;
    }
    Ok(grammar)
}
