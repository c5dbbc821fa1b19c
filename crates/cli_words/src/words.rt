//! The command of a command line's words.

ghost use Rattle.std.specs.Prelude.{map, IfOk, IfErr};
ghost use Rattle.clap.specs.Words.{found_of, rows_of, subcommand_rows_of};
ghost use Rattle.cli_base.specs.Grammar.{verb_of};
ghost use Rattle.cli_base.specs.Requests.{FoundMakes, FoundMakesNone};
ghost use Rattle.cli_base.specs.Values.{OnWrong};
ghost use Rattle.cli_words.specs.Grammar.{names};
ghost use Rattle.cli_words.specs.Requests.{AskFor, IsWordsFault};
ghost use Rattle.cli_words.specs.Words.{VerbMakes, VerbMakesNone};

use crate::brake_words::{read_halt, read_resume, read_state};
use crate::program_words::{read_assemble, read_compile, read_list, read_run_command, read_verify};
use crate::request::Command;
use crate::rows::command_rows;
use crate::server_words::{read_cells, read_load, read_replay, read_serve, read_show, read_stop};
use crate::verb::Verb;
use clap::ArgMatches;
use cli_base::{ArgsError, ArgumentFault, WordsFault, command_found, read_matches};
use std::alloc::Global;
use std::convert::AsStr;

/// Reads the command of a command line. The first word is the program's name.
// open: whether an allocation fails; texts of help; which argument is malformed; that words that
// fit the grammar make a command: tests, command by command.
pub fn read_words<'a, S: AsStr>(alloc: Global, words: &'a [S]) -> Result<Command<'a>, WordsFault>
    ensures request { IfOk result (AskFor (map S.text words.now)) }
    ensures fault { IfErr result (IsWordsFault (map S.text words.now)) }
{
    let matches = match read_matches(alloc, command_rows(), words) {
        Ok(matches) => matches,
        Err(fault) => return Err(fault),
    };
    match command_of(alloc, &matches) {
        Ok(command) => Ok(command),
        Err(ArgsError::Wrong(fault)) => Err(WordsFault::Argument(fault)),
        Err(ArgsError::Memory) => Err(WordsFault::Memory),
    }
}

// The command of the matches, if they make one. Matches by the grammar make one if arrays,
// attributes and days are well-formed, since the grammar requires all other values and checks their
// ranges. This is tested, command by command.
fn command_of<'a>(alloc: Global, matches: &ArgMatches<'a>) -> Result<Command<'a>, ArgsError>
    ensures made { IfOk result (FoundMakes VerbMakes
        (verb_of names (subcommand_rows_of matches.now))) }
    ensures none { OnWrong result (FoundMakesNone VerbMakes
        (verb_of names (subcommand_rows_of matches.now))) }
{
    match command_found(command_rows(), matches) {
        Some((verb, found)) => command_with(alloc, verb, found),
        None => Err(ArgsError::Wrong(ArgumentFault::Missing)),
    }
}

fn command_with<'a>(
    alloc: Global,
    verb: Verb,
    found: &ArgMatches<'a>,
) -> Result<Command<'a>, ArgsError>
    ensures made { IfOk result (VerbMakes verb (rows_of (found_of found.now))) }
    ensures none { OnWrong result (VerbMakesNone verb (rows_of (found_of found.now))) }
{
    match verb {
        Verb::Assemble => read_assemble(found),
        Verb::Cells => read_cells(found),
        Verb::Compile => read_compile(alloc, found),
        Verb::Halt => read_halt(found),
        Verb::List => read_list(found),
        Verb::Load => read_load(found),
        Verb::Replay => read_replay(found),
        Verb::Resume => read_resume(found),
        Verb::Run => read_run_command(alloc, found),
        Verb::Serve => read_serve(found),
        Verb::Show => read_show(found),
        Verb::State => read_state(found),
        Verb::Stop => read_stop(found),
        Verb::Verify => read_verify(alloc, found),
    }
}
