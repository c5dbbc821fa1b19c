//! The command that the words of `rollout-tools` make.

ghost use Rattle.std.specs.Prelude.{IfErr, IfOk, map};
ghost use Rattle.clap.specs.Words.{found_of, rows_of, subcommand_rows_of};
ghost use Rattle.cli_base.specs.Grammar.{verb_of};
ghost use Rattle.cli_base.specs.Requests.{FoundMakes, FoundMakesNone};
ghost use Rattle.cli_base.specs.Values.{OnWrong};
ghost use Rattle.cli_tool_words.specs.Requests.{AskFor, IsWordsFault};
ghost use Rattle.cli_tool_words.specs.Tools.{names};
ghost use Rattle.cli_tool_words.specs.Words.{VerbMakes, VerbMakesNone};

use crate::args::ToolCommand;
use crate::ask_words::read_ask;
use crate::check_words::read_check;
use crate::completion_words::read_completion;
use crate::diff_words::read_diff;
use crate::program_words::{read_explain, read_order, read_trace};
use crate::report_words::read_report;
use crate::rows::tool_rows;
use crate::simulate_words::read_simulate;
use crate::stage_words::read_stage;
use crate::verb::ToolVerb;
use crate::why_words::read_why;
use clap::ArgMatches;
use cli_base::{ArgsError, ArgumentFault, WordsFault, command_found, read_matches};
use std::alloc::Global;
use std::convert::AsStr;

/// Reads the command of a command line. The first word is the program's name. A word that is a
/// command of `rollout` is unknown here.
// open: whether an allocation fails; texts of help; which argument is wrong, and that words that
// fit the grammar make a command: tests, command by command.
pub fn read_tool_words<'a, S: AsStr>(
    alloc: Global,
    words: &'a [S],
) -> Result<ToolCommand<'a>, WordsFault>
    ensures request { IfOk result (AskFor (map S.text words.now)) }
    ensures fault { IfErr result (IsWordsFault (map S.text words.now)) }
{
    let matches = match read_matches(alloc, &tool_rows(), words) {
        Ok(matches) => matches,
        Err(fault) => return Err(fault),
    };
    match command_of(alloc, &matches) {
        Ok(command) => Ok(command),
        Err(ArgsError::Wrong(fault)) => Err(WordsFault::Argument(fault)),
        Err(ArgsError::Memory) => Err(WordsFault::Memory),
    }
}

// The command of the matches, if they make one.
fn command_of<'a>(alloc: Global, matches: &ArgMatches<'a>) -> Result<ToolCommand<'a>, ArgsError>
    ensures made { IfOk result (FoundMakes VerbMakes
        (verb_of names (subcommand_rows_of matches.now))) }
    ensures none { OnWrong result (FoundMakesNone VerbMakes
        (verb_of names (subcommand_rows_of matches.now))) }
{
    match command_found(&tool_rows(), matches) {
        Some((verb, found)) => command_with(alloc, verb, found),
        None => Err(ArgsError::Wrong(ArgumentFault::Missing)),
    }
}

fn command_with<'a>(
    alloc: Global,
    verb: ToolVerb,
    found: &ArgMatches<'a>,
) -> Result<ToolCommand<'a>, ArgsError>
    ensures made { IfOk result (VerbMakes verb (rows_of (found_of found.now))) }
    ensures none { OnWrong result (VerbMakesNone verb (rows_of (found_of found.now))) }
{
    match verb {
        ToolVerb::Ask => read_ask(alloc, found),
        ToolVerb::Check => read_check(alloc, found),
        ToolVerb::Completion => read_completion(found),
        ToolVerb::Diff => read_diff(alloc, found),
        ToolVerb::Explain => read_explain(alloc, found),
        ToolVerb::Order => read_order(found),
        ToolVerb::Report => read_report(alloc, found),
        ToolVerb::Simulate => read_simulate(found),
        ToolVerb::Stage => read_stage(alloc, found),
        ToolVerb::Trace => read_trace(alloc, found),
        ToolVerb::Why => read_why(alloc, found),
    }
}
