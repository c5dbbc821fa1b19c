//! What the words of a command line give to the arguments of its command, by a table of commands.

ghost use Rattle.std.specs.Prelude.{◌≡◌, ◌↔◌, List, map, IfOk, IfErr, IsTrue, OnOk, true};
ghost use Rattle.clap.specs.Kinds.{HasKind};
ghost use Rattle.clap.specs.Values.{kind_of};
ghost use Rattle.clap.specs.Words.{App, Text, fault_of, is_simple_and_free, subcommand_of};
ghost use Rattle.clap.specs.Words.{subcommand_rows_of};
ghost use Rattle.cli_base.specs.Faults.{FitGrammar, IsWordsFault};
ghost use Rattle.cli_base.specs.Grammar.{app_of_rows};

use crate::grammar::grammar_of;
use crate::row::CommandRow;
use crate::words_fault::WordsFault;
use clap::error::ErrorKind;
use clap::{ArgMatches, Error};
use printing::Printed;
use std::alloc::{AllocError, Global};
use std::convert::AsStr;

/// What clap finds in the words, the first of which is the program's name. An error quotes the
/// words as they are printed, escaped. It is never `Argument`.
// open: whether an allocation fails; the texts of errors and of help.
pub fn read_matches<'a, V, S: AsStr>(
    alloc: Global,
    rows: &[CommandRow<V>],
    words: &'a [S],
) -> Result<ArgMatches<'a>, WordsFault>
    requires { is_simple_and_free (app_of_rows rows.now) ≡ true }
    ensures rows { IfOk result (λ m.
        subcommand_rows_of m ≡ subcommand_of (app_of_rows rows.now) (map S.text words.now)) }
    ensures fits { OnOk result (FitGrammar (app_of_rows rows.now) (map S.text words.now)) }
    ensures fault { IfErr result (IsWordsFault (app_of_rows rows.now) ⊥ (map S.text words.now)) }
{
    let Ok(grammar) = grammar_of(alloc, rows) else {
        return Err(WordsFault::Memory);
    };
    match grammar.try_get_matches_from(words) {
        Ok(matches) => Ok(matches),
        Err(error) => {
            let shown = printed_error(alloc, rows, words);
            Err(words_fault(error_shown(error, shown)))
        }
    }
}

// The error that clap finds in the escaped words; `None` if it finds none, or an allocation fails.
fn printed_error<V, S: AsStr>(alloc: Global, rows: &[CommandRow<V>], words: &[S]) -> Option<Error> {
    let Ok(words) = printed_words(alloc, words) else {
        return None;
    };
    let Ok(grammar) = grammar_of(alloc, rows) else {
        return None;
    };
    match grammar.try_get_matches_from(words.as_slice()) {
        Ok(_) => None,
        Err(error) => Some(error),
    }
}

fn printed_words<S: AsStr>(alloc: Global, words: &[S]) -> Result<Vec<String>, AllocError> {
    let mut printed = Vec::new(alloc);
    for word in words {
        printed.push(Printed(word.as_str()).to_string(alloc)?)?;
    }
    Ok(printed)
}

// The error to print in place of another, if it has the same kind.
fn error_shown(error: Error, shown: Option<Error>) -> Error
    ensures { kind_of result ≡ kind_of error }
{
    match shown {
        Some(shown) if is_same(shown.kind(), error.kind()) => shown,
        _ => error,
    }
}

fn is_same(kind: ErrorKind, other: ErrorKind) -> bool
    ensures { IsTrue result ↔ (kind ≡ other) }
{
    kind == other
}

// Why the words have no matches, given clap's error.
fn words_fault(error: Error) -> WordsFault
    ensures { (app : App) → (words : List Text) → HasKind (fault_of app words) error
        → IsWordsFault app ⊥ words result }
{
    match error.kind() {
        ErrorKind::DisplayHelp => WordsFault::Help(error),
        ErrorKind::OutOfMemory => WordsFault::Memory,
        _ => WordsFault::Usage(error),
    }
}
