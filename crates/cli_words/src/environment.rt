//! The options that the environment adds to the words of a command line.

use cli_base::is_verbose;
use std::rt::Env;
use std::{env, io};

/// The words of the command line. After the command's name there are also those of the environment:
/// `--verbose` if ROLLOUT_VERBOSE is `1`; and `--operator P` if ROLLOUT_OPERATOR is P, for a
/// command to a running server without this option.
// open: which words are added: `bench/outside`.
pub fn words_of<R: Env + AllocGlobal>(rt: &R) -> io::Result<Vec<String>> {
    let mut words: Vec<String> = env::args(rt)?.collect(rt.alloc())?;
    if requests_server(words.as_slice()) && !names_operator(words.as_slice()) {
        add_operator(rt, &mut words)?;
    }
    if names_command(words.as_slice()) && !is_verbose(words.as_slice()) {
        add_verbose(rt, &mut words)?;
    }
    Ok(words)
}

fn add_operator<R: Env + AllocGlobal>(rt: &R, words: &mut Vec<String>) -> io::Result<()> {
    let Ok(port) = env::var(rt, "ROLLOUT_OPERATOR") else {
        return Ok(());
    };
    add(words, port)?;
    add(words, String::from_str(rt.alloc(), "--operator")?)
}

fn add_verbose<R: Env + AllocGlobal>(rt: &R, words: &mut Vec<String>) -> io::Result<()> {
    match env::var(rt, "ROLLOUT_VERBOSE") {
        Ok(value) if value.as_str() == "1" => add(
            words,
            String::from_str(rt.alloc(), "--verbose")?,
        ),
        _ => Ok(()),
    }
}

// Adds a word after the names of the program and of the command.
fn add(words: &mut Vec<String>, word: String) -> io::Result<()> {
    if words.len() >= 2 {
        words.insert(2, word)?;
    }
    Ok(())
}

// Whether the second word may be a command that has options.
fn names_command(words: &[String]) -> bool {
    match words {
        [_program, name, ..] => name.as_str() != "help" && !name.starts_with('-'),
        _ => false,
    }
}

fn requests_server(words: &[String]) -> bool {
    match words {
        [_program, name, ..] => matches!(
            name.as_str(),
            "load" | "show" | "cells" | "stop" | "halt" | "resume" | "state"
        ),
        _ => false,
    }
}

fn names_operator(words: &[String]) -> bool {
    for word in words {
        if word.as_str().starts_with("--operator") {
            return true;
        }
    }
    false
}
