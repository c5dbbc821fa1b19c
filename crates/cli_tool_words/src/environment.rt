//! The words of the command line, with what the environment adds to them.

use crate::stage_words::MOST_NOTE;
use std::rt::Env;
use std::{env, io};

/// The words of the command line, of which the first is the launcher's name, `rollout`, as usage
/// shows it. After `stage` there is also `--operator P`, if ROLLOUT_OPERATOR is P and no word names
/// another; and `--by=USER`, if SUDO_USER or else USER is set and no word names another.
// open: which words are added: `bench/outside`.
pub fn words_of<R: Env + AllocGlobal>(rt: &R) -> io::Result<Vec<String>> {
    let mut words: Vec<String> = env::args(rt)?.collect(rt.alloc())?;
    if let Some(name) = words.first_mut() {
        *name = String::from_str(rt.alloc(), "rollout")?;
    }
    if is_stage(words.as_slice()) && !names_option(words.as_slice(), "--operator") {
        add_operator(rt, &mut words)?;
    }
    if is_stage(words.as_slice()) && !names_option(words.as_slice(), "--by") {
        add_user(rt, &mut words)?;
    }
    Ok(words)
}

// A variable of the environment, if it is set to a name that can be recorded.
fn name_in<R: Env + AllocGlobal>(rt: &R, variable: &str) -> Option<String> {
    match env::var(rt, variable) {
        Ok(name) if !name.is_empty() && name.len() <= MOST_NOTE => Some(name),
        _ => None,
    }
}

fn add_user<R: Env + AllocGlobal>(rt: &R, words: &mut Vec<String>) -> io::Result<()> {
    let name = match name_in(rt, "SUDO_USER") {
        Some(name) => name,
        None => match name_in(rt, "USER") {
            Some(name) => name,
            None => return Ok(()),
        },
    };
    let mut word = String::from_str(rt.alloc(), "--by=")?;
    word.push_str(name.as_str())?;
    add(words, word)
}

fn add_operator<R: Env + AllocGlobal>(rt: &R, words: &mut Vec<String>) -> io::Result<()> {
    let Ok(port) = env::var(rt, "ROLLOUT_OPERATOR") else {
        return Ok(());
    };
    add(words, port)?;
    add(words, String::from_str(rt.alloc(), "--operator")?)
}

// Adds a word after the names of the program and of the command.
fn add(words: &mut Vec<String>, word: String) -> io::Result<()> {
    if words.len() >= 2 {
        words.insert(2, word)?;
    }
    Ok(())
}

fn is_stage(words: &[String]) -> bool {
    match words {
        [_program, name, ..] => name.as_str() == "stage",
        _ => false,
    }
}

fn names_option(words: &[String], option: &str) -> bool {
    for word in words {
        if word.as_str().starts_with(option) {
            return true;
        }
    }
    false
}
