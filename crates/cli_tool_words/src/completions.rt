//! The completions of the shells bash, zsh and fish, and the page of the manual, from the tables of
//! both programs' commands.
//!
//! See docs/PROGRAM.md, "Completions".

// Each shell has a module with the fixed lines of its script, and with a line for each command or
// option. The lines are appended to a `TextBuffer`, which notes whether an allocation has failed.
// The texts are escaped by `escaping`.

mod bash;
mod escaping;
mod fish;
mod manual;
mod parts;
mod zsh;

use crate::args::Shell;
use crate::completions::bash::push_bash;
use crate::completions::fish::push_fish;
use crate::completions::manual::push_manual;
use crate::completions::zsh::push_zsh;
use printing::TextBuffer;
use std::alloc::{AllocError, Global};

/// What `completion` prints: a script that the shell reads, or for `man` the page rollout.1. Only
/// an allocation can fail.
// open: the text: rows, and bench/outside, which has the shells and `man` read it.
pub fn completion_text(alloc: Global, shell: Shell) -> Result<String, AllocError> {
    let mut text = TextBuffer::new(alloc);
    match shell {
        Shell::Bash => push_bash(&mut text),
        Shell::Zsh => push_zsh(&mut text),
        Shell::Fish => push_fish(&mut text),
        Shell::Man => push_manual(&mut text),
    }
    text.finish()
}
