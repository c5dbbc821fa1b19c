//! The completions of fish: a line for each command, and for each of its arguments.

use crate::completions::escaping::{Escaping, push_escaped};
use crate::completions::parts::{ArgumentKind, ArgumentParts};
use crate::rows::tool_rows;
use cli_base::CommandRow;
use cli_words::command_rows;
use printing::TextBuffer;

const HEAD: &str = "\
# Completions of rollout for fish: a file named rollout.fish in a folder of fish_complete_path.
complete -c rollout -f
";

/// Appends the script.
pub(crate) fn push_fish(text: &mut TextBuffer) {
    text.push(HEAD);
    push_commands(text, command_rows());
    push_commands(text, &tool_rows());
}

fn push_commands<V>(text: &mut TextBuffer, rows: &[CommandRow<V>]) {
    for row in rows {
        text.push_all(&["complete -c rollout -n __fish_use_subcommand -a ", row.name]);
        push_help(text, row.about);
        for argument in row.arguments {
            let parts = ArgumentParts::of(argument);
            text.push_all(&[
                "complete -c rollout -n '__fish_seen_subcommand_from ",
                row.name,
                "'",
            ]);
            push_argument(text, &parts);
            push_help(text, parts.help);
        }
    }
}

// The name of an option and what it takes, or what a word may be.
fn push_argument(text: &mut TextBuffer, parts: &ArgumentParts) {
    match parts.kind {
        ArgumentKind::Placed | ArgumentKind::Listed => push_words(text, parts),
        ArgumentKind::Flag => text.push_all(&[" -l ", parts.name]),
        ArgumentKind::Valued => {
            let files = if parts.is_file() { " -r -F" } else { " -x" };
            text.push_all(&[" -l ", parts.name, files]);
        }
    }
}

fn push_words(text: &mut TextBuffer, parts: &ArgumentParts) {
    if parts.is_file() {
        text.push(" -F");
    }
    let words = parts.words();
    if !words.is_empty() {
        text.push_all(&[" -a '", words, "'"]);
    }
}

fn push_help(text: &mut TextBuffer, help: &str) {
    text.push(" -d '");
    push_escaped(text, Escaping::Fish, help);
    text.push("'\n");
}
