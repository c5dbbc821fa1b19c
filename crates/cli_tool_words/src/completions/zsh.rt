//! The completions of zsh: a function with a list of commands, and the arguments of each.

use crate::completions::escaping::{Escaping, push_escaped};
use crate::completions::parts::{ArgumentKind, ArgumentParts};
use crate::rows::tool_rows;
use cli_base::CommandRow;
use cli_words::command_rows;
use printing::TextBuffer;

const HEAD: &str = "\
#compdef rollout
# Completions of rollout for zsh: a file named _rollout in a folder of fpath.
compdef _rollout rollout
_rollout() {
    local -a commands
    commands=(
";

const CASES: &str = "    )
    if (( CURRENT == 2 )); then
        _describe command commands
        return
    fi
    local command=$words[2]
    shift words
    (( CURRENT-- ))
    case $command in
";

const END: &str = "    esac
}
if [ \"$funcstack[1]\" = _rollout ]; then
    _rollout \"$@\"
fi
";

/// Appends the script.
pub(crate) fn push_zsh(text: &mut TextBuffer) {
    text.push(HEAD);
    push_commands(text, command_rows());
    push_commands(text, &tool_rows());
    text.push(CASES);
    push_cases(text, command_rows());
    push_cases(text, &tool_rows());
    text.push(END);
}

fn push_commands<V>(text: &mut TextBuffer, rows: &[CommandRow<V>]) {
    for row in rows {
        text.push_all(&["        '", row.name, ":"]);
        push_escaped(text, Escaping::Zsh, row.about);
        text.push("'\n");
    }
}

fn push_cases<V>(text: &mut TextBuffer, rows: &[CommandRow<V>]) {
    for row in rows {
        text.push_all(&["    ", row.name, ") _arguments"]);
        for argument in row.arguments {
            text.push(" \\\n        ");
            push_argument(text, &ArgumentParts::of(argument));
        }
        text.push(" ;;\n");
    }
}

fn push_argument(text: &mut TextBuffer, parts: &ArgumentParts) {
    match parts.kind {
        ArgumentKind::Placed => push_values(text, "':", parts),
        ArgumentKind::Listed => {
            push_first_words(text, parts);
            push_values(text, "'*:", parts);
        }
        ArgumentKind::Flag => {
            text.push_all(&["'--", parts.name, "["]);
            push_escaped(text, Escaping::ZshOption, parts.help);
            text.push("]'");
        }
        ArgumentKind::Valued => {
            text.push_all(&["'*--", parts.name, "=["]);
            push_escaped(text, Escaping::ZshOption, parts.help);
            push_values(text, "]:", parts);
        }
    }
}

// What the first word may be, if only some are allowed. The others are files.
fn push_first_words(text: &mut TextBuffer, parts: &ArgumentParts) {
    let words = parts.words();
    if !words.is_empty() {
        text.push_all(&["':", parts.value, ":(", words, ")' "]);
    }
}

// The end of an argument: the name of its value, and what completes that.
fn push_values(text: &mut TextBuffer, before: &'static str, parts: &ArgumentParts) {
    let words = parts.words();
    if parts.is_file() {
        text.push_all(&[before, parts.value, ":_files'"]);
    } else if words.is_empty() {
        text.push_all(&[before, parts.value, ":'"]);
    } else {
        text.push_all(&[before, parts.value, ":(", words, ")'"]);
    }
}
