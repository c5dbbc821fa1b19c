//! The completions of bash: a function that finds the words by the command.

use crate::completions::parts::ArgumentParts;
use crate::rows::tool_rows;
use cli_base::{CommandArgument, CommandRow};
use cli_words::command_rows;
use printing::TextBuffer;

const HEAD: &str = "\
# Completions of rollout for bash. To use them: source <(rollout completion bash)
_rollout() {
    local current=${COMP_WORDS[COMP_CWORD]} before=${COMP_WORDS[COMP_CWORD-1]}
    local options= plain= words=
    COMPREPLY=()
    if [ \"$COMP_CWORD\" -eq 1 ]; then
        mapfile -t COMPREPLY < <(compgen -W \"--help --version";

const CASES: &str = "\" -- \"$current\")
        return
    fi
    case ${COMP_WORDS[1]} in
";

const END: &str = "    esac
    case \" $plain \" in
    *\" $before \"*) return ;;
    esac
    if [[ $current == -* ]]; then
        mapfile -t COMPREPLY < <(compgen -W \"$options\" -- \"$current\")
    elif [ \"$words\" ] && [ \"$COMP_CWORD\" -eq 2 ]; then
        mapfile -t COMPREPLY < <(compgen -W \"$words\" -- \"$current\")
    else
        compopt -o filenames 2>/dev/null
        mapfile -t COMPREPLY < <(compgen -f -- \"$current\")
    fi
}
complete -F _rollout rollout
";

/// Appends the script.
pub(crate) fn push_bash(text: &mut TextBuffer) {
    text.push(HEAD);
    push_names(text, command_rows());
    push_names(text, &tool_rows());
    text.push(CASES);
    push_cases(text, command_rows());
    push_cases(text, &tool_rows());
    text.push(END);
}

fn push_names<V>(text: &mut TextBuffer, rows: &[CommandRow<V>]) {
    for row in rows {
        text.push_all(&[" ", row.name]);
    }
}

// The options of each command, those of them that take something else than a file, and other words.
fn push_cases<V>(text: &mut TextBuffer, rows: &[CommandRow<V>]) {
    for row in rows {
        text.push_all(&["    ", row.name, ") options='"]);
        push_options(text, row.arguments, false);
        text.push("--help' plain='");
        push_options(text, row.arguments, true);
        text.push("' words='");
        for argument in row.arguments {
            text.push(ArgumentParts::of(argument).words());
        }
        text.push("' ;;\n");
    }
}

// The options; if `plain`, those that take something else than a file.
fn push_options(text: &mut TextBuffer, arguments: &[CommandArgument], plain: bool) {
    for argument in arguments {
        let parts = ArgumentParts::of(argument);
        if parts.is_option(plain) {
            text.push_all(&["--", parts.name, " "]);
        }
    }
}
