//! The page of the manual, in roff with the macros of `man`.

use crate::completions::escaping::{Escaping, push_escaped};
use crate::completions::parts::{ArgumentKind, ArgumentParts};
use crate::rows::tool_rows;
use cli_base::CommandRow;
use cli_words::command_rows;
use printing::TextBuffer;

const HEAD: &str = "\
.TH ROLLOUT 1 \"\" \"rollout\" \"User Commands\"
.SH NAME
rollout \\- decides by verified BPF programs which release an app is offered
.SH SYNOPSIS
.B rollout
.I COMMAND
\\&.\\|.
.br
.B rollout
.I COMMAND
.B \\-\\-help
.br
.B rollout \\-\\-version
.SH DESCRIPTION
rollout is a server for Omaha clients, which request an update of an app. Verified programs decide
which release each of them is offered. Its commands serve releases, change what is served, and
check manifests, rules and programs.
.SH COMMANDS
";

const END: &str = "\
.SH EXIT STATUS
.TP
.B 0
The command did what was requested.
.TP
.B 1
The request is refused, or its output could not be written.
.TP
.B 2
The words are wrong.
.SH SEE ALSO
The folder docs of the package, which begins with PROGRAM.md and OPERATING.md.
";

/// Appends the page.
pub(crate) fn push_manual(text: &mut TextBuffer) {
    text.push(HEAD);
    push_commands(text, command_rows());
    push_commands(text, &tool_rows());
    text.push(END);
}

// Each command with its arguments and what they are for, and the text after them.
fn push_commands<V>(text: &mut TextBuffer, rows: &[CommandRow<V>]) {
    for row in rows {
        text.push_all(&[".SS ", row.name, "\n"]);
        push_lines(text, row.about);
        for argument in row.arguments {
            let parts = ArgumentParts::of(argument);
            push_argument(text, &parts);
            push_lines(text, parts.help);
        }
        push_end(text, row.end);
    }
}

fn push_argument(text: &mut TextBuffer, parts: &ArgumentParts) {
    match parts.kind {
        ArgumentKind::Placed | ArgumentKind::Listed => {
            text.push_all(&[".TP\n.I ", parts.name, "\n"]);
        }
        ArgumentKind::Flag => {
            text.push(".TP\n.B \\-\\-");
            push_lines(text, parts.name);
        }
        ArgumentKind::Valued => {
            text.push(".TP\n.BI \\-\\-");
            push_escaped(text, Escaping::Roff, parts.name);
            text.push_all(&[" \" ", parts.value, "\"\n"]);
        }
    }
}

// The text after a command's arguments, line by line.
fn push_end(text: &mut TextBuffer, end: Option<&'static str>) {
    if let Some(end) = end {
        text.push(".PP\n.nf\n");
        push_lines(text, end);
        text.push(".fi\n");
    }
}

// Escaped lines. The first begins with what no macro begins with.
fn push_lines(text: &mut TextBuffer, lines: &str) {
    push_escaped(text, Escaping::Roff, lines);
    text.push("\n");
}
