//! The parts of an argument that completions name.

use cli_base::CommandArgument;

/// What an argument is: a word by its place, or all words from there on; an option without a value,
/// or one with a value.
#[derive(Clone, Copy)]
pub(crate) enum ArgumentKind {
    Placed,
    Listed,
    Flag,
    Valued,
}

/// The name of an argument, without hyphens; the name of its value; and its text in `--help`. The
/// value of a word has the argument's name, and a flag has none.
#[derive(Clone, Copy)]
pub(crate) struct ArgumentParts {
    pub kind: ArgumentKind,
    pub name: &'static str,
    pub value: &'static str,
    pub help: &'static str,
}

/// The values that are files or folders.
static FILES: [&str; 12] = [
    "ACTION", "DIR", "FILE", "IN", "LOG", "MANIFEST", "NEW", "OLD", "OUT", "PATH", "REQUEST",
    "SCRIPT",
];

impl ArgumentParts {
    /// The parts of this argument.
    pub(crate) fn of(argument: &CommandArgument) -> ArgumentParts {
        match *argument {
            CommandArgument::Word(name, help) => parts(ArgumentKind::Placed, name, name, help),
            CommandArgument::Words(name, help) => parts(ArgumentKind::Listed, name, name, help),
            CommandArgument::Flag(name, help) => parts(ArgumentKind::Flag, name, "", help),
            CommandArgument::Text(name, value, help) => valued(name, value, help),
            CommandArgument::Texts(name, value, help) => valued(name, value, help),
            CommandArgument::Number(name, value, _, help) => valued(name, value, help),
            CommandArgument::OptionalNumber(name, value, _, help) => valued(name, value, help),
            CommandArgument::NumberByDefault(name, value, _, _, help) => {
                valued(name, value, help)
            }
            CommandArgument::Operator(help) => valued("operator", "P", help),
            CommandArgument::OptionalOperator(help) => valued("operator", "P", help),
        }
    }

    /// Whether it is an option; if `plain`, one that takes something else than a file.
    pub(crate) fn is_option(&self, plain: bool) -> bool {
        match self.kind {
            ArgumentKind::Placed | ArgumentKind::Listed => false,
            ArgumentKind::Flag => !plain,
            ArgumentKind::Valued => !(plain && self.is_file()),
        }
    }

    /// Whether its value is a file or a folder.
    pub(crate) fn is_file(&self) -> bool {
        FILES.contains(&self.value)
    }

    /// The words that its value may be, with spaces between them; empty if there are too many.
    pub(crate) fn words(&self) -> &'static str {
        match self.value {
            "SHELL" => "bash zsh fish man",
            "ACTION" => "halt resume raise back put status history",
            _ => "",
        }
    }
}

fn parts(
    kind: ArgumentKind,
    name: &'static str,
    value: &'static str,
    help: &'static str,
) -> ArgumentParts {
    ArgumentParts {
        kind,
        name,
        value,
        help,
    }
}

fn valued(name: &'static str, value: &'static str, help: &'static str) -> ArgumentParts {
    parts(ArgumentKind::Valued, name, value, help)
}
