//! The commands on programs and logs, and `completion`.

use crate::verb::ToolVerb;
use cli_base::{
    ARRAYS, AT, ATTR, BUCKET, CommandArgument, CommandRow, EVENT, INSTALLED, PING, PROGRAM,
    RELEASES, TODAY, VERSION,
};

pub(crate) const COMPLETION: CommandRow<ToolVerb> = CommandRow {
    verb: ToolVerb::Completion,
    name: "completion",
    about: "Print the completions of a shell, or the page of the manual",
    end: Some(
        "Example: source <(rollout completion bash)\n\
         See docs/PROGRAM.md, \"Completions\"",
    ),
    arguments: &[CommandArgument::Word("SHELL", "bash, zsh, fish or man")],
};

pub(crate) const EXPLAIN: CommandRow<ToolVerb> = CommandRow {
    verb: ToolVerb::Explain,
    name: "explain",
    about: "List a program with what the verifier knows before each instruction, and why it \
            refuses one",
    end: Some(
        "Example: rollout explain agent.bin --releases 2\n\
         See docs/PROGRAM.md, \"`explain`\"",
    ),
    arguments: &[PROGRAM, RELEASES, ARRAYS],
};

pub(crate) const ORDER: CommandRow<ToolVerb> = CommandRow {
    verb: ToolVerb::Order,
    name: "order",
    about: "Put a program's blocks in an order in which each jump leads forward; prints `N slots`",
    end: Some(
        "Example: rollout order agent.bin ordered.bin\n\
         See docs/C.md, \"In order\"",
    ),
    arguments: &[
        PROGRAM,
        CommandArgument::Word("OUT", "Output file for the program in order"),
    ],
};

pub(crate) const REPORT: CommandRow<ToolVerb> = CommandRow {
    verb: ToolVerb::Report,
    name: "report",
    about: "Count the requests, offers, installs and refusals in a server's log",
    end: Some(
        "Example: rollout report server.log --since 2h\n\
         See docs/PROGRAM.md, \"`report`\"",
    ),
    arguments: &[
        CommandArgument::Words(
            "LOG",
            "Files of a server's log, as `serve --log` writes it;\n\
             - is standard input",
        ),
        CommandArgument::Text(
            "since",
            "MOMENT",
            "Only lines from this time on (RFC 3339), or this long ago:\n\
             90s, 10m, 2h, 3d",
        ),
        CommandArgument::Text(
            "until",
            "MOMENT",
            "Only lines before this time, in the same forms",
        ),
        CommandArgument::Flag("prometheus", "Print the counts as Prometheus reads them"),
        CommandArgument::Text(
            "svg",
            "FILE",
            "Output file for a picture of the versions' shares over time, in SVG",
        ),
        CommandArgument::Text(
            "html",
            "FILE",
            "Output file for a page of the report, in HTML",
        ),
        CommandArgument::Text(
            "folder",
            "DIR",
            "Folder of `stage` whose offers and steps the page shows, too; only\n\
             with --html",
        ),
        CommandArgument::Text(
            "state",
            "FILE",
            "File of the counts so far, from which the report continues, and\n\
             into which it writes them; not with --since or --until",
        ),
        CommandArgument::Flag("heads", "Print a head line before each group of lines"),
        CommandArgument::OptionalOperator(
            "Operator's port of a server whose counters are printed, too, and\n\
             for Prometheus and on a page what it serves: 1 to 65535",
        ),
    ],
};

pub(crate) const TRACE: CommandRow<ToolVerb> = CommandRow {
    verb: ToolVerb::Trace,
    name: "trace",
    about: "Run a program like `run`, and print a line for each instruction before its choice",
    end: Some(
        "Example: rollout trace agent.bin --releases 2 --bucket 42\n\
         See docs/PROGRAM.md, \"`trace`\"",
    ),
    arguments: &[
        PROGRAM, RELEASES, ARRAYS, BUCKET, VERSION, ATTR, PING, EVENT, TODAY, AT, INSTALLED,
    ],
};
