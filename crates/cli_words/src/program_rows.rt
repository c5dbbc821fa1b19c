//! The commands on programs and rules.

use crate::verb::Verb;
use cli_base::{
    ARRAYS, AT, ATTR, BUCKET, BYTES, CommandArgument, CommandRow, EVENT, INSTALLED, PING, PROGRAM,
    RELEASES, TODAY, VERBOSE, VERSION,
};

/// The command `asm`.
pub const ASSEMBLE: CommandRow<Verb> = CommandRow {
    verb: Verb::Assemble,
    name: "asm",
    about: "Assemble a text into a program's bytes; prints `N slots`",
    end: Some(
        "Example: rollout asm agent.bpf agent.bin\n\
         See docs/PROGRAM.md, \"Assembly text\"",
    ),
    arguments: &[
        CommandArgument::Word("IN", "File of assembly text"),
        BYTES,
        VERBOSE,
    ],
};

/// The command `compile`.
pub const COMPILE: CommandRow<Verb> = CommandRow {
    verb: Verb::Compile,
    name: "compile",
    about: "Compile a rule into an accepted program's bytes; prints `N slots`",
    end: Some(
        "Example: rollout compile agent.rule agent.bin --releases 2\n\
         See docs/RULES.md",
    ),
    arguments: &[
        CommandArgument::Word("IN", "File of the rule's text"),
        BYTES,
        RELEASES,
        ARRAYS,
        VERBOSE,
    ],
};

/// The command `list`.
pub const LIST: CommandRow<Verb> = CommandRow {
    verb: Verb::List,
    name: "list",
    about: "List a program's instructions, one a line",
    end: Some(
        "Example: rollout list agent.bin\n\
         See docs/PROGRAM.md, \"Assembly text\"",
    ),
    arguments: &[PROGRAM, VERBOSE],
};

/// The command `run`.
pub const RUN: CommandRow<Verb> = CommandRow {
    verb: Verb::Run,
    name: "run",
    about: "Verify a program and run it for one app; prints `choice K after N instructions`",
    end: Some(
        "Example: rollout run agent.bin --releases 2 --version 1.1.0 --bucket 42\n\
         See docs/PROGRAM.md, \"Files and options\"",
    ),
    arguments: &[
        PROGRAM,
        RELEASES,
        ARRAYS,
        BUCKET,
        CommandArgument::Flag("trace", "Moved: see `trace`"),
        VERSION,
        ATTR,
        PING,
        EVENT,
        TODAY,
        AT,
        INSTALLED,
        VERBOSE,
    ],
};

/// The command `verify`.
pub const VERIFY: CommandRow<Verb> = CommandRow {
    verb: Verb::Verify,
    name: "verify",
    about: "Verify a program; prints `accepted N slots`, or its refusal",
    end: Some(
        "Example: rollout verify agent.bin --releases 2\n\
         See docs/C.md, \"What is refused\"",
    ),
    arguments: &[PROGRAM, RELEASES, ARRAYS, VERBOSE],
};
