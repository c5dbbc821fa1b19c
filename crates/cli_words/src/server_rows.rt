//! The commands that start a server or are sent to one, and `replay`.

use crate::verb::Verb;
use cli_base::{CommandArgument, CommandRow, MANIFEST, NumberLimits, OPERATOR, PORTS, VERBOSE};

/// The command `cells`.
pub const CELLS: CommandRow<Verb> = CommandRow {
    verb: Verb::Cells,
    name: "cells",
    about: "Show a server's counters that aren't 0; prints `NAME[I] V` for each",
    end: Some(
        "Example: rollout cells --operator 8081\n\
         See docs/OPERATING.md, \"Counters\"",
    ),
    arguments: &[OPERATOR, VERBOSE],
};

/// The command `load`.
pub const LOAD: CommandRow<Verb> = CommandRow {
    verb: Verb::Load,
    name: "load",
    about: "Let a server load a manifest; prints `generation G`, or its refusal",
    end: Some(
        "Example: rollout load /etc/rollout/current.toml --operator 8081\n\
         See docs/OPERATING.md, \"Putting a manifest in place\"",
    ),
    arguments: &[
        CommandArgument::Word(
            "PATH",
            "Absolute path of the manifest, as the server sees it",
        ),
        OPERATOR,
        VERBOSE,
    ],
};

/// The command `replay`.
pub const REPLAY: CommandRow<Verb> = CommandRow {
    verb: Verb::Replay,
    name: "replay",
    about: "Play a script of runs and swaps, without a server; prints a line for each event",
    end: Some(SCRIPT),
    arguments: &[
        CommandArgument::Word("MANIFEST", "File of the first manifest"),
        CommandArgument::Word("SCRIPT", "File of the script"),
        VERBOSE,
    ],
};

/// The command `serve`.
pub const SERVE: CommandRow<Verb> = CommandRow {
    verb: Verb::Serve,
    name: "serve",
    about: "Serve a manifest's ruleset until the operator stops it; prints `serving generation 1`",
    end: Some(
        "Example: rollout serve m.toml --port 8080 --operator 8081 --workers 4 --log\n\
         See docs/OPERATING.md, \"Starting\"",
    ),
    arguments: &[
        MANIFEST,
        CommandArgument::Number(
            "port",
            "P",
            PORTS,
            "Port of the service, on loopback: 1 to 65535",
        ),
        OPERATOR,
        CommandArgument::Number(
            "workers",
            "N",
            NumberLimits(1, 64),
            "Worker threads: 1 to 64",
        ),
        CommandArgument::NumberByDefault(
            "timeout",
            "S",
            NumberLimits(1, 3600),
            "30",
            "Seconds that a connection may last: 1 to 3600",
        ),
        CommandArgument::Text(
            "counters",
            "FILE",
            "Open with the counters and halts of this file, and keep them\n\
             in it; if it isn't there, it is made, and all are 0",
        ),
        CommandArgument::OptionalNumber(
            "wait-counters",
            "S",
            NumberLimits(1, 3600),
            "With --counters: seconds to wait while another server has\n\
             the file, with the ports bound: 1 to 3600",
        ),
        CommandArgument::Flag(
            "log",
            "Write the log to standard error: a line of JSON for each\n\
             connection, start, load, halt, stop and counter",
        ),
        VERBOSE,
    ],
};

/// The command `show`.
pub const SHOW: CommandRow<Verb> = CommandRow {
    verb: Verb::Show,
    name: "show",
    about: "Show a server's generation and its apps",
    end: Some(
        "Example: rollout show --operator 8081\n\
         See docs/OPERATING.md, \"What is being served\"",
    ),
    arguments: &[OPERATOR, VERBOSE],
};

/// The command `stop`.
pub const STOP: CommandRow<Verb> = CommandRow {
    verb: Verb::Stop,
    name: "stop",
    about: "End a server; prints `stopping`",
    end: Some(
        "Example: rollout stop --operator 8081 --wait\n\
         See docs/OPERATING.md, \"Stopping\"",
    ),
    arguments: &[
        OPERATOR,
        CommandArgument::Flag("wait", "Wait until the server has ended"),
        VERBOSE,
    ],
};

// The end of `replay --help`.
const SCRIPT: &str = "\
A script has a line for each event. Empty lines and lines that begin with # are skipped.

  # Worker 0 (of 0 to 63) starts a run for the app agent: bucket 4998, and no version.
  start 0 agent 4998 -
  # It does one instruction, then eight (1 to 4097 at once), and gives its choice.
  step 0
  step 0 8
  finish 0
  # The rest of the line is a manifest's path. A run that has started keeps its ruleset.
  swap examples/staged/next.toml
  start 0 agent 4999 1.2.0
  step 0 11
  finish 0

Each event prints `started`, `stepped N`, `finished K after N under R`, `swapped R`, or
`refused CODE Name`. All lines are read, and all manifests loaded, before the first event.";
