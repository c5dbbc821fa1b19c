//! The commands on manifests: `ask`, `check`, `diff`, `simulate`, `stage` and `why`.

use crate::verb::ToolVerb;
use cli_base::{
    AT, ATTR, CommandArgument, CommandRow, INSTALLED, MANIFEST, NumberLimits, TODAY, VERSION,
};

const CELLS: CommandArgument = CommandArgument::Texts(
    "cells",
    "NAME[I]=V",
    "Value of a counter, as early[0]=283, any number of times;\n\
     0 by default",
);

const SERVER: CommandArgument = CommandArgument::OptionalOperator(
    "Operator's port of a server whose counters are used: 1 to 65535",
);

const ONE_APP: CommandArgument = CommandArgument::Text(
    "app",
    "APPID",
    "The only app in the output; all apps by default",
);

pub(crate) const ASK: CommandRow<ToolVerb> = CommandRow {
    verb: ToolVerb::Ask,
    name: "ask",
    about: "Print the reply that a server of a manifest would send to a request",
    end: Some(
        "Example: rollout ask m.toml request.json --why\n\
         See docs/PROGRAM.md, \"`ask`\"",
    ),
    arguments: &[
        MANIFEST,
        CommandArgument::Word("REQUEST", "File of the request's body; - is standard input"),
        CommandArgument::Text(
            "at",
            "TIME",
            "Moment, as 2026-12-01T03:00:00Z, or a Unix second;\n\
             the clock's by default",
        ),
        CELLS,
        SERVER,
        CommandArgument::Flag(
            "why",
            "Print why each app gets what it gets, instead of the reply",
        ),
    ],
};

pub(crate) const CHECK: CommandRow<ToolVerb> = CommandRow {
    verb: ToolVerb::Check,
    name: "check",
    about: "Check manifests, and show what they declare or why they are refused",
    end: Some(
        "Example: rollout check m.toml --strict --allow codebase-slash\n\
         See docs/PROGRAM.md, \"`check`\"",
    ),
    arguments: &[
        CommandArgument::Words("MANIFEST", "Files of the manifests"),
        CommandArgument::Flag("strict", "End with status 1 if there is a warning"),
        CommandArgument::Texts(
            "allow",
            "NAME",
            "Name of a warning that doesn't count for --strict,\n\
             any number of times",
        ),
        CommandArgument::Flag("json", "Print everything as a line of JSON"),
    ],
};

pub(crate) const DIFF: CommandRow<ToolVerb> = CommandRow {
    verb: ToolVerb::Diff,
    name: "diff",
    about: "Show what changes from one manifest to another, and for which machines",
    end: Some(
        "Example: rollout diff current.toml next.toml --operator 8081 --fail-on-lost\n\
         See docs/PROGRAM.md, \"`diff`\"",
    ),
    arguments: &[
        CommandArgument::Word("OLD", "File of the manifest that is served now"),
        CommandArgument::Word("NEW", "File of the manifest that comes next"),
        ONE_APP,
        CommandArgument::Text(
            "from",
            "DAY",
            "First day of the requests that are compared, or its date;\n\
             day 0 by default",
        ),
        CELLS,
        SERVER,
        CommandArgument::Flag(
            "fail-on-lost",
            "End with status 1 if somebody may lose a release",
        ),
        CommandArgument::Flag("json", "Print a line of JSON"),
    ],
};

pub(crate) const SIMULATE: CommandRow<ToolVerb> = CommandRow {
    verb: ToolVerb::Simulate,
    name: "simulate",
    about: "Count how many of the 10000 buckets get which release by a manifest",
    end: Some(
        "Example: rollout simulate next.toml --against current.toml --fail-on-lost\n\
         See docs/PROGRAM.md, \"`simulate`\"",
    ),
    arguments: &[
        MANIFEST,
        CommandArgument::Text(
            "against",
            "MANIFEST",
            "File of the manifest that is served now",
        ),
        CommandArgument::Text("svg", "FILE", "Output file for a picture, in SVG"),
        ONE_APP,
        CommandArgument::Flag(
            "fail-on-lost",
            "End with status 1 if a bucket loses its release;\n\
             requires --against",
        ),
        CommandArgument::Flag("json", "Print a line of JSON"),
        VERSION,
        ATTR,
        CommandArgument::Flag("ping", "The clients send a ping"),
        CommandArgument::Flag("event", "The clients send an event"),
        TODAY,
        AT,
        INSTALLED,
    ],
};

pub(crate) const STAGE: CommandRow<ToolVerb> = CommandRow {
    verb: ToolVerb::Stage,
    name: "stage",
    about: "Halt an app, let more buckets in, go back, or put a manifest in place",
    end: Some(
        "Example: rollout stage halt editor --operator 8081\n\
         See docs/OPERATING.md, \"Raising a stage\" and \"Halting a release\"",
    ),
    arguments: &[
        CommandArgument::Words(
            "ACTION",
            "halt APPID [VERSION], resume APPID [SHARE], raise APPID SHARE,\n\
             back, put MANIFEST, status or history [APPID]",
        ),
        CommandArgument::Texts(
            "operator",
            "P",
            "Operator's port of a server that loads the result, 1 to 65535;\n\
             any number of times",
        ),
        CommandArgument::Text(
            "folder",
            "DIR",
            "Folder of the server's files; /etc/rollout by default",
        ),
        CommandArgument::Text("log", "LOG", "Log of a server, for `status`"),
        CommandArgument::Text("by", "NAME", "User whom a step records"),
        CommandArgument::Text("because", "TEXT", "Why, as a step records it"),
        CommandArgument::Flag("no-load", "Let no server load the result"),
        CommandArgument::Flag("dry-run", "Only print what would be done"),
        CommandArgument::Flag(
            "anyway",
            "Do it even if an app that shares the file is halted, too,\n\
             a machine may lose a release, or a halt is lifted",
        ),
        CommandArgument::Flag("other-server", "Also load at a server of other apps"),
    ],
};

pub(crate) const WHY: CommandRow<ToolVerb> = CommandRow {
    verb: ToolVerb::Why,
    name: "why",
    about: "Explain the last requests of a machine in a server's log",
    end: Some(
        "Example: rollout why m.toml server.log --address 203.0.113.7\n\
         See docs/OPERATING.md, \"Why didn't this machine get the update?\"",
    ),
    arguments: &[
        MANIFEST,
        CommandArgument::Words(
            "LOG",
            "Files of a server's log, the oldest first; - is standard input",
        ),
        CommandArgument::Text("address", "A", "Address of the machine, as the log has it"),
        CommandArgument::OptionalNumber(
            "bucket",
            "N",
            NumberLimits(0, 9999),
            "Bucket of the machine, 0 to 9999: 56 for the cohort b:0056",
        ),
        CommandArgument::Text(
            "id",
            "ID",
            "Beginning of the requestid, or else of the sessionid",
        ),
        CommandArgument::Flag("all", "Explain all its requests, not only the last three"),
        CELLS,
        SERVER,
    ],
};
