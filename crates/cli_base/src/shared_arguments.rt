//! Arguments and options that several commands share.

use crate::argument::{CommandArgument, NumberLimits};

/// The range of a port.
pub const PORTS: NumberLimits = NumberLimits(1, 65535);

/// The file of a manifest.
pub const MANIFEST: CommandArgument = CommandArgument::Word("MANIFEST", "File of the manifest");

/// The file of a program's bytes.
pub const PROGRAM: CommandArgument = CommandArgument::Word(
    "IN",
    "File of the program's bytes: 8 a slot, 1 to 4096 slots",
);

/// The output file for a program's bytes.
pub const BYTES: CommandArgument = CommandArgument::Word(
    "OUT",
    "Output file for the program's bytes",
);

/// The number of the app's releases.
pub const RELEASES: CommandArgument = CommandArgument::Number(
    "releases",
    "N",
    NumberLimits(0, 64),
    "Number of releases that the program may choose from, 0 to 64",
);

/// The arrays that the program may use.
pub const ARRAYS: CommandArgument = CommandArgument::Text(
    "arrays",
    "SPEC",
    "Arrays that the program may use, joined by commas: each is\n\
     name:width:length, or name:64:length:quota; none by default",
);

/// The operator's port.
pub const OPERATOR: CommandArgument = CommandArgument::Operator(
    "Operator's port, on loopback, without a password: 1 to 65535",
);

/// Whether a refusal has a second line.
pub const VERBOSE: CommandArgument = CommandArgument::Flag(
    "verbose",
    "On a refusal, print a second line: the path or port,\n\
     and the system's reason",
);

/// The bucket of the app.
pub const BUCKET: CommandArgument = CommandArgument::OptionalNumber(
    "bucket",
    "N",
    NumberLimits(0, 9999),
    "Bucket of the app, 0 to 9999; by default that of its cohort,\n\
     or else 0",
);

/// The version of the app.
pub const VERSION: CommandArgument = CommandArgument::Text(
    "version",
    "T",
    "Version of the app: one to four numbers joined by dots;\n\
     absent by default",
);

/// Its other attributes that are texts.
pub const ATTR: CommandArgument = CommandArgument::Texts(
    "attr",
    "NAME=TEXT",
    "Attribute of the app: appid, brand, ap, lang, cohort or platform,\n\
     each once at most",
);

/// Whether its request has a ping.
pub const PING: CommandArgument = CommandArgument::Flag("ping", "The app sends a ping");

/// Whether its request has an event.
pub const EVENT: CommandArgument = CommandArgument::Flag("event", "The app sends an event");

/// The day of its request.
pub const TODAY: CommandArgument = CommandArgument::Text(
    "today",
    "DAY",
    "Day from 2007-01-01 on, 0 to 2919382, or its date,\n\
     as 2026-12-01; 0 by default",
);

/// The moment of its request.
pub const AT: CommandArgument = CommandArgument::Text(
    "at",
    "TIME",
    "Moment instead of --today, as 2026-12-01T03:00:00Z,\n\
     or a Unix second",
);

/// The day of its installation.
pub const INSTALLED: CommandArgument = CommandArgument::Text(
    "installed",
    "DAY",
    "Day of the installation, 0 to 4294967294, or its date;\n\
     unknown by default",
);
