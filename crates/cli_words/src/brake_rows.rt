//! The commands that halt an app of a server, resume it, and show what a server serves.

use crate::verb::Verb;
use cli_base::{CommandArgument, CommandRow, OPERATOR, VERBOSE};

// The app that is halted or resumed.
const APPID: CommandArgument = CommandArgument::Word("APPID", "Appid of the app");

/// The command `halt`.
pub const HALT: CommandRow<Verb> = CommandRow {
    verb: Verb::Halt,
    name: "halt",
    about: "Let a server offer no release of an app; prints `generation G`",
    end: Some(
        "The app stays halted whatever is loaded, until it is resumed. Without --counters a\n\
         restart of the server lifts the halt.\n\
         Example: rollout halt editor --operator 8081\n\
         See docs/PROGRAM.md, \"Halting at a server\"",
    ),
    arguments: &[APPID, OPERATOR, VERBOSE],
};

/// The command `resume`.
pub const RESUME: CommandRow<Verb> = CommandRow {
    verb: Verb::Resume,
    name: "resume",
    about: "Let a server serve a halted app again; prints `generation G`",
    end: Some(
        "Example: rollout resume editor --operator 8081\n\
         See docs/PROGRAM.md, \"Halting at a server\"",
    ),
    arguments: &[APPID, OPERATOR, VERBOSE],
};

/// The command `state`.
pub const STATE: CommandRow<Verb> = CommandRow {
    verb: Verb::State,
    name: "state",
    about: "Show a server's generation, what it has loaded, and its halted apps",
    end: Some(
        "Example: rollout state --operator 8081\n\
         See docs/PROGRAM.md, \"Halting at a server\"",
    ),
    arguments: &[OPERATOR, VERBOSE],
};
