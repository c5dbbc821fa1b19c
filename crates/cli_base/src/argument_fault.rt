//! Why words that fit the grammar make no command: which argument is wrong.

use std::fmt;

/// An argument for which words that fit the grammar make no command. `Display` writes the line
/// without `error: `.
#[derive(Clone, Copy)]
pub enum ArgumentFault {
    Arrays,
    Today,
    At,
    /// `--at` and `--today` are both given.
    AtAndToday,
    Installed,
    From,
    Attributes,
    /// The attributes name a client, and a simulation is for all of them.
    OneClient,
    /// The picture would overwrite a manifest.
    Overwritten,
    /// `--fail-on-lost` is given without `--against`.
    Against,
    Allow,
    Since,
    Until,
    /// `--state` is given with a moment.
    State,
    Cells,
    /// A port among several.
    Operator,
    Bucket,
    /// `--trace` of `run`, which is a command of its own now.
    Trace,
    /// The words after `stage` aren't an action.
    Stage,
    By,
    Because,
    Shell,
    Missing,
}

const ARRAYS: &str =
    "'--arrays' wants name:width:length, or name:64:length:quota, joined by commas";

const TODAY: &str =
    "'--today' wants a day from 0 to 2919382, or a date from 2007-01-01 to 9999-12-31";

const AT: &str = "'--at' wants a time by RFC 3339, as 2026-12-01T03:00:00Z, or a Unix second";

const AT_AND_TODAY: &str = "'--at' and '--today' can't be given together";

const INSTALLED: &str =
    "'--installed' wants a day from 0 to 4294967294, or a date from 2007-01-01 on";

const FROM: &str =
    "'--from' wants a day from 0 to 2919382, or a date from 2007-01-01 to 9999-12-31";

const ATTRIBUTES: &str =
    "'--attr' wants NAME=TEXT: appid, brand, ap, lang, cohort or platform, each once";

const ONE_CLIENT: &str = "'--attr' of a simulation takes no appid and no cohort: each app is \
    simulated in each bucket";

const OVERWRITTEN: &str =
    "'--svg' names a manifest of the simulation, which the picture would overwrite";

const AGAINST: &str = "'--fail-on-lost' wants '--against'";

const ALLOW: &str =
    "'--allow' wants the name of a warning, as 'check' prints it: codebase-slash, say";

const SINCE: &str = "'--since' wants a time by RFC 3339, or how long ago, as 90s, 10m, 2h or 3d";

const UNTIL: &str = "'--until' wants a time by RFC 3339, or how long ago, as 90s, 10m, 2h or 3d";

const STATE: &str = "'--state' can't be given with '--since' or '--until'";

const CELLS: &str = "'--cells' wants NAME[INDEX]=VALUE, as early[0]=283";

const OPERATOR: &str = "'--operator' wants a port from 1 to 65535";

const BUCKET: &str = "'--bucket' can't be given with a cohort that names a bucket";

const TRACE: &str = "'--trace' is a command of its own now: rollout trace IN ..";

const STAGE: &str = "'stage' wants halt APPID, resume APPID [SHARE], raise APPID SHARE, back, \
    put MANIFEST, status or history [APPID]; a SHARE is 0 to 10000 buckets, or 0% to 100%";

const BY: &str = "'--by' wants a name of at most 1024 bytes";

const BECAUSE: &str = "'--because' wants a text of at most 1024 bytes";

const SHELL: &str = "'completion' wants bash, zsh, fish or man";

const MISSING: &str = "a value that the command requires is missing, or out of its range";

impl ArgumentFault {
    // What the argument requires, as it is printed.
    fn text(self) -> &'static str {
        match self {
            ArgumentFault::Arrays => ARRAYS,
            ArgumentFault::Today => TODAY,
            ArgumentFault::At => AT,
            ArgumentFault::AtAndToday => AT_AND_TODAY,
            ArgumentFault::Installed => INSTALLED,
            ArgumentFault::From => FROM,
            ArgumentFault::Attributes => ATTRIBUTES,
            ArgumentFault::OneClient => ONE_CLIENT,
            ArgumentFault::Overwritten => OVERWRITTEN,
            ArgumentFault::Against => AGAINST,
            ArgumentFault::Allow => ALLOW,
            ArgumentFault::Since => SINCE,
            ArgumentFault::Until => UNTIL,
            ArgumentFault::State => STATE,
            ArgumentFault::Cells => CELLS,
            ArgumentFault::Operator => OPERATOR,
            ArgumentFault::Bucket => BUCKET,
            ArgumentFault::Trace => TRACE,
            ArgumentFault::Stage => STAGE,
            ArgumentFault::By => BY,
            ArgumentFault::Because => BECAUSE,
            ArgumentFault::Shell => SHELL,
            ArgumentFault::Missing => MISSING,
        }
    }
}

impl fmt::Display for ArgumentFault {
    fn fmt<W: fmt::Write>(&self, f: &mut fmt::Formatter<W>) -> fmt::Result {
        f.write_str(self.text())
    }
}

/// Why arguments give no value.
#[derive(Clone, Copy)]
pub enum ArgsError {
    /// This argument is malformed or missing.
    Wrong(ArgumentFault),
    /// Out of memory.
    Memory,
}
