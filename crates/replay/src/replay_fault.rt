//! Why a script isn't played.

ghost use Rattle.std.specs.Prelude.{Some};
ghost use Rattle.replay.specs.Texts.{replay_fault_text};

use bounded_files::ResourceFault;
use event_script::ScriptFault;
use load::PathFault;
use std::error::Error;
use std::fmt;

/// Why a script isn't played; it is displayed as it is printed.
#[derive(Debug)]
pub enum ReplayFault {
    /// B3 and B4: the script can't be read, or an allocation fails outside of loading a manifest.
    Resource(ResourceFault),
    /// B2: a line of the script has no event.
    Script(ScriptFault),
    /// B3, B4, M1 to M8: a manifest gives no ruleset.
    Manifest(PathFault),
}

// Not derived: a crate that drops one would prove the drop of each of its parts anew.
impl Drop for ReplayFault {
    fn drop(self) {
        match self {
            ReplayFault::Resource(_fault) => {}
            ReplayFault::Script(_fault) => {}
            ReplayFault::Manifest(fault) => drop(fault),
        }
    }
}

impl fmt::Display for ReplayFault {
    ghost output = { λ fault. Some (replay_fault_text fault) };

    fn fmt<W: fmt::Write>(&self, f: &mut fmt::Formatter<W>) -> fmt::Result {
        match self {
            ReplayFault::Resource(fault) => write!(f, "{fault}"),
            ReplayFault::Script(fault) => write!(f, "{fault}"),
            ReplayFault::Manifest(fault) => write!(f, "{fault}"),
        }
    }
}

impl Error for ReplayFault {}
