//! Why a text isn't a script.

ghost use Rattle.std.specs.Prelude.{Some};
ghost use Rattle.event_script.specs.Texts.{script_fault_text};

use std::error::Error;
use std::fmt;

/// Why a text isn't a script.
#[derive(Clone, Copy, Debug)]
pub enum ScriptFault {
    /// The first line without an event, from 1; line 1 if the text isn't UTF-8.
    Malformed { line: usize },
    /// Out of memory.
    Memory,
}

impl fmt::Display for ScriptFault {
    ghost output = { λ fault. Some (script_fault_text fault) };

    fn fmt<W: fmt::Write>(&self, f: &mut fmt::Formatter<W>) -> fmt::Result {
        match self {
            ScriptFault::Malformed { line } => write!(f, "B2 Script at line {line}"),
            ScriptFault::Memory => f.write_str("Memory"),
        }
    }
}

impl Error for ScriptFault {}
