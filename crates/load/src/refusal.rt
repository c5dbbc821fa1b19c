//! Why a load is refused, with the cause that a log prints, and why a manifest and its files
//! aren't gathered.

ghost use Rattle.std.specs.Prelude.{◌≡◌, Some};
ghost use Rattle.load.specs.Texts.{path_fault_text};

use crate::load_fault::{LoadFault, PathFault};
use declarations::ArrayDeclaration;
use manifest::Parsed;
use std::error::Error;
use std::fmt;

/// Why the manifest at a path gives no ruleset. It is displayed as its fault.
#[derive(Drop)]
pub struct LoadRefusal {
    pub fault: PathFault,
    /// The details that are logged with the fault: the wrong member, and what is expected there;
    /// the duplicate name; or an array as it exists, and as the manifest has it. None for other
    /// faults, or if an allocation for it failed.
    pub cause: Option<String>,
}

impl fmt::Display for LoadRefusal {
    ghost output = { λ refusal. Some (path_fault_text refusal.fault) };

    fn fmt<W: fmt::Write>(&self, f: &mut fmt::Formatter<W>) -> fmt::Result {
        let fault = &self.fault;
        write!(f, "{fault}")
    }
}

impl fmt::Debug for LoadRefusal {
    fn fmt<W: fmt::Write>(&self, f: &mut fmt::Formatter<W>) -> fmt::Result {
        fmt::Display::fmt(self, f)
    }
}

impl Error for LoadRefusal {}

/// Why nothing is gathered: M1 to M3 and M7, for which no file is read, or M8, possibly after some
/// were read. With M7 it has the manifest's arrays, with M8 those or none. With M1 to M3 it has no
/// arrays, but the result of parsing the bytes.
#[derive(Drop)]
pub struct SourcesRefusal {
    pub fault: LoadFault,
    pub arrays: Vec<ArrayDeclaration>,
    pub parsed: Parsed,
}

impl SourcesRefusal {
    /// The fault. Everything else is dropped.
    pub fn into_fault(self) -> LoadFault
        ensures { result ≡ self.fault }
    {
        let SourcesRefusal {
            fault,
            arrays,
            parsed,
        } = self;
        drop(arrays);
        drop(parsed);
        fault
    }
}
