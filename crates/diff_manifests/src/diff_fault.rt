//! Why two manifests aren't compared.

ghost use Rattle.std.specs.Prelude.{Some};
ghost use Rattle.diff_manifests.specs.Texts.{diff_fault_text};

use bounded_files::ResourceFault;
use load::PathFault;
use std::fmt;

/// What is wrong; `Display` gives the line that is printed.
pub enum DiffFault {
    /// B4: an allocation failed.
    Resource(ResourceFault),
    /// B3, B4, M1 to M8: OLD can't be loaded.
    Old(PathFault),
    /// B3, B4, M1 to M8: NEW can't be loaded.
    New(PathFault),
    /// B7: neither manifest has one of the given cells.
    Cell,
    /// B8: neither manifest has the one app that is to be compared.
    NoApp,
}

// Not derived: a crate that drops one would prove the drop of each of its parts anew.
impl Drop for DiffFault {
    fn drop(self) {
        match self {
            DiffFault::Resource(_fault) => {}
            DiffFault::Old(fault) => drop(fault),
            DiffFault::New(fault) => drop(fault),
            DiffFault::Cell => {}
            DiffFault::NoApp => {}
        }
    }
}

impl fmt::Display for DiffFault {
    ghost output = { λ fault. Some (diff_fault_text fault) };

    fn fmt<W: fmt::Write>(&self, f: &mut fmt::Formatter<W>) -> fmt::Result {
        match self {
            DiffFault::Resource(fault) => write!(f, "{fault}"),
            DiffFault::Old(fault) => write!(f, "{fault} in OLD"),
            DiffFault::New(fault) => write!(f, "{fault} in NEW"),
            DiffFault::Cell => f.write_str("B7 Cell"),
            DiffFault::NoApp => f.write_str("B8 App"),
        }
    }
}
