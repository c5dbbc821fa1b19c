//! Why no reply is found.

ghost use Rattle.std.specs.Prelude.{◌≡◌, Some};
ghost use Rattle.dry_run.specs.Texts.{dry_run_text};
ghost use Rattle.omaha_json.specs.Faults.{omaha_name};

use bounded_files::ResourceFault;
use load::PathFault;
use omaha_json::OmahaFault;
use std::fmt::{self, Display};

/// What is wrong; it is displayed as it is printed.
pub enum DryRunFault {
    /// B3, B4, M1 to M8: the manifest gives no ruleset.
    Manifest(PathFault),
    /// B3, B4: the body can't be read, or an allocation failed.
    Resource(ResourceFault),
    /// P5: the body has more than 1 MiB.
    TooLarge,
    /// B7: the manifest doesn't have a given cell, or its value doesn't fit the cell.
    Cell,
    /// O1 to O5: the body isn't a request, or an allocation for its reply failed.
    Omaha(OmahaFault),
}

// Not derived: a crate that drops one would prove the drop of each of its parts anew.
impl Drop for DryRunFault {
    fn drop(self) {
        match self {
            DryRunFault::Manifest(fault) => drop(fault),
            DryRunFault::Resource(_fault) => {}
            DryRunFault::TooLarge => {}
            DryRunFault::Cell => {}
            DryRunFault::Omaha(_fault) => {}
        }
    }
}

impl Display for DryRunFault {
    ghost output = { λ fault. Some (dry_run_text fault) };

    fn fmt<W: fmt::Write>(&self, f: &mut fmt::Formatter<W>) -> fmt::Result {
        match self {
            DryRunFault::Manifest(fault) => write!(f, "{fault}"),
            DryRunFault::Resource(fault) => f.write_str(fault.name()),
            DryRunFault::TooLarge => f.write_str("P5 TooLarge"),
            DryRunFault::Cell => f.write_str("B7 Cell"),
            DryRunFault::Omaha(fault) => f.write_str(omaha_name(*fault)),
        }
    }
}

// The code and the name, without the line feed that is sent after them.
fn omaha_name(fault: OmahaFault) -> &'static str
    ensures { result.now ≡ omaha_name fault }
{
    match fault {
        OmahaFault::Json => "O1 Json",
        OmahaFault::Shape => "O2 Shape",
        OmahaFault::Protocol => "O3 Protocol",
        OmahaFault::TooManyApps => "O4 TooManyApps",
        OmahaFault::Memory => "O5 Memory",
    }
}
