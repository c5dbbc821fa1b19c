//! Why a command on a manifest is refused.

ghost use Rattle.std.specs.Prelude.{Some};
ghost use Rattle.cli_manifests.specs.Manifests.{fault_text};

use bounded_files::ResourceFault;
use load::PathFault;
use std::fmt;
use why_refused_manifest::Refused;

/// What is wrong; it is displayed as it is printed, except for the lines of a diagnosis.
pub enum ManifestToolFault {
    /// B3 and B4: a manifest can't be read, the picture of `simulate` can't be written, or an
    /// allocation of the command failed.
    Resource(ResourceFault),
    /// M1 to M8: a manifest gives no ruleset, and where and why.
    Diagnosed(Refused),
    /// B3, B4, M1 to M8: a manifest gives no ruleset.
    Load(PathFault),
    /// B8: a manifest doesn't have the one app that is to be reported.
    NoApp,
    /// B3, B4, M1 to M8: the manifest to compare with gives no ruleset.
    Against(PathFault),
}

// Not derived: a crate that drops one would prove the drop of each of its parts anew.
impl Drop for ManifestToolFault {
    fn drop(self) {
        match self {
            ManifestToolFault::Resource(_fault) => {}
            ManifestToolFault::Diagnosed(refused) => drop(refused),
            ManifestToolFault::Load(fault) => drop(fault),
            ManifestToolFault::NoApp => {}
            ManifestToolFault::Against(fault) => drop(fault),
        }
    }
}

impl fmt::Display for ManifestToolFault {
    ghost output = { λ fault. Some (fault_text fault) };

    fn fmt<W: fmt::Write>(&self, f: &mut fmt::Formatter<W>) -> fmt::Result {
        match self {
            ManifestToolFault::Resource(fault) => write!(f, "{fault}"),
            ManifestToolFault::Diagnosed(refused) => write!(f, "{}", refused.fault),
            ManifestToolFault::Load(fault) => write!(f, "{fault}"),
            ManifestToolFault::NoApp => f.write_str("B8 App"),
            ManifestToolFault::Against(fault) => write!(f, "{fault} in --against"),
        }
    }
}
