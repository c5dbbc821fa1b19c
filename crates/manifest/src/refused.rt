//! A refused manifest, with the result of parsing it, so that it isn't parsed again.

use crate::manifest_fault::ManifestFault;
use toml::Table;
use toml::de::Error;

/// Why no manifest was read.
#[derive(Drop)]
pub enum RefusedManifest {
    /// The bytes aren't a manifest: what is wrong, and the result of the crate `toml` for them.
    Fault {
        fault: ManifestFault,
        parsed: Parsed,
    },
    /// An allocation failed.
    Memory,
}

/// The result of the crate `toml` for the bytes of a refused manifest.
pub enum Parsed {
    /// The document. The fault is M2 or M3.
    Document(Table),
    /// Why the bytes aren't a document. The fault is M1.
    Error(Error),
    /// There are more than 1048576 bytes (M1), or the fault is none of M1 to M3.
    Nothing,
}

// Not derived: a crate that drops one would prove the drop of each of its parts anew.
impl Drop for Parsed {
    fn drop(self) {
        match self {
            Parsed::Document(table) => drop(table),
            Parsed::Error(error) => drop(error),
            Parsed::Nothing => {}
        }
    }
}
