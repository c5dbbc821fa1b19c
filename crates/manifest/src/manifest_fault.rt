//! Why a manifest is refused.

ghost use Rattle.std.specs.Prelude.{Some};
ghost use Rattle.manifest.specs.Texts.{duplicate_text, manifest_fault_text};

use crate::quote::Quote;
use crate::schema_error::SchemaError;
use std::fmt;
use std::fmt::{Display, Formatter, Write};

/// What is wrong with a manifest, M1 to M3. `Display` gives only number and name; the variants have
/// the details.
#[derive(Drop)]
pub enum ManifestFault {
    /// The bytes aren't a TOML document, or are more than 1048576.
    Toml(TomlFault),
    /// A member is wrong, missing or unknown.
    Field(SchemaError),
    /// An array's name or an appid is a duplicate.
    Duplicate(DuplicateName),
}

impl Display for ManifestFault {
    ghost output = { λ fault. Some (manifest_fault_text fault) };

    fn fmt<W: Write>(&self, f: &mut Formatter<W>) -> fmt::Result {
        match self {
            ManifestFault::Toml(_) => f.write_str("M1 Toml"),
            ManifestFault::Field(_) => f.write_str("M2 Field"),
            ManifestFault::Duplicate(_) => f.write_str("M3 Duplicate"),
        }
    }
}

/// Why bytes aren't a document.
#[derive(Clone, Copy, Drop)]
pub enum TomlFault {
    /// There are more than 1048576 bytes.
    TooLong,
    /// The bytes aren't UTF-8, or aren't TOML.
    Text,
}

/// A duplicate name.
pub enum DuplicateName {
    /// The name of an array.
    Array(Quote),
    /// An appid.
    App(Quote),
}

// Not derived: a crate that drops one would prove the drop of each of its parts anew.
impl Drop for DuplicateName {
    fn drop(self) {
        match self {
            DuplicateName::Array(name) => drop(name),
            DuplicateName::App(appid) => drop(appid),
        }
    }
}

impl Display for DuplicateName {
    ghost output = { λ duplicate. Some (duplicate_text duplicate) };

    fn fmt<W: Write>(&self, f: &mut Formatter<W>) -> fmt::Result {
        match self {
            DuplicateName::Array(name) => write!(f, "array {name}"),
            DuplicateName::App(appid) => write!(f, "app {appid}"),
        }
    }
}
