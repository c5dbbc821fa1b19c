//! From the bytes of a manifest to its data.

ghost use Rattle.std.specs.Prelude.{IfOk, IfErr, Ok};
ghost use Rattle.toml.specs.View.{table_view};
ghost use Rattle.manifest.specs.Manifest.{IsTree, ReadsManifest};
ghost use Rattle.manifest.specs.Parsed.{IsNoManifest};

use crate::manifest::{Manifest, read_tables, without_duplicates};
use crate::manifest_fault::{ManifestFault, TomlFault};
use crate::refused::{Parsed, RefusedManifest};
use crate::table_fault::TableFault;
use std::alloc::Global;
use toml::{Table, table_from_slice};

/// The most bytes of a manifest.
pub const MOST_MANIFEST: usize = 1048576;

/// Reads a manifest, a TOML document of at most 1048576 bytes. A refusal has what the bytes were
/// parsed as.
///
/// Its faults:
///
/// - M1: there are more bytes, or they aren't a document.
/// - M2: the first schema error, in the order of the sample in `lib.rt`.
/// - M3: an array's name or an appid is a duplicate.
// open: whether an allocation fails; what the error of M1 says.
pub fn read_manifest(alloc: Global, bytes: &[u8]) -> Result<Manifest, RefusedManifest>
    ensures manifest { IfOk result (λ manifest. ReadsManifest bytes.now (Ok manifest)) }
    ensures refused { IfErr result (IsNoManifest bytes.now) }
{
    let table = parse_document(alloc, bytes)?;
    let manifest = match read_tables(alloc, &table) {
        Ok(manifest) => manifest,
        Err(TableFault::SchemaError(schema_error)) => return Err(RefusedManifest::Fault {
            fault: ManifestFault::Field(schema_error),
            parsed: Parsed::Document(table),
        }),
        Err(TableFault::Memory) => return Err(RefusedManifest::Memory),
    };
    match without_duplicates(alloc, manifest) {
        Ok(manifest) => Ok(manifest),
        Err(TableFault::SchemaError(duplicate)) => Err(RefusedManifest::Fault {
            fault: ManifestFault::Duplicate(duplicate),
            parsed: Parsed::Document(table),
        }),
        Err(TableFault::Memory) => Err(RefusedManifest::Memory),
    }
}

// Parses the bytes as a document.
fn parse_document(alloc: Global, bytes: &[u8]) -> Result<Table, RefusedManifest>
    ensures ok { IfOk result (λ table. IsTree bytes.now (table_view table)) }
    ensures err { IfErr result (IsNoManifest bytes.now) }
{
    if bytes.len() > MOST_MANIFEST {
        return Err(RefusedManifest::Fault {
            fault: ManifestFault::Toml(TomlFault::TooLong),
            parsed: Parsed::Nothing,
        });
    }
    match table_from_slice(alloc, bytes) {
        Ok(table) => Ok(table),
        Err(error) if error.is_memory() => Err(RefusedManifest::Memory),
        Err(error) => Err(RefusedManifest::Fault {
            fault: ManifestFault::Toml(TomlFault::Text),
            parsed: Parsed::Error(error),
        }),
    }
}
