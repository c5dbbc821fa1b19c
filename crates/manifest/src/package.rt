//! The table of a package.

ghost use Rattle.std.specs.Prelude.{◌≡◌, codes, option_copied};
ghost use Rattle.toml.specs.View.{table_view};
ghost use Rattle.releases.specs.Release.{is_hash};
ghost use Rattle.manifest.specs.Member.{required, text_that};
ghost use Rattle.manifest.specs.TableFault.{ReadsAs};
ghost use Rattle.manifest.specs.Package as specs;

use crate::kind::{Kind, unknown_member};
use crate::member::{number, text_member, truth};
use crate::quote::Quote;
use crate::rows::TableRow;
use crate::schema_error::PackageError;
use crate::table_fault::{TableFault, copy};
use releases::Package;
use std::alloc::Global;
use toml::Table;

/// The most bytes of a package's file, 2^53 - 1: the greatest integer up to which every JSON reader
/// is exact.
const MAX_SIZE: u64 = 9007199254740991;

impl TableRow for Package {
    type SchemaError = PackageError;

    ghost row_of = { specs.package_of };

    fn read(alloc: Global, table: &Table) -> Result<Package, TableFault<PackageError>> {
        read_package(alloc, table)
    }
}

fn read_package(alloc: Global, table: &Table) -> Result<Package, TableFault<PackageError>>
    ensures { ReadsAs (specs.package_of (table_view table.now)) result }
{
    if let Some(key) = unknown_member(Kind::Package, table) {
        let Ok(key) = Quote::of(alloc, key) else {
            return Err(TableFault::Memory);
        };
        return Err(TableFault::SchemaError(PackageError::Unknown(key)));
    }
    let Some(name) = text_member(table, "name") else {
        return Err(TableFault::SchemaError(PackageError::Name));
    };
    let Some(hash) = hash(table) else {
        return Err(TableFault::SchemaError(PackageError::Hash));
    };
    let Some(size) = number(table, "size", 0, MAX_SIZE) else {
        return Err(TableFault::SchemaError(PackageError::Size));
    };
    let Some(required) = truth(table, "required") else {
        return Err(TableFault::SchemaError(PackageError::Required));
    };
    let Ok(name) = copy(alloc, name) else {
        return Err(TableFault::Memory);
    };
    let Ok(hash) = copy(alloc, hash) else {
        return Err(TableFault::Memory);
    };
    Ok(Package::new(name, hash, size, required))
}

fn hash(table: &Table) -> Option<&str>
    ensures { option_copied result
        ≡ required (text_that is_hash) (codes "hash_sha256") (table_view table.now) }
{
    match text_member(table, "hash_sha256") {
        Some(text) if Package::is_hash(text) => Some(text),
        _ => None,
    }
}
