//! The table of a release.

ghost use Rattle.std.specs.Prelude.{◌≡◌, ◌≤◌, length, codes, option_copied, IfOk};
ghost use Rattle.toml.specs.View.{table_view};
ghost use Rattle.manifest.specs.Member.{required, text_that};
ghost use Rattle.manifest.specs.TableFault.{ReadsAs, ReadsListAs};
ghost use Rattle.manifest.specs.Release as specs;

use crate::kind::{Kind, unknown_member};
use crate::member::text_member;
use crate::quote::Quote;
use crate::rows::{TableRow, read_rows};
use crate::schema_error::{InList, PackageError, ReleaseError};
use crate::table_fault::{TableFault, copy};
use attrs::read_version;
use releases::{Package, Release};
use std::alloc::Global;
use toml::Table;

const MAX_PACKAGES: usize = 16;

impl TableRow for Release {
    type SchemaError = ReleaseError;

    ghost row_of = { specs.release_of };

    fn read(alloc: Global, table: &Table) -> Result<Release, TableFault<ReleaseError>> {
        read_release(alloc, table)
    }
}

fn read_release(alloc: Global, table: &Table) -> Result<Release, TableFault<ReleaseError>>
    ensures { ReadsAs (specs.release_of (table_view table.now)) result }
{
    if let Some(key) = unknown_member(Kind::Release, table) {
        let Ok(key) = Quote::of(alloc, key) else {
            return Err(TableFault::Memory);
        };
        return Err(TableFault::SchemaError(ReleaseError::Unknown(key)));
    }
    let Some(version) = version(table) else {
        return Err(TableFault::SchemaError(ReleaseError::Version));
    };
    let Some(codebase) = text_member(table, "codebase") else {
        return Err(TableFault::SchemaError(ReleaseError::Codebase));
    };
    let packages = match read_packages(alloc, table) {
        Ok(packages) => packages,
        Err(TableFault::SchemaError(schema_error)) => {
            return Err(TableFault::SchemaError(ReleaseError::Packages(schema_error)));
        }
        Err(TableFault::Memory) => return Err(TableFault::Memory),
    };
    let Ok(version) = copy(alloc, version) else {
        return Err(TableFault::Memory);
    };
    let Ok(codebase) = copy(alloc, codebase) else {
        return Err(TableFault::Memory);
    };
    Ok(Release::new(version, codebase, packages))
}

fn read_packages(
    alloc: Global,
    table: &Table,
) -> Result<Vec<Package>, TableFault<InList<PackageError>>>
    ensures packages { ReadsListAs (specs.packages_of (table_view table.now)) result }
    ensures some { IfOk result (λ v. 1 ≤ length v.items) }
    ensures few { IfOk result (λ v. length v.items ≤ 16) }
{
    read_rows(alloc, table, "package", 1, MAX_PACKAGES)
}

fn version(table: &Table) -> Option<&str>
    ensures { option_copied result
        ≡ required (text_that specs.is_version_text) (codes "version") (table_view table.now) }
{
    match text_member(table, "version") {
        Some(text) if read_version(text).is_some() => Some(text),
        _ => None,
    }
}
