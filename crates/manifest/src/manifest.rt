//! The table of a manifest.

ghost use Rattle.std.specs.Prelude.{◌≡◌};
ghost use Rattle.toml.specs.View.{table_view};
ghost use Rattle.manifest.specs.TableFault.{ReadsAs, ReadsListAs};
ghost use Rattle.manifest.specs.Manifest as specs;

use crate::app::AppEntry;
use crate::duplicate::repeated_name;
use crate::kind::{Kind, unknown_member};
use crate::manifest_fault::DuplicateName;
use crate::member::text_member;
use crate::quote::Quote;
use crate::rows::read_rows;
use crate::schema_error::{AppError, ArrayError, InList, SchemaError};
use crate::table_fault::{TableFault, copy};
use attrs::Text;
use declarations::ArrayDeclaration;
use releases::MOST_APPS;
use std::alloc::Global;
use std::marker::Model;
use toml::Table;

/// The most arrays of a manifest.
pub const MOST_ARRAYS: usize = 64;

/// The data of a manifest: the server's name, its arrays of counters, and its apps.
pub struct Manifest {
    server: Text,
    arrays: Vec<ArrayDeclaration>,
    apps: Vec<AppEntry>,
}

// Not derived: a crate that drops one would prove the drop of each of its parts anew.
impl Drop for Manifest {
    fn drop(self) {
        let Self {
            server: _server,
            arrays: _arrays,
            apps: _apps,
        } = self;
    }
}

impl Model for Manifest {
    ghost use Rattle.manifest.specs.Manifest as specs;

    ghost Value = { specs.Manifest };

    ghost view = { λ m. record {
      server = m.server;
      arrays = m.arrays.items;
      apps = m.apps.items;
    } };
}

impl Manifest {
    /// The server's name.
    pub fn server(&self) -> &str
        ensures { result.now ≡ self.now.server }
    {
        self.server.as_str()
    }

    /// The arrays, in order: map i of a program is the i-th array, from 0.
    pub fn arrays(&self) -> &[ArrayDeclaration]
        ensures { result.now ≡ self.now.arrays }
    {
        self.arrays.as_slice()
    }

    /// The apps, in order.
    pub fn apps(&self) -> &[AppEntry]
        ensures { result.now ≡ self.now.apps }
    {
        self.apps.as_slice()
    }
}

/// The parts of a manifest, owned.
#[derive(Drop)]
pub struct ManifestParts {
    pub server: Text,
    pub arrays: Vec<ArrayDeclaration>,
    pub apps: Vec<AppEntry>,
}

impl Manifest {
    /// Moves its parts out, without an allocation.
    pub fn into_parts(self) -> ManifestParts
        ensures server { result.server ≡ self.server }
        ensures arrays { result.arrays.items ≡ self.arrays }
        ensures apps { result.apps.items ≡ self.apps }
    {
        let Self {
            server,
            arrays,
            apps,
        } = self;
        ManifestParts {
            server,
            arrays,
            apps,
        }
    }
}

/// The manifest of a table, which may have duplicate names.
pub fn read_tables(alloc: Global, table: &Table) -> Result<Manifest, TableFault<SchemaError>>
    ensures { ReadsAs (specs.tables_of (table_view table.now)) result }
{
    if let Some(key) = unknown_member(Kind::Manifest, table) {
        let Ok(key) = Quote::of(alloc, key) else {
            return Err(TableFault::Memory);
        };
        return Err(TableFault::SchemaError(SchemaError::Unknown(key)));
    }
    let Some(server) = text_member(table, "server") else {
        return Err(TableFault::SchemaError(SchemaError::Server));
    };
    let arrays = match read_arrays(alloc, table) {
        Ok(arrays) => arrays,
        Err(TableFault::SchemaError(schema_error)) => return Err(TableFault::SchemaError(
            SchemaError::Arrays(schema_error),
        )),
        Err(TableFault::Memory) => return Err(TableFault::Memory),
    };
    let apps = match read_apps(alloc, table) {
        Ok(apps) => apps,
        Err(TableFault::SchemaError(schema_error)) => return Err(TableFault::SchemaError(
            SchemaError::Apps(schema_error),
        )),
        Err(TableFault::Memory) => return Err(TableFault::Memory),
    };
    let Ok(server) = copy(alloc, server) else {
        return Err(TableFault::Memory);
    };
    Ok(Manifest {
        server,
        arrays,
        apps,
    })
}

fn read_arrays(
    alloc: Global,
    table: &Table,
) -> Result<Vec<ArrayDeclaration>, TableFault<InList<ArrayError>>>
    ensures { ReadsListAs (specs.arrays_of (table_view table.now)) result }
{
    read_rows(alloc, table, "array", 0, MOST_ARRAYS)
}

fn read_apps(alloc: Global, table: &Table) -> Result<Vec<AppEntry>, TableFault<InList<AppError>>>
    ensures { ReadsListAs (specs.apps_of (table_view table.now)) result }
{
    read_rows(alloc, table, "app", 1, MOST_APPS)
}

/// The manifest, unless it has a duplicate name.
pub(crate) fn without_duplicates(
    alloc: Global,
    manifest: Manifest,
) -> Result<Manifest, TableFault<DuplicateName>>
    ensures { ReadsAs (specs.once manifest) result }
{
    if let Some(name) = repeated_name(manifest.arrays()) {
        let Ok(name) = Quote::of(alloc, name) else {
            return Err(TableFault::Memory);
        };
        return Err(TableFault::SchemaError(DuplicateName::Array(name)));
    }
    if let Some(appid) = repeated_name(manifest.apps()) {
        let Ok(appid) = Quote::of(alloc, appid) else {
            return Err(TableFault::Memory);
        };
        return Err(TableFault::SchemaError(DuplicateName::App(appid)));
    }
    Ok(manifest)
}
