//! The table of an app.

ghost use Rattle.std.specs.Prelude.{◌≡◌, ◌≤◌, length, codes, option_copied};
ghost use Rattle.std.specs.Prelude.{IfOk, IfSome, IsTrue};
ghost use Rattle.toml.specs.View.{view, table_view};
ghost use Rattle.manifest.specs.Member.{required, text_that};
ghost use Rattle.manifest.specs.TableFault.{ReadsAs, ReadsListAs};
ghost use Rattle.releases.specs.Appid.{is_appid};
ghost use Rattle.manifest.specs.App as specs;

use crate::kind::{Kind, unknown_member};
use crate::member::{member, text_member};
use crate::quote::Quote;
use crate::rows::{TableRow, read_rows};
use crate::schema_error::{AppError, InList, ReleaseError};
use crate::table_fault::{TableFault, copy};
use attrs::Text;
use cells::Shape;
use releases::Release;
use std::alloc::Global;
use std::marker::Model;
use toml::Table;

/// The file of an app's program, by its name.
#[derive(Drop)]
pub enum ProgramSource {
    /// A file with the bytes of a program.
    Program(Text),
    /// A file with the text of a rule.
    Rule(Text),
}

impl ProgramSource {
    /// The name of the file, as the manifest has it.
    pub fn file(&self) -> &str
        ensures { result.now ≡ specs.file_of self.now }
    {
        match self {
            ProgramSource::Program(file) => file.as_str(),
            ProgramSource::Rule(file) => file.as_str(),
        }
    }
}

/// An app of a manifest, with an appid of 1 to 1024 bytes and at most 64 releases.
pub struct AppEntry {
    appid: Text,
    source: ProgramSource,
    releases: Vec<Release>,
}

// Not derived: a crate that drops one would prove the drop of each of its parts anew.
impl Drop for AppEntry {
    fn drop(self) {
        let Self {
            appid: _appid,
            source: _source,
            releases: _releases,
        } = self;
    }
}

impl Model for AppEntry {
    ghost use Rattle.manifest.specs.App as specs;

    ghost Value = { specs.AppEntry };

    ghost view = { λ a. record {
      appid = a.appid;
      source = a.source;
      releases = a.releases.items;
    } };

    ghost invariant = { λ a. specs.IsAppEntry a.appid a.releases.items };
}

impl AppEntry {
    /// The text by which clients name the app.
    pub fn appid(&self) -> &str
        ensures appid { result.now ≡ self.now.appid }
        ensures named { IsTrue (is_appid result.now) }
    {
        self.appid.as_str()
    }

    /// The file of its program.
    pub fn source(&self) -> &ProgramSource
        ensures { result.now ≡ self.now.source }
    {
        &self.source
    }

    /// Its releases, in the manifest's order.
    pub fn releases(&self) -> &[Release]
        ensures releases { result.now ≡ self.now.releases }
        ensures count { length result.now ≤ 64 }
    {
        self.releases.as_slice()
    }
}

/// The parts of an app, owned.
#[derive(Drop)]
pub struct AppParts {
    pub appid: Text,
    pub source: ProgramSource,
    pub releases: Vec<Release>,
}

impl AppEntry {
    /// Moves its parts out, without an allocation.
    pub fn into_parts(self) -> AppParts
        ensures appid { result.appid ≡ self.appid }
        ensures named { IsTrue (is_appid result.appid) }
        ensures source { result.source ≡ self.source }
        ensures releases { result.releases.items ≡ self.releases }
        ensures count { length result.releases.items ≤ 64 }
    {
        let Self {
            appid,
            source,
            releases,
        } = self;
        AppParts {
            appid,
            source,
            releases,
        }
    }
}

impl TableRow for AppEntry {
    type SchemaError = AppError;

    ghost row_of = { specs.app_of };

    fn read(alloc: Global, table: &Table) -> Result<AppEntry, TableFault<AppError>> {
        read_app(alloc, table)
    }
}

fn read_app(alloc: Global, table: &Table) -> Result<AppEntry, TableFault<AppError>>
    ensures { ReadsAs (specs.app_of (table_view table.now)) result }
{
    if let Some(key) = unknown_member(Kind::App, table) {
        let Ok(key) = Quote::of(alloc, key) else {
            return Err(TableFault::Memory);
        };
        return Err(TableFault::SchemaError(AppError::Unknown(key)));
    }
    let Some(appid) = appid(table) else {
        return Err(TableFault::SchemaError(AppError::Appid));
    };
    let source = match read_source(alloc, table) {
        Ok(source) => source,
        Err(fault) => return Err(fault),
    };
    let releases = match read_releases(alloc, table) {
        Ok(releases) => releases,
        Err(TableFault::SchemaError(schema_error)) => return Err(TableFault::SchemaError(
            AppError::Releases(schema_error),
        )),
        Err(TableFault::Memory) => return Err(TableFault::Memory),
    };
    let Ok(appid) = copy(alloc, appid) else {
        return Err(TableFault::Memory);
    };
    Ok(AppEntry {
        appid,
        source,
        releases,
    })
}

fn appid(table: &Table) -> Option<&str>
    ensures appid { option_copied result
        ≡ required (text_that is_appid) (codes "appid") (table_view table.now) }
    ensures named { IfSome result (λ text. IsTrue (is_appid text.now)) }
{
    match text_member(table, "appid") {
        Some(text) if releases::is_appid(text) => Some(text),
        _ => None,
    }
}

// A table has either a program or a rule.
fn read_source(alloc: Global, table: &Table) -> Result<ProgramSource, TableFault<AppError>>
    ensures { ReadsAs (specs.source_in (table_view table.now)) result }
{
    match (member(table, "program"), member(table, "rule")) {
        (Some(program), None) => match program.as_str() {
            Some(file) => match copy(alloc, file) {
                Ok(file) => Ok(ProgramSource::Program(file)),
                Err(_) => Err(TableFault::Memory),
            },
            None => Err(TableFault::SchemaError(AppError::ProgramSource)),
        },
        (None, Some(rule)) => match rule.as_str() {
            Some(file) => match copy(alloc, file) {
                Ok(file) => Ok(ProgramSource::Rule(file)),
                Err(_) => Err(TableFault::Memory),
            },
            None => Err(TableFault::SchemaError(AppError::ProgramSource)),
        },
        _ => Err(TableFault::SchemaError(AppError::ProgramSource)),
    }
}

fn read_releases(
    alloc: Global,
    table: &Table,
) -> Result<Vec<Release>, TableFault<InList<ReleaseError>>>
    ensures releases { ReadsListAs (specs.releases_of (table_view table.now)) result }
    ensures count { IfOk result (λ v. length v.items ≤ 64) }
{
    read_rows(alloc, table, "release", 0, Shape::MOST_RELEASES as usize)
}
