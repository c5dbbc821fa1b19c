//! Schema errors: which member of which table is wrong, and what is expected there. Tables of a
//! list are numbered from 1. `Unknown` has the key of a member that isn't allowed in its table.
//! `Display` prints the path and what is expected, such as `app[2].release[1].version: ..`.

ghost use Rattle.std.specs.Prelude.{Some};
ghost use Rattle.manifest.specs.Texts.{app_text, array_text, package_text, schema_error_text};
ghost use Rattle.manifest.specs.Texts.{release_text};

use crate::quote::Quote;
use std::fmt;
use std::fmt::{Display, Formatter, Write};

/// A schema error of a manifest.
pub enum SchemaError {
    Unknown(Quote),
    Server,
    Arrays(InList<ArrayError>),
    Apps(InList<AppError>),
}

// Not derived: a crate that drops one would prove the drop of each of its parts anew.
impl Drop for SchemaError {
    fn drop(self) {
        match self {
            SchemaError::Unknown(key) => drop(key),
            SchemaError::Server => {}
            SchemaError::Arrays(in_list) => drop(in_list),
            SchemaError::Apps(in_list) => drop(in_list),
        }
    }
}

/// A schema error in a list of tables.
#[derive(Drop)]
pub enum InList<M> {
    /// It isn't a list, or has too few or too many items.
    Count,
    /// The item with this number isn't a table.
    NoTable(usize),
    /// The table with this number has an error.
    At(usize, M),
}

/// A schema error in the table of an array.
#[derive(Drop)]
pub enum ArrayError {
    Unknown(Quote),
    Name,
    Width,
    Length,
    Quota,
}

/// A schema error in the table of an app.
#[derive(Drop)]
pub enum AppError {
    Unknown(Quote),
    Appid,
    /// There is neither a program nor a rule, or both, or its file name isn't a text.
    ProgramSource,
    Releases(InList<ReleaseError>),
}

/// A schema error in the table of a release.
#[derive(Drop)]
pub enum ReleaseError {
    Unknown(Quote),
    Version,
    Codebase,
    Packages(InList<PackageError>),
}

/// A schema error in the table of a package.
#[derive(Drop)]
pub enum PackageError {
    Unknown(Quote),
    Name,
    Hash,
    Size,
    Required,
}

impl Display for SchemaError {
    ghost output = { λ schema_error. Some (schema_error_text schema_error) };

    fn fmt<W: Write>(&self, f: &mut Formatter<W>) -> fmt::Result {
        match self {
            SchemaError::Unknown(key) => write!(f, "{key}: no member of a manifest"),
            SchemaError::Server => f.write_str("server: a text"),
            SchemaError::Arrays(InList::Count) => f.write_str("array: at most 64 tables"),
            SchemaError::Arrays(InList::NoTable(number)) => write!(f, "array[{number}]: a table"),
            SchemaError::Arrays(InList::At(number, schema_error)) => write!(
                f,
                "array[{number}].{schema_error}"
            ),
            SchemaError::Apps(InList::Count) => f.write_str("app: 1 to 256 tables"),
            SchemaError::Apps(InList::NoTable(number)) => write!(f, "app[{number}]: a table"),
            SchemaError::Apps(InList::At(number, schema_error)) => write!(
                f,
                "app[{number}].{schema_error}"
            ),
        }
    }
}

impl Display for ArrayError {
    ghost output = { λ schema_error. Some (array_text schema_error) };

    fn fmt<W: Write>(&self, f: &mut Formatter<W>) -> fmt::Result {
        match self {
            ArrayError::Unknown(key) => write!(f, "{key}: no member of an array"),
            ArrayError::Name => {
                f.write_str("name: a letter or _, then letters, digits and _, at most 32 in all")
            }
            ArrayError::Width => f.write_str("width: 32 or 64"),
            ArrayError::Length => f.write_str("length: a whole number from 1 to 4096"),
            ArrayError::Quota => f.write_str(
                "quota: a whole number from 1 to 9223372036854775807, with width 64 alone",
            ),
        }
    }
}

impl Display for AppError {
    ghost output = { λ schema_error. Some (app_text schema_error) };

    fn fmt<W: Write>(&self, f: &mut Formatter<W>) -> fmt::Result {
        match self {
            AppError::Unknown(key) => write!(f, "{key}: no member of an app"),
            AppError::Appid => f.write_str("appid: a text of 1 to 1024 bytes"),
            AppError::ProgramSource => f.write_str(
                "program or rule: one of the two, the name of a file",
            ),
            AppError::Releases(InList::Count) => f.write_str("release: at most 64 tables"),
            AppError::Releases(InList::NoTable(number)) => write!(f, "release[{number}]: a table"),
            AppError::Releases(InList::At(number, schema_error)) => {
                write!(f, "release[{number}].{schema_error}")
            }
        }
    }
}

impl Display for ReleaseError {
    ghost output = { λ schema_error. Some (release_text schema_error) };

    fn fmt<W: Write>(&self, f: &mut Formatter<W>) -> fmt::Result {
        match self {
            ReleaseError::Unknown(key) => write!(f, "{key}: no member of a release"),
            ReleaseError::Version => {
                f.write_str("version: one to four numbers below 4294967296, joined by dots")
            }
            ReleaseError::Codebase => f.write_str("codebase: a text"),
            ReleaseError::Packages(InList::Count) => f.write_str("package: 1 to 16 tables"),
            ReleaseError::Packages(InList::NoTable(number)) => {
                write!(f, "package[{number}]: a table")
            }
            ReleaseError::Packages(InList::At(number, schema_error)) => {
                write!(f, "package[{number}].{schema_error}")
            }
        }
    }
}

impl Display for PackageError {
    ghost output = { λ schema_error. Some (package_text schema_error) };

    fn fmt<W: Write>(&self, f: &mut Formatter<W>) -> fmt::Result {
        match self {
            PackageError::Unknown(key) => write!(f, "{key}: no member of a package"),
            PackageError::Name => f.write_str("name: a text"),
            PackageError::Hash => f.write_str("hash_sha256: 64 lower case hexadecimal digits"),
            PackageError::Size => f.write_str("size: a whole number from 0 to 9007199254740991"),
            PackageError::Required => f.write_str("required: true or false"),
        }
    }
}
