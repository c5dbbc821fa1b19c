//! Manifests: a server's counters, its apps and their releases, as a TOML document that an operator
//! writes.
//!
//! ```toml
//! server = "prod"
//!
//! [[array]]                  # at most 64, with distinct names
//! name = "q"
//! width = 64                 # or 32
//! length = 1                 # to 4096
//! quota = 2                  # may be absent; only with width 64
//!
//! [[app]]                    # 1 to 256, with distinct appids
//! appid = "x"
//! program = "x.bin"          # or rule = "x.rule"
//!
//! [[app.release]]            # at most 64
//! version = "2.0.0.0"
//! codebase = "http://dl.example/"
//!
//! [[app.release.package]]    # 1 to 16
//! name = "x.bin"
//! hash_sha256 = "ba7816bf8f01cfea414140de5dae2223b00361a396177a9cb410ff61f20015ad"
//! size = 3
//! required = true
//! ```
//!
//! Each kind of table has a file, a definition of the same name in `specs/`, and a type of its
//! schema errors. The error that counts is the first unknown member, or else the first wrong
//! member in the order of this sample. So a manifest has at most one schema error, whose path leads
//! to the member.
//!
//! See docs/SPECIFICATION.md, "Manifests".
#![tactic(auto)]

mod app;
mod array;
mod duplicate;
mod kind;
mod laws;
mod manifest;
mod manifest_fault;
mod member;
mod package;
mod quote;
mod read;
mod refused;
mod release;
mod rows;
mod schema_error;
mod table_fault;

pub use app::{AppEntry, AppParts, ProgramSource};
pub use duplicate::{Named, has_name};
pub use kind::{Kind, unknown_member};
pub use laws::one_reading;
pub use manifest::{MOST_ARRAYS, Manifest, ManifestParts, read_tables};
pub use manifest_fault::{DuplicateName, ManifestFault, TomlFault};
pub use member::text_member;
pub use quote::Quote;
pub use read::{MOST_MANIFEST, read_manifest};
pub use refused::{Parsed, RefusedManifest};
pub use rows::{TableRow, items_between, read_item};
pub use schema_error::{AppError, ArrayError, InList, PackageError, ReleaseError, SchemaError};
pub use table_fault::TableFault;
