//! Loading: a manifest and its files become a ruleset, and its arrays are declared.
//!
//! See docs/SPECIFICATION.md, "Manifests".
#![tactic(auto)]

// How a load works. First everything is gathered (`sources.rt`). The manifest is read, and its
// arrays are declared in a copy of the directory. The arrays and the number of an app's releases
// make the app's shape. Then as much of each app's file is kept as judging takes (`kept_file.rt`).
// What was gathered is judged in the order of the apps (`programs.rt`), without reading a file
// again. Each file is verified as a program, or compiled as the text of a rule (`judging.rt`); the
// first fault counts. If all apps have their programs, each becomes one value with its program and
// its rule (`judged.rt`), with the digest of exactly the bytes that were judged (`made.rt`,
// `digest.rt`). A server drops the rules when it makes a ruleset of these apps; tools keep them.
// Only then is the directory replaced by the copy, so a refused load declares nothing.
//
// A load takes a manifest's bytes and any files (`load_bytes` in `loading.rt`). Servers use it to
// load the manifest at a path (`path.rt`); `load_over` and `load_ruleset` call it. Tools open the
// manifest at a path without making a ruleset (`opened.rt`).
//
// A file is read to its end. If it is longer than it may be, only its first bytes are kept, with
// its length and whether it is text. Such a file is always a fault. So once those that were
// gathered have more than 64 MiB in all, the first fault is among them, and no further file is
// read.
//
// Files are read through a trait, so that files in memory can replace those of a device; for files
// in memory the contracts say which file of which folder was read.

mod arrays;
mod cause;
mod digest;
mod files;
mod folder;
mod judged;
mod judging;
mod kept_file;
mod laws;
mod load_fault;
mod loading;
mod made;
mod opened;
mod path;
mod programs;
mod refusal;
mod sources;

pub use bounded_files::{Device, Disk};
pub use digest::digest_of;
pub use files::Files;
pub use folder::FolderFiles;
pub use judged::{AppProgram, JudgedApp, JudgedManifest, RefusedApps};
pub use kept_file::whole_file;
pub use laws::{one_load, opened_is_made, sources_are_loaded, sources_are_made};
pub use load_fault::{AppFault, LoadFault, PathFault};
pub use loading::{load_over, load_ruleset};
pub use made::judge_sources;
pub use opened::{CollectedManifest, collect_manifest, open_manifest};
pub use path::{MOST_MANIFEST, load_path, load_with_digest, manifest_bytes};
pub use programs::{in_app, judge_app, supply};
pub use refusal::{LoadRefusal, SourcesRefusal};
pub use sources::{AppSources, Sources, collect_sources};
