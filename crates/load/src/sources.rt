//! A manifest and its files, gathered before any app is judged.

ghost use Rattle.std.specs.Prelude.{◌≡◌, ◌≢◌, ◌^◌, ◌+◌, ◌-◌, ◌<◌, ℕ, List, length};
ghost use Rattle.std.specs.Prelude.{All, IsTrue, IfOk, IfErr, Ok};
ghost use mathlib.Core.List.{IsPrefix};
ghost use Rattle.cells.specs.declared.array.CellArray.{CellArray};
ghost use Rattle.load.specs.Sources.{AreAppSources, AreArraysWithFault, AreReadInTurn};
ghost use Rattle.load.specs.Sources.{AreSources, IsSourcesRefusal, failures_in};
ghost use Rattle.load.specs.Kept.{CountsFile};
ghost use Rattle.manifest.specs.Manifest.{ReadsManifest};

use crate::arrays::declare_arrays;
use crate::files::Files;
use crate::kept_file::{collect_file, long_count};
use crate::load_fault::LoadFault;
use crate::refusal::SourcesRefusal;
use attrs::Text;
use bounded_files::KeptBytes;
use cells::{ArrayNo, Directory, Shape};
use declarations::ArrayDeclaration;
use manifest::{AppEntry, Manifest, ManifestParts, Parsed, RefusedManifest, read_manifest};
use std::alloc::{AllocError, Global};

/// How many bytes files that are too long may have in all, 64 MiB. Above that no further file is
/// read.
const MOST_LONG: u128 = 0x400_0000;

/// An app of a manifest, its shape, and what is kept of its file (None if that can't be read). Also
/// whether the file's path had a symbolic link just before it was read, or may have had one.
pub struct AppSources {
    pub entry: AppEntry,
    pub shape: Shape,
    pub kept: Option<KeptBytes>,
    pub through_link: bool,
}

// Not derived: a crate that drops one would prove the drop of each of its parts anew.
impl Drop for AppSources {
    fn drop(self) {
        let Self {
            entry: _entry,
            shape: _shape,
            kept: _kept,
            through_link: _through_link,
        } = self;
    }
}

impl AppSources {
    /// The manifest's app. Everything else is dropped.
    pub(crate) fn into_entry(self) -> AppEntry
        ensures { result ≡ self.entry }
    {
        let Self {
            entry,
            shape: _shape,
            kept: _kept,
            through_link: _through_link,
        } = self;
        entry
    }
}

/// A manifest that was read: the text with its server's name, its arrays, the directory in which
/// they are declared after the existing ones, and its apps. It keeps at most 64 KiB of each of at
/// most 256 files.
#[derive(Drop)]
pub struct Sources {
    pub server: Text,
    pub arrays: Vec<ArrayDeclaration>,
    pub directory: Directory,
    pub apps: Vec<AppSources>,
    /// How many apps follow whose files aren't read, because earlier files that are too long have
    /// more than 64 MiB in all. If there is one, some app before it has no program.
    pub unread: usize,
}

/// The apps whose files are read, and how many apps come after them.
struct ReadApps {
    apps: Vec<AppSources>,
    unread: usize,
}

/// Gathers a manifest and its files. Each file is read once, and none after more than 64 MiB of
/// files that are too long. Also returns M8 if the count of unreadable files overflows.
// open: whether an allocation fails (M8), and for M8 how far the count of unreadable files grew;
// that `is_through_link` is called before each file is read: `bench/hostile`; what a device's files
// contain.
pub fn collect_sources<F: Files>(
    alloc: Global,
    manifest: &[u8],
    files: &mut F,
    directory: &Directory,
) -> Result<Sources, SourcesRefusal>
    ensures known { F.known files.new ≡ F.known files.old }
    ensures sources { IfOk result (AreSources (F.known files.old) directory.now manifest.now) }
    ensures grown { IfOk result (λ g. IsPrefix directory.now g.directory) }
    // Each file that couldn't be read is counted, and no other.
    ensures count { IfOk result (λ g.
        F.failed files.new ≡ F.failed files.old + failures_in g.apps.items) }
    // Nor is one counted if no file is read.
    ensures uncounted { IfErr result (λ u. u.fault ≢ LoadFault.Memory
        → F.failed files.new ≡ F.failed files.old) }
    ensures fault { IfErr result (IsSourcesRefusal directory.now manifest.now) }
{
    let manifest = match parse(alloc, manifest) {
        Ok(manifest) => manifest,
        Err(refused_sources) => return Err(refused_sources),
    };
    let ManifestParts {
        server,
        arrays,
        apps,
    } = manifest.into_parts();
    let Ok(mut grown) = directory.copy(alloc) else {
        return Err(out_of_memory(arrays));
    };
    let numbers = match declare_arrays(alloc, &mut grown, &arrays) {
        Ok(numbers) => numbers,
        Err(fault) => {
            return Err(SourcesRefusal {
                fault,
                arrays,
                parsed: Parsed::Nothing,
            });
        }
    };
    let _arrays = grown.arrays();
    match collect_apps(alloc, files, &grown, &numbers, apps) {
        Ok(ReadApps { apps, unread }) => Ok(Sources {
            server,
            arrays,
            directory: grown,
            apps,
            unread,
        }),
        Err(_) => Err(out_of_memory(arrays)),
    }
}

// The manifest that bytes spell.
fn parse(alloc: Global, bytes: &[u8]) -> Result<Manifest, SourcesRefusal>
    ensures manifest { IfOk result (λ manifest. ReadsManifest bytes.now (Ok manifest)) }
    ensures fault { IfErr result (λ u. (old : List CellArray) → IsSourcesRefusal old bytes.now u) }
{
    match read_manifest(alloc, bytes) {
        Ok(manifest) => Ok(manifest),
        Err(RefusedManifest::Fault { fault, parsed }) => Err(SourcesRefusal {
            fault: LoadFault::Manifest(fault),
            arrays: Vec::new(alloc),
            parsed,
        }),
        Err(RefusedManifest::Memory) => Err(out_of_memory(Vec::new(alloc))),
    }
}

fn out_of_memory(arrays: Vec<ArrayDeclaration>) -> SourcesRefusal
    ensures fault { result.fault ≡ LoadFault.Memory }
    ensures refused_sources { (old : List CellArray) (bytes : List ℕ)
        → AreArraysWithFault bytes LoadFault.Memory arrays.items
        → IsSourcesRefusal old bytes result }
{
    SourcesRefusal {
        fault: LoadFault::Memory,
        arrays,
        parsed: Parsed::Nothing,
    }
}

fn collect_apps<F: Files>(
    alloc: Global,
    files: &mut F,
    directory: &Directory,
    numbers: &[ArrayNo],
    entries: Vec<AppEntry>,
) -> Result<ReadApps, AllocError>
    requires { All (λ n. n.number < length directory.now) numbers.now }
    ensures known { F.known files.new ≡ F.known files.old }
    ensures apps { IfOk result (λ read.
        AreReadInTurn (F.known files.old) directory.now numbers.now 0 entries.items read.apps.items
        read.unread) }
    ensures count { IfOk result (λ read.
        F.failed files.new ≡ F.failed files.old + failures_in read.apps.items) }
{
    let count = entries.len();
    let mut apps = Vec::new(alloc);
    let mut long = 0;
    for entry in entries {
        if long > MOST_LONG {
            let unread = count - apps.len();
            return Ok(ReadApps { apps, unread });
        }
        let Ok(app) = collect_app(alloc, files, directory, numbers, entry) else {
            return Err(AllocError);
        };
        long += long_count(&app.kept);
        let Ok(()) = apps.push(app) else {
            return Err(AllocError);
        };
    }
    Ok(ReadApps { apps, unread: 0 })
}

fn collect_app<F: Files>(
    alloc: Global,
    files: &mut F,
    directory: &Directory,
    numbers: &[ArrayNo],
    entry: AppEntry,
) -> Result<AppSources, AllocError>
    requires { All (λ n. n.number < length directory.now) numbers.now }
    ensures known { F.known files.new ≡ F.known files.old }
    ensures app { IfOk result
        (AreAppSources (F.known files.old) directory.now numbers.now entry) }
    ensures count { IfOk result (λ app.
        CountsFile (F.failed files.old) (F.failed files.new) app.kept) }
{
    if !can_count(files) {
        return Err(AllocError);
    }
    let releases = entry.releases().len() as u8;
    let Ok(shape) = Shape::of(alloc, releases, directory, numbers) else {
        return Err(AllocError);
    };
    let through_link = files.is_through_link(entry.source().file());
    let Ok(kept) = collect_file(files, entry.source()) else {
        return Err(AllocError);
    };
    Ok(AppSources {
        entry,
        shape,
        kept,
        through_link,
    })
}

// Whether the count of unreadable files can grow by one more.
fn can_count<F: Files>(files: &F) -> bool
    ensures { IsTrue result → F.failed files.now < 2 ^ 64 - 1 }
{
    files.failures() < u64::MAX
}
