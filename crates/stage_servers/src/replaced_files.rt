//! The files of a manifest, of which a step's are as before it, or as after it.

ghost use Rattle.std.specs.Prelude.{◌≡◌, [], IfErr, IfOk, option_copied, option_map};
ghost use Rattle.bounded_files.specs.Files.{KnownFiles};
ghost use Rattle.load.specs.Folder.{files_in_folder};
ghost use Rattle.load.specs.Load.{IsLoadFault};
ghost use Rattle.load.specs.Sources.{AreSources};
ghost use Rattle.stage_servers.specs.Replaced.{bytes_then, files_then};
ghost use Rattle.stage_servers.specs.Replaced as specs;

use attrs::Text;
use bounded_files::{Disk, ResourceFault};
use cells::Directory;
use load::{Files, FolderFiles, LoadFault, Sources, collect_sources};
use stage_records::ReplacedFile;
use std::alloc::{AllocError, Global};

/// Files next to a manifest. Those of a step have their bytes after it, or those before it.
#[derive(Drop)]
struct WithReplaced<'a, L> {
    alloc: Global,
    files: L,
    replaced: &'a [ReplacedFile],
    is_after: bool,
}

/// The file of this name.
pub fn file_named<'a>(files: &'a [ReplacedFile], name: &str) -> Option<&'a ReplacedFile>
    ensures { option_copied result ≡ specs.file_named files.now name.now }
{
    let mut left = files;
    while let [file, others @ ..] = left {
        if file.name.as_str() == name {
            return Some(file);
        }
        left = others;
    }
    None
}

/// The bytes of a file after its step, or else before it. A file that was missing counts as empty:
/// a load refuses both.
pub fn bytes_of(alloc: Global, file: &ReplacedFile, is_after: bool) -> Result<Vec<u8>, AllocError>
    ensures { IfOk result (λ bytes. bytes.items ≡ bytes_then is_after file.now) }
{
    if is_after {
        return Vec::from_slice(alloc, &file.after);
    }
    match &file.before {
        Some(bytes) => Vec::from_slice(alloc, bytes),
        None => Ok(Vec::new(alloc)),
    }
}

impl<'a, L: Files> Files for WithReplaced<'a, L> {
    ghost use Rattle.stage_servers.specs.Replaced.{files_then};

    ghost known = { λ files. files_then files.is_after files.replaced.now (L.known files.files) };

    ghost failed = { λ files. L.failed files.files };

    #[tactic(auto, using(crate::proofs::Then::gives_replaced, crate::proofs::Then::reads_other))]
    fn bytes(&mut self, name: &str) -> Result<Vec<u8>, ResourceFault> {
        match file_named(self.replaced, name) {
            Some(file) => match bytes_of(self.alloc, file, self.is_after) {
                Ok(bytes) => Ok(bytes),
                Err(_) => Err(ResourceFault::Memory),
            },
            None => self.files.bytes(name),
        }
    }

    fn failures(&self) -> u64 {
        self.files.failures()
    }
}

/// Gathers a manifest's bytes and the files next to its path, of which a step's are as after it,
/// or else as before it. A fault doesn't depend on what the files have.
#[tactic(auto, using(crate::proofs::Then::of_refusal))]
pub fn sources_with<D: Disk>(
    alloc: Global,
    disk: &D,
    manifest: &str,
    bytes: &[u8],
    replaced: &[ReplacedFile],
    is_after: bool,
) -> Result<Sources, LoadFault>
    ensures sources { IfOk result (AreSources (files_then is_after replaced.now
        (files_in_folder (D.known disk.now) manifest.now)) [] bytes.now) }
    ensures fault { IfErr result (λ fault.
        (files : KnownFiles) → IsLoadFault files [] bytes.now fault) }
{
    let files = FolderFiles::in_folder_of(alloc, disk, manifest);
    let mut files = WithReplaced {
        alloc,
        files,
        replaced,
        is_after,
    };
    match collect_sources(alloc, bytes, &mut files, &Directory::new(alloc)) {
        Ok(sources) => Ok(sources),
        Err(refusal) => Err(refusal.into_fault()),
    }
}

/// What replaces a file that had these bytes, if there was one.
pub fn replaced_file(
    alloc: Global,
    name: &str,
    before: Option<Vec<u8>>,
    bytes: &[u8],
) -> Result<ReplacedFile, AllocError>
    ensures name { IfOk result (λ file. file.name ≡ name.now) }
    ensures before { IfOk result (λ file. file.before ≡ option_map (λ b. b.items) before) }
    ensures after { IfOk result (λ file. file.after ≡ bytes.now) }
{
    let name = Text::new(String::from_str(alloc, name)?);
    let after = Vec::from_slice(alloc, bytes)?;
    Ok(ReplacedFile {
        name,
        before,
        after,
    })
}
