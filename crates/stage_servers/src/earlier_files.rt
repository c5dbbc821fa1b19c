//! The files of a folder as earlier steps left them, by the records.

// Of the steps that aren't undone, those up to a place are done, and those after it aren't done
// yet: a file has the bytes that the first of the latter found, or else those that the last of the
// former left. A step that is undone since counts only while it was in force: then a file that it
// replaced has the bytes that it left. Nothing else is known to have changed.

ghost use Rattle.std.specs.Prelude.{◌≡◌, ◌++◌, ◌∷◌, [], IfOk, IfSome, OnOk, codes, drop, false};
ghost use Rattle.std.specs.Prelude.{reverse, take, true};
ghost use Rattle.std.specs.List.{flat_map};
ghost use Rattle.stage_servers.specs.Earlier as specs;
ghost use Rattle.stage_servers.specs.Replaced.{file_named as named};
ghost use Rattle.stage_servers.specs.Served.{HasDigest};

use crate::replaced_files::{bytes_of, file_named, replaced_file, sources_with};
use bounded_files::Disk;
use load::{CollectedManifest, digest_of, manifest_bytes};
use stage_records::{ReplacedFile, StagingStep};
use std::alloc::{AllocError, Global};

/// The name of the manifest in place.
const CURRENT: &str = "current.toml";

// Adds a file as a step left it, or as it found it, unless its name is there.
#[tactic(auto, using(crate::proofs::Earlier::passed_over, crate::proofs::Earlier::pushed))]
fn add_file(
    alloc: Global,
    files: &mut Vec<ReplacedFile>,
    file: &ReplacedFile,
    is_after: bool,
) -> Result<(), AllocError>
    ensures { OnOk result (specs.AreNamedAs files.new.items
        (files.old.items ++ specs.file_as is_after file.now ∷ [])) }
{
    let name = file.name.as_str();
    if file_named(files.as_slice(), name).is_some() {
        return Ok(());
    }
    let bytes = bytes_of(alloc, file, is_after)?;
    let known = replaced_file(alloc, name, None, &bytes)?;
    drop(bytes);
    files.push(known)?;
    Ok(())
}

fn add_files(
    alloc: Global,
    files: &mut Vec<ReplacedFile>,
    added: &[ReplacedFile],
    is_after: bool,
) -> Result<(), AllocError>
    ensures { OnOk result (specs.AreNamedAs files.new.items
        (files.old.items ++ specs.files_as is_after added.now)) }
{
    let mut left = added;
    while let [file, others @ ..] = left {
        add_file(alloc, files, file, is_after)?;
        left = others;
    }
    Ok(())
}

fn add_step(
    alloc: Global,
    files: &mut Vec<ReplacedFile>,
    step: &StagingStep,
    is_after: bool,
) -> Result<(), AllocError>
    ensures { OnOk result (specs.AreNamedAs files.new.items
        (files.old.items ++ specs.files_as is_after step.now.files)) }
{
    add_files(alloc, files, &step.files, is_after)
}

// Adds the files of a step that isn't undone.
fn add_if_done(
    alloc: Global,
    files: &mut Vec<ReplacedFile>,
    step: &StagingStep,
    is_after: bool,
) -> Result<(), AllocError>
    ensures { OnOk result (specs.AreNamedAs files.new.items
        (files.old.items ++ specs.files_if_done is_after step.now)) }
{
    if step.is_undone {
        return Ok(());
    }
    add_step(alloc, files, step, is_after)
}

// Adds the files as the first of these steps that isn't undone found each.
fn add_found(
    alloc: Global,
    files: &mut Vec<ReplacedFile>,
    steps: &[StagingStep],
) -> Result<(), AllocError>
    ensures { OnOk result (specs.AreNamedAs files.new.items
        (files.old.items ++ flat_map (specs.files_if_done false) steps.now)) }
{
    let mut left = steps;
    while let [step, later @ ..] = left {
        add_if_done(alloc, files, step, false)?;
        left = later;
    }
    Ok(())
}

// Adds the files as the last of these steps that isn't undone left each.
fn add_left(
    alloc: Global,
    files: &mut Vec<ReplacedFile>,
    steps: &[StagingStep],
) -> Result<(), AllocError>
    ensures { OnOk result (specs.AreNamedAs files.new.items
        (files.old.items ++ flat_map (specs.files_if_done true) (reverse steps.now))) }
{
    let mut count = steps.len();
    while count > 0 {
        count -= 1;
        let step = &steps[count];
        add_if_done(alloc, files, step, true)?;
    }
    Ok(())
}

// Adds the files as the last of these steps left each, be it undone since or not.
fn add_all_left(
    alloc: Global,
    files: &mut Vec<ReplacedFile>,
    steps: &[StagingStep],
) -> Result<(), AllocError>
    ensures { OnOk result (specs.AreNamedAs files.new.items
        (files.old.items ++ flat_map specs.files_left (reverse steps.now))) }
{
    let mut count = steps.len();
    while count > 0 {
        count -= 1;
        let step = &steps[count];
        add_step(alloc, files, step, true)?;
    }
    Ok(())
}

// The first `place` steps, and the later ones.
#[tactic(auto, using(crate::proofs::Earlier::all_before, crate::proofs::Earlier::none_after))]
fn parts_at(steps: &[StagingStep], place: usize) -> (&[StagingStep], &[StagingStep])
    ensures before { result.0.now ≡ take place steps.now }
    ensures after { result.1.now ≡ drop place steps.now }
{
    if place < steps.len() {
        return steps.split_at(place);
    }
    (steps, &[])
}

/// The files that steps replaced, with the bytes that they had after the first `count`. Of these,
/// the ones from the place `first` on count as done even if they are undone since.
// open: whether an allocation fails, its one error.
pub fn files_left(
    alloc: Global,
    steps: &[StagingStep],
    first: usize,
    count: usize,
) -> Result<Vec<ReplacedFile>, AllocError>
    ensures { IfOk result
        (λ files. specs.AreNamedAs files.items (specs.files_at steps.now first count)) }
{
    let mut files = Vec::new(alloc);
    let (done, later) = parts_at(steps, count);
    let (earlier, run) = parts_at(done, first);
    add_all_left(alloc, &mut files, run)?;
    add_found(alloc, &mut files, later)?;
    add_left(alloc, &mut files, earlier)?;
    Ok(files)
}

// ---- the manifest then

// The bytes of the manifest then.
fn current_bytes<D: Disk>(
    alloc: Global,
    disk: &D,
    manifest: &str,
    files: &[ReplacedFile],
) -> Option<Vec<u8>>
    ensures { IfSome result (λ bytes. specs.GivesManifest (D.known disk.now) manifest.now
        (named files.now (codes "current.toml")) bytes.items) }
{
    match file_named(files, CURRENT) {
        Some(file) => match bytes_of(alloc, file, true) {
            Ok(bytes) => Some(bytes),
            Err(_) => None,
        },
        None => match manifest_bytes(disk, manifest) {
            Ok(bytes) => Some(bytes),
            Err(fault) => {
                drop(fault);
                None
            }
        },
    }
}

/// The manifest in place with these files, gathered, if it can be.
// open: whether it can be gathered: rows.
pub fn collected_with<D: Disk>(
    alloc: Global,
    disk: &D,
    manifest: &str,
    files: &[ReplacedFile],
) -> Option<CollectedManifest>
    ensures { IfSome result
        (specs.IsCollectedWith (D.known disk.now) manifest.now files.now) }
{
    let bytes = current_bytes(alloc, disk, manifest, files)?;
    match sources_with(alloc, disk, manifest, &bytes, files, true) {
        Ok(sources) => Some(CollectedManifest { bytes, sources }),
        Err(fault) => {
            drop(fault);
            drop(bytes);
            None
        }
    }
}

/// The same, if it has this digest, by which a server names what it was loaded with.
// open: whether it can be gathered, and that it has these files: rows.
pub fn collected_as<D: Disk>(
    alloc: Global,
    disk: &D,
    manifest: &str,
    files: &[ReplacedFile],
    wanted: [u8; 32],
) -> Option<CollectedManifest>
    ensures { IfSome result (HasDigest wanted) }
{
    let collected = collected_with(alloc, disk, manifest, files)?;
    match digest_of(&collected.bytes, &collected.sources.apps) {
        Some(found) if found == wanted => Some(collected),
        _ => {
            drop(collected);
            None
        }
    }
}
