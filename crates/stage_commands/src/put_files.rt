//! The files that `stage put` replaces.

ghost use Rattle.std.specs.Prelude.{◌≡◌, ◌++◌, ◌∷◌, [], IfOk, None, OnOk, filter, find};
ghost use Rattle.stage_commands.specs.PutPlans.{IsContent};
ghost use Rattle.stage_commands.specs.Puts.{AddsAppFile, AddsFile, AreChangesTo, AreFilesOf};
ghost use Rattle.stage_commands.specs.Puts.{AreFilesSoFar};
ghost use Rattle.stage_folder.specs.Steps as specs;

use crate::present::CURRENT;
use crate::stop_texts::TWO_CONTENTS;
use load::{AppSources, whole_file};
use stage_folder::StageFolder;
use stage_records::ReplacedFile;
use stage_servers::{Stop, file_named, in_folder, refusal_of, replaced_file};
use std::alloc::{AllocError, Global};

// What the files have under a name.
enum Content {
    /// No file of this name.
    Missing,
    /// A file that is to get these bytes.
    Same,
    /// A file that is to get other bytes.
    Other,
}

fn content_of(files: &[ReplacedFile], name: &str, bytes: &[u8]) -> Content
    ensures { IsContent files.now name.now bytes.now result }
{
    match file_named(files, name) {
        None => Content::Missing,
        Some(file) => {
            if file.after.as_slice() == bytes {
                Content::Same
            } else {
                Content::Other
            }
        }
    }
}

// Adds a file of a name that is missing among them.
#[tactic(auto, using(crate::proofs::Put::adds))]
fn add_new<F: StageFolder>(
    alloc: Global,
    folder: &F,
    files: &mut Vec<ReplacedFile>,
    name: &str,
    bytes: &[u8],
) -> Result<(), Stop>
    requires { find (specs.has_name name.now) files.old.items ≡ None }
    ensures { OnOk result
        (AddsFile (F.files folder.now) name.now bytes.now files.old.items files.new.items) }
{
    let before = match folder.read(name) {
        Ok(before) => before,
        Err(fault) => return Err(in_folder(alloc, name, fault)),
    };
    let file = replaced_file(alloc, name, before, bytes)?;
    push_file(files, file)?;
    Ok(())
}

// Adds a file, unless it is among them. Two contents of one name are a refusal.
#[tactic(auto, using(crate::proofs::Put::there))]
fn add_file<F: StageFolder>(
    alloc: Global,
    folder: &F,
    files: &mut Vec<ReplacedFile>,
    name: &str,
    bytes: &[u8],
) -> Result<(), Stop>
    ensures { OnOk result
        (AddsFile (F.files folder.now) name.now bytes.now files.old.items files.new.items) }
{
    match content_of(files, name, bytes) {
        Content::Missing => add_new(alloc, folder, files, name, bytes),
        Content::Same => Ok(()),
        Content::Other => Err(refusal_of(alloc, name, TWO_CONTENTS)),
    }
}

fn push_file(files: &mut Vec<ReplacedFile>, file: ReplacedFile) -> Result<(), AllocError>
    ensures { OnOk result (files.new.items ≡ files.old.items ++ file ∷ []) }
{
    files.push(file)?;
    Ok(())
}

// Adds the file of an app, if it was gathered whole.
#[tactic(auto, using(crate::proofs::Put::app_none, crate::proofs::Put::app_one))]
fn add_app_file<F: StageFolder>(
    alloc: Global,
    folder: &F,
    files: &mut Vec<ReplacedFile>,
    app: &AppSources,
) -> Result<(), Stop>
    ensures { OnOk result
        (AddsAppFile (F.files folder.now) app.now files.old.items files.new.items) }
{
    let bytes = match whole_file(&app.kept) {
        Some(bytes) => bytes,
        None => return Ok(()),
    };
    add_file(alloc, folder, files, app.entry.source().file(), bytes)?;
    Ok(())
}

// The files of these apps, each once.
#[tactic(auto, using(crate::proofs::Put::start, crate::proofs::Put::all_apps))]
fn app_files<F: StageFolder>(
    alloc: Global,
    folder: &F,
    apps: &[AppSources],
) -> Result<Vec<ReplacedFile>, Stop>
    ensures { IfOk result (λ files. AreFilesSoFar (F.files folder.now) apps.now [] files.items) }
{
    let mut files = Vec::new(alloc);
    let mut left = apps;
    while let [app, others @ ..] = left {
        add_app_file(alloc, folder, &mut files, app)?;
        left = others;
    }
    Ok(files)
}

// All files of a manifest, and then the manifest.
fn all_files<F: StageFolder>(
    alloc: Global,
    folder: &F,
    manifest: &[u8],
    apps: &[AppSources],
) -> Result<Vec<ReplacedFile>, Stop>
    ensures { IfOk result (λ all. AreFilesOf (F.files folder.now) manifest.now apps.now all.items) }
{
    let mut files = app_files(alloc, folder, apps)?;
    add_file(alloc, folder, &mut files, CURRENT, manifest)?;
    Ok(files)
}

// Whether a step changes the bytes of a file.
fn is_change(file: &ReplacedFile) -> bool
    ensures { result ≡ specs.is_change file.now }
{
    match &file.before {
        Some(before) => before.as_slice() != file.after.as_slice(),
        None => true,
    }
}

fn changes_in(alloc: Global, all: Vec<ReplacedFile>) -> Result<Vec<ReplacedFile>, AllocError>
    ensures { IfOk result (λ files. files.items ≡ filter specs.is_change all.items) }
{
    let mut files = Vec::new(alloc);
    for file in all {
        if is_change(&file) {
            files.push(file)?;
        }
    }
    Ok(files)
}

/// The files of a manifest that differ from those in place, and then the manifest, if it does.
#[tactic(auto, using(crate::proofs::Put::changes_of))]
pub(crate) fn files_to_put<F: StageFolder>(
    alloc: Global,
    folder: &F,
    manifest: &[u8],
    apps: &[AppSources],
) -> Result<Vec<ReplacedFile>, Stop>
    ensures { IfOk result
        (λ files. AreChangesTo (F.files folder.now) manifest.now apps.now files.items) }
{
    let all = all_files(alloc, folder, manifest, apps)?;
    let files = changes_in(alloc, all)?;
    Ok(files)
}
