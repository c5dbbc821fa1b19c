//! The app whose file is to be replaced, and what replaces that.

ghost use Rattle.std.specs.Prelude.{◌≡◌, IfOk, None, Some, false, not, option_copied, option_map};
ghost use Rattle.std.specs.Prelude.{option_to_list};
ghost use Rattle.std.specs.Str.{bytes_eq};
ghost use Rattle.stage_commands.specs.Apps as specs;
ghost use Rattle.stage_servers.specs.Apps.{app_named};
ghost use Rattle.stage_folder.specs.Folders.{GivesFile, KnownFolder};
ghost use Rattle.stage_records.specs.FileStates.{is_same_file};

use crate::stop_texts::{no_app, one_file};
use load::AppSources;
use stage_records::ReplacedFile;
use stage_servers::{Lines, StageCall, Stop, app_named, replaced_file};
use std::alloc::{AllocError, Global};
use std::fs;
use std::os::unix::fs::MetadataExt;
use std::path::Path;
use std::rt::Files;

// The device and the inode of a file that a manifest names, links followed; None if there is none.
fn file_identity<R>(rt: &R, manifest: &str, name: &str) -> Result<Option<(u64, u64)>, AllocError>
where
    R: Files + AllocGlobal,
{
    let path = Path::new(manifest).with_file_name(rt.alloc(), name)?;
    match fs::metadata(rt, path.as_str()) {
        Ok(found) => Ok(Some((found.dev(), found.ino()))),
        Err(_) => Ok(None),
    }
}

// Whether two names of a manifest lead to one file.
fn is_one_file<R>(rt: &R, manifest: &str, one: &str, other: &str) -> Result<bool, AllocError>
where
    R: Files + AllocGlobal,
{
    let Some(found) = file_identity(rt, manifest, one)? else {
        return Ok(false);
    };
    match file_identity(rt, manifest, other)? {
        Some(too) => Ok(found.0 == too.0 && found.1 == too.1),
        None => Ok(false),
    }
}

fn is_other(app: &AppSources, other: &AppSources) -> bool
    ensures { result ≡ not (bytes_eq other.now.entry.appid app.now.entry.appid) }
{
    other.entry.appid() != app.entry.appid()
}

// Whether another app names the file of an app.
fn names_file_of(app: &AppSources, other: &AppSources) -> bool
    ensures { result ≡ specs.names_file_of app.now other.now }
{
    is_other(app, other) && other.entry.source().file() == app.entry.source().file()
}

// Whether another app has the file of an app, by the same name or by one that leads to it.
fn has_file_of<R>(
    rt: &R,
    manifest: &str,
    app: &AppSources,
    other: &AppSources,
) -> Result<bool, AllocError>
where
    R: Files + AllocGlobal,
    ensures { IfOk result (λ has. has ≡ false → specs.names_file_of app.now other.now ≡ false) }
{
    if names_file_of(app, other) {
        return Ok(true);
    }
    if !is_other(app, other) {
        return Ok(false);
    }
    let (one, too) = (app.entry.source().file(), other.entry.source().file());
    let is_one = is_one_file(rt, manifest, one, too)?;
    Ok(is_one)
}

// Another app of the manifest with the same file.
fn app_with_file<'a, R>(
    rt: &R,
    manifest: &str,
    apps: &'a [AppSources],
    app: &AppSources,
) -> Result<Option<&'a AppSources>, AllocError>
where
    R: Files + AllocGlobal,
    ensures { IfOk result (λ other. option_copied other ≡ None
        → specs.shares_file apps.now app.now ≡ false) }
{
    let mut left = apps;
    while let [other, others @ ..] = left {
        if has_file_of(rt, manifest, app, other)? {
            return Ok(Some(other));
        }
        left = others;
    }
    Ok(None)
}

/// The app with this appid. It is a refusal if another app has the same file, unless `--anyway` is
/// given.
pub(crate) fn app_to_change<'a, R, D>(
    call: &StageCall<'_, R, D>,
    apps: &'a [AppSources],
    appid: &str,
    lines: &mut Lines,
) -> Result<&'a AppSources, Stop>
where
    R: Files + AllocGlobal,
    ensures found { IfOk result (λ app. app_named apps.now appid.now ≡ Some app.now) }
    ensures alone { IfOk result (λ app. call.now.options.now.anyway ≡ false
        → specs.shares_file apps.now app.now ≡ false) }
{
    let alloc = call.rt.alloc();
    let Some(app) = app_named(apps, appid) else {
        return Err(no_app(alloc, appid, apps));
    };
    let Ok(found) = app_with_file(call.rt, call.manifest, apps, app) else {
        return Err(Stop::Memory);
    };
    let Some(other) = found else {
        return Ok(app);
    };
    let refusal = one_file(alloc, app.entry.source().file(), other.entry.appid());
    match lines.go_on_if(call.options.anyway, refusal) {
        Ok(()) => Ok(app),
        Err(stop) => Err(stop),
    }
}

fn has_bytes(before: &Option<Vec<u8>>, bytes: &[u8]) -> bool
    ensures { result ≡ is_same_file (option_map (λ b. b.items) before.now) (Some bytes.now) }
{
    match before {
        Some(before) => before.as_slice() == bytes,
        None => false,
    }
}

/// What replaces a file that had these bytes, if there was one; nothing if it has the new ones.
#[tactic(auto, using(crate::proofs::Changing::has_them, crate::proofs::Changing::gets_others))]
pub(crate) fn replacement(
    alloc: Global,
    name: &str,
    before: Option<Vec<u8>>,
    bytes: &[u8],
) -> Result<Option<ReplacedFile>, AllocError>
    ensures { IfOk result (λ file. (known : KnownFolder)
        → GivesFile known name.now (option_map (λ b. b.items) before)
        → specs.ReplacesBy known name.now bytes.now file) }
{
    if has_bytes(&before, bytes) {
        return Ok(None);
    }
    let file = replaced_file(alloc, name, before, bytes)?;
    Ok(Some(file))
}

/// The file, if there is one.
pub(crate) fn files_of(
    alloc: Global,
    file: Option<ReplacedFile>,
) -> Result<Vec<ReplacedFile>, AllocError>
    ensures { IfOk result (λ files. files.items ≡ option_to_list file) }
{
    let mut files = Vec::new(alloc);
    if let Some(file) = file {
        files.push(file)?;
    }
    Ok(files)
}
