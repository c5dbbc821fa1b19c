//! The paths of the files in a device's folder. No name leads out of the folder, into its records,
//! or through a symbolic link.

ghost use Rattle.std.specs.Prelude.{◌≡◌, ◌==◌, ◌++◌, IfOk, filter, map, not, option_map};
ghost use Rattle.std.specs.Prelude.{codes, string_bytes};
ghost use Rattle.std.specs.List.{join_with_byte, list_any, slice_split};
ghost use Rattle.stage_folder.specs.Names as specs;
ghost use Rattle.stage_folder.specs.Names.{IsPathIn};

use crate::folder_fault::FolderFault;
use crate::record_folder::RECORDS;
use std::alloc::{AllocError, Global};
use std::fs;
use std::io::ErrorKind;
use std::path::Path;
use std::rt::Files;

// The parts of a name between its slashes.
fn all_parts<'a>(alloc: Global, name: &'a str) -> Result<Vec<&'a str>, AllocError>
    ensures { IfOk result (λ parts. map (λ part. part.now) parts.items
        ≡ slice_split (λ b. b == 47) name.now) }
{
    name.split('/').collect(alloc)
}

// These parts, but for those that are `.`.
fn without_dots<'a>(alloc: Global, all: &[&'a str]) -> Result<Vec<&'a str>, AllocError>
    ensures { IfOk result (λ parts. map (λ part. part.now) parts.items
        ≡ filter (λ part. not (specs.is_dot part)) (map (λ part. part.now) all.now)) }
{
    let mut parts = Vec::new(alloc);
    let mut left = all;
    while let [part, others @ ..] = left {
        if *part != "." {
            parts.push(*part)?;
        }
        left = others;
    }
    Ok(parts)
}

// Whether one of these parts is empty, or is `..`.
fn some_leads_out(parts: &[&str]) -> bool
    ensures { result ≡ list_any specs.leads_out (map (λ part. part.now) parts.now) }
{
    let mut left = parts;
    while let [part, others @ ..] = left {
        if part.is_empty() || *part == ".." {
            return true;
        }
        left = others;
    }
    false
}

fn lead_inside(parts: &[&str]) -> bool
    ensures { result ≡ specs.lead_inside (map (λ part. part.now) parts.now) }
{
    match parts {
        [] => false,
        [first, ..] => *first != RECORDS && !some_leads_out(parts),
    }
}

// The parts with a slash between each two.
fn joined(alloc: Global, parts: &[&str]) -> Result<String, AllocError>
    ensures { IfOk result (λ name.
        string_bytes name ≡ join_with_byte 47 (map (λ part. part.now) parts.now)) }
{
    let mut name = String::new(alloc);
    let mut left = parts;
    while let [part, others @ ..] = left {
        name.push_str(*part)?;
        if !others.is_empty() {
            name.push_str("/")?;
        }
        left = others;
    }
    Ok(name)
}

// The name without its parts `.`. There is none if it has an empty part between slashes or a part
// `..`, or leads to no file inside its folder. The folder of the records, `.stage`, counts as
// outside.
fn inside_name(alloc: Global, name: &str) -> Result<Option<String>, AllocError>
    ensures { IfOk result (λ inside.
        option_map string_bytes inside ≡ specs.inside_name name.now) }
{
    let all = all_parts(alloc, name)?;
    let parts = without_dots(alloc, &all)?;
    if !lead_inside(&parts) {
        return Ok(None);
    }
    let inside = joined(alloc, &parts)?;
    Ok(Some(inside))
}

/// A path in a folder.
pub(crate) fn path_of(alloc: Global, folder: &str, name: &str) -> Result<String, AllocError>
    ensures { IfOk result (λ path.
        string_bytes path ≡ folder.now ++ codes "/" ++ name.now) }
{
    format!(in alloc; "{folder}/{name}")
}

/// The path of a file, whose name may have parts `.`. Returns `Outside`, or `Link` if the name or a
/// folder before it is a symbolic link.
pub(crate) fn path_in<R: Files + AllocGlobal>(
    rt: &R,
    folder: &str,
    name: &str,
) -> Result<String, FolderFault>
    ensures { IfOk result (λ path. IsPathIn folder.now name.now (string_bytes path)) }
{
    let Some(inside) = inside_name(rt.alloc(), name)? else {
        return Err(FolderFault::Outside);
    };
    for part in Path::new(inside.as_str()).ancestors() {
        if is_link(rt, folder, part.as_os_str())? {
            return Err(FolderFault::Link);
        }
    }
    Ok(path_of(rt.alloc(), folder, inside.as_str())?)
}

/// Makes the folder of a file, and those before it, if it isn't there.
pub(crate) fn make_folder_of<R: Files>(rt: &R, path: &str) -> Result<(), FolderFault> {
    let Some(folder) = Path::new(path).parent() else {
        return Ok(());
    };
    match fs::symlink_metadata(rt, folder.as_os_str()) {
        Err(error) if error.kind() == ErrorKind::NotFound => {
            Ok(fs::create_dir_all(rt, folder.as_os_str())?)
        }
        _ => Ok(()),
    }
}

// Whether a name, or a prefix of one, is a symbolic link. The folder itself isn't tested.
fn is_link<R: Files + AllocGlobal>(rt: &R, folder: &str, part: &str) -> Result<bool, FolderFault> {
    if part.is_empty() {
        return Ok(false);
    }
    let path = path_of(rt.alloc(), folder, part)?;
    match fs::symlink_metadata(rt, path.as_str()) {
        Ok(found) => Ok(found.is_symlink()),
        Err(error) if error.kind() == ErrorKind::NotFound => Ok(false),
        Err(error) => Err(FolderFault::from(error)),
    }
}
