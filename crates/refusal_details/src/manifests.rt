//! Manifests that are refused.

use crate::files::print_read_fault;
use bounded_files::Disk;
use manifest::{AppEntry, MOST_MANIFEST, Manifest, read_manifest};
use printing::Printed;
use std::alloc::Global;
use std::io::Write;
use std::path::Path;
use std::rt::Files;

/// Prints why a manifest, or the first such file of its apps, can't be read, if one can't.
// open: the line, and when there is one: rows.
pub fn print_unread_manifest<R, D, E>(rt: &R, disk: &D, path: &str, err: &mut E) -> bool
where
    R: Files + AllocGlobal,
    D: Disk,
    E: Write,
{
    if print_read_fault(rt, path, err) {
        return true;
    }
    let Some(manifest) = manifest_at(rt.alloc(), disk, path) else {
        return false;
    };
    let printed = print_unread_file(rt, path, manifest.apps(), err);
    drop(manifest);
    printed
}

/// Prints which command says why a manifest is refused.
// open: the line: rows.
pub fn print_check_hint<E: Write>(path: &str, err: &mut E) -> bool {
    let path = Printed(path);
    writeln!(err, "rollout check {path} prints the place and the reason").is_ok()
}

/// Prints how to find out why a server refuses to load the manifest at a path, by the words of its
/// refusal. Only the server's log has the cause of M7. A server reads a relative path in its own
/// folder, and every file as its own user.
// open: the line, and when there is one: rows and `bench/outside`.
pub fn print_load_hint<R, D, E>(rt: &R, disk: &D, refusal: &str, path: &str, err: &mut E) -> bool
where
    R: Files + AllocGlobal,
    D: Disk,
    E: Write,
{
    if refusal.starts_with("M7") {
        return writeln!(
            err,
            "the arrays don't fit the server's: its log has the cause"
        )
        .is_ok();
    }
    if !path.starts_with('/') {
        let path = Printed(path);
        let line = "in its own folder: give it the whole path";
        return writeln!(err, "the server reads {path} {line}").is_ok();
    }
    if print_unread_manifest(rt, disk, path, err) {
        return true;
    }
    if refusal.starts_with("B3") || refusal.starts_with("M4") {
        return writeln!(err, "the server's user can't read what this one can").is_ok();
    }
    print_check_hint(path, err)
}

/// Prints the cause that a log has of a manifest's refusal; without one, which command says why.
// open: the line: rows.
pub fn print_cause<E: Write>(cause: Option<&str>, path: &str, err: &mut E) -> bool {
    let Some(cause) = cause else {
        return print_check_hint(path, err);
    };
    let cause = Printed(cause);
    writeln!(err, "{cause}").is_ok()
}

/// The manifest at a path, if it is one.
pub fn manifest_at<D: Disk>(alloc: Global, disk: &D, path: &str) -> Option<Manifest> {
    let Ok(Some(bytes)) = disk.read_regular(path, MOST_MANIFEST as u32) else {
        return None;
    };
    read_manifest(alloc, bytes.as_slice()).ok()
}

fn print_unread_file<R, E>(rt: &R, manifest: &str, apps: &[AppEntry], err: &mut E) -> bool
where
    R: Files + AllocGlobal,
    E: Write,
{
    for app in apps {
        let name = app.source().file();
        let Ok(path) = Path::new(manifest).with_file_name(rt.alloc(), name) else {
            return false;
        };
        if print_read_fault(rt, path.as_str(), err) {
            return true;
        }
    }
    false
}
