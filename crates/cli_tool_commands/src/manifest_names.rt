//! The arrays and the apps of a manifest, printed if its words name others.

use bounded_files::Disk;
use declarations::ArrayDeclaration;
use manifest::AppEntry;
use printing::Printed;
use refusal_details::manifest_at;
use std::alloc::Global;
use std::io::{self, Write};

/// Prints the arrays of the manifest at a path, in the form of `--arrays`, if it is one.
// open: the line: rows.
pub(crate) fn print_arrays<D, E>(alloc: Global, disk: &D, path: &str, err: &mut E) -> bool
where
    D: Disk,
    E: Write,
{
    let Some(manifest) = manifest_at(alloc, disk, path) else {
        return false;
    };
    let printed = write_arrays(path, manifest.arrays(), err).is_ok();
    drop(manifest);
    printed
}

/// Prints the appids of the manifest at a path, if it is one.
// open: the line: rows.
pub(crate) fn print_app_names<D, E>(alloc: Global, disk: &D, path: &str, err: &mut E) -> bool
where
    D: Disk,
    E: Write,
{
    let Some(manifest) = manifest_at(alloc, disk, path) else {
        return false;
    };
    let printed = write_app_names(path, manifest.apps(), err).is_ok();
    drop(manifest);
    printed
}

fn write_arrays<E: Write>(path: &str, arrays: &[ArrayDeclaration], err: &mut E) -> io::Result<()> {
    let path = Printed(path);
    write!(err, "arrays of {path}:")?;
    let mut mark = " ";
    for array in arrays {
        write!(err, "{mark}{array}")?;
        mark = ", ";
    }
    err.write_all(b"\n")
}

fn write_app_names<E: Write>(path: &str, apps: &[AppEntry], err: &mut E) -> io::Result<()> {
    let path = Printed(path);
    write!(err, "apps of {path}:")?;
    let mut mark = " ";
    for app in apps {
        let appid = Printed(app.appid());
        write!(err, "{mark}{appid}")?;
        mark = ", ";
    }
    err.write_all(b"\n")
}
