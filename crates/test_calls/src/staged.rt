//! A folder of the device for `stage`: which modes its files have, that one process at a time is
//! at work, and which names are refused.

use crate::files::{has_mode, has_text, set_mode, shown};
use stage_folder::{DeviceFolder, FolderFault, StageFolder};
use std::alloc::{AllocError, Global};
use std::os::unix::fs::symlink;
use std::test::Fail;
use std::{fs, io};

/// A folder `staged` with a file and a folder, and a file outside; and links to both.
fn make_place(rt: &HostRuntime) -> io::Result<()> {
    fs::create_dir(rt, "staged")?;
    fs::create_dir(rt, "staged/folder")?;
    fs::write(rt, "staged/a", b"1")?;
    set_mode(rt, "staged/a", 0o640)?;
    fs::write(rt, "outside", b"4")?;
    symlink(rt, "../outside", "staged/link")?;
    symlink(rt, "folder", "staged/through")
}

/// Whether the folder refuses another process.
fn is_locked(rt: &HostRuntime) -> bool {
    match DeviceFolder::open(rt, "staged") {
        Ok(mut folder) => matches!(folder.lock(), Err(FolderFault::Locked)),
        Err(_) => false,
    }
}

fn change_locked<F: StageFolder>(folder: &mut F) -> Result<(), FolderFault> {
    folder.lock()?;
    folder.put("a", Some(b"new"))?;
    folder.put_record(1, b"{}")
}

/// Replaces a file, and makes a record. Returns whether another process is refused meanwhile.
fn change(rt: &HostRuntime) -> Result<bool, FolderFault> {
    let mut folder = DeviceFolder::open(rt, "staged")?;
    let changed = change_locked(&mut folder);
    let locked = is_locked(rt);
    drop(folder);
    changed?;
    Ok(locked)
}

const OUTSIDE: &str =
    "the name has .. in it, or leads out of the folder: give the file a name inside it";

const LINK: &str = "there is a symbolic link on the way: put the file itself there";

const FOLDER: &str = "it is no regular file: put one there, or give another name";

/// A name, and what reading and writing it in this order gives.
const NAMES: &[(&str, &str)] = &[
    ("a", "read, put"),
    ("./a", "read, put"),
    ("new", "none, put"),
    ("folder/new", "none, put"),
    ("nowhere/new", "none, put"),
    ("folder/./new", "read, put"),
    ("a/b", "not a directory"),
    ("folder", FOLDER),
    ("", OUTSIDE),
    ("a/", OUTSIDE),
    ("through/./new", LINK),
    (".", OUTSIDE),
    ("./", OUTSIDE),
    ("./.stage/1.json", OUTSIDE),
    ("through//new", OUTSIDE),
    ("folder/..", OUTSIDE),
    ("folder/../a", OUTSIDE),
    ("../outside", OUTSIDE),
    ("/etc/passwd", OUTSIDE),
    (".stage/1.json", OUTSIDE),
    ("link", LINK),
    ("through/new", LINK),
];

/// What reading a name gives.
fn read_text<F: StageFolder>(alloc: Global, folder: &F, name: &str) -> Result<String, AllocError> {
    match folder.read(name) {
        Ok(Some(_)) => String::from_str(alloc, "read"),
        Ok(None) => String::from_str(alloc, "none"),
        Err(fault) => format!(in alloc; "{fault}"),
    }
}

/// What reading a name gives, and then putting bytes there.
fn read_and_put<F: StageFolder>(
    alloc: Global,
    folder: &mut F,
    name: &str,
) -> Result<String, AllocError> {
    let mut text = read_text(alloc, folder, name)?;
    if folder.put(name, Some(b"new")).is_ok() {
        text.push_str(", put")?;
    }
    Ok(text)
}

/// Whether reading a name and then putting bytes there gives this.
fn has_result<F: StageFolder>(
    alloc: Global,
    folder: &mut F,
    name: &str,
    want: &str,
) -> Result<bool, AllocError> {
    let text = read_and_put(alloc, folder, name)?;
    Ok(text.as_str() == want)
}

/// The first name that gives something else, if there is one.
fn wrong_name<F: StageFolder>(
    alloc: Global,
    folder: &mut F,
) -> Result<Option<&'static str>, AllocError> {
    for (name, want) in NAMES {
        if !has_result(alloc, folder, *name, *want)? {
            return Ok(Some(*name));
        }
    }
    Ok(None)
}

/// Fails with the first name that gives something else.
fn have_results(rt: &HostRuntime) -> Result<(), Fail> {
    let Ok(mut folder) = DeviceFolder::open(rt, "staged") else {
        return Err(Fail::new("no folder"));
    };
    let wrong = wrong_name(rt.alloc(), &mut folder);
    drop(folder);
    match wrong? {
        Some(name) => Err(Fail::new(name)),
        None => Ok(()),
    }
}

/// A file or the folder of records, and its mode.
const MODES: &[(&str, u32)] = &[
    ("staged/a", 0o640),
    ("staged/.stage", 0o700),
    ("staged/.stage/1.json", 0o600),
];

/// Fails with the first file that has another mode.
fn have_modes(rt: &HostRuntime) -> Result<(), Fail> {
    for (path, mode) in MODES {
        shown(has_mode(rt, *path, *mode)?, *path)?;
    }
    Ok(())
}

#[test]
fn on_a_device(rt: HostRuntime) -> Result<(), Fail> {
    make_place(&rt)?;
    let is_locked_meanwhile = matches!(change(&rt), Ok(true));
    shown(
        is_locked_meanwhile && !is_locked(&rt),
        "one process at a time",
    )?;
    have_modes(&rt)?;
    have_results(&rt)?;
    shown(
        has_text(&rt, "outside", "4")?,
        "the file outside is unchanged",
    )
}
