//! Files of a device that are written, and read up to a limit.

use crate::files::{has_mode, has_text, set_mode, shown};
use bounded_files::{FileFault, Links, may_write_over, read_file, write_file};
use std::fs;
use std::io::{self, ErrorKind};
use std::os::unix::fs::symlink;
use std::test::Fail;

fn write(rt: &HostRuntime, path: &str, bytes: &[u8]) -> io::Result<()> {
    match write_file(rt, path, bytes) {
        Ok(_) => Ok(()),
        Err(_) => Err(io::Error::from(ErrorKind::InvalidData)),
    }
}

/// Writes a file with a mode, replaces it by a link to it, and writes to a device.
fn write_by_link(rt: &HostRuntime) -> io::Result<()> {
    fs::create_dir(rt, "place")?;
    write(rt, "place/new", b"1")?;
    set_mode(rt, "place/new", 0o640)?;
    symlink(rt, "place/new", "link")?;
    write(rt, "link", b"two")?;
    write(rt, "/dev/null", b"3")
}

/// Whether it is where its link leads, has its mode, and left no other file there.
fn is_rewritten(rt: &HostRuntime) -> io::Result<bool> {
    Ok(
        has_mode(rt, "place/new", 0o640)?
            && has_text(rt, "place/new", "two")?
            && fs::read_dir(rt, "place")?.count() == 1,
    )
}

#[test]
fn written(rt: HostRuntime) -> Result<(), Fail> {
    write_by_link(&rt)?;
    shown(is_rewritten(&rt)?, "a file is rewritten in its place")
}

/// Bytes that a file has, and whether a picture may overwrite it.
const OVERWRITTEN: &[(&str, bool)] = &[
    ("", true),
    ("<svg>", true),
    ("<sv", false),
    ("server", false),
];

/// Whether a picture may overwrite a file of these bytes.
fn may_overwrite(rt: &HostRuntime, bytes: &str) -> io::Result<bool> {
    write(rt, "over", bytes.as_bytes())?;
    Ok(may_write_over(rt, "over", b"<svg"))
}

#[test]
fn written_over(rt: HostRuntime) -> Result<(), Fail> {
    for (bytes, may) in OVERWRITTEN {
        shown(may_overwrite(&rt, *bytes)? == *may, *bytes)?;
    }
    let may_others = may_write_over(&rt, "/dev/null", b"<svg")
        && may_write_over(&rt, "no", b"<svg");
    shown(may_others, "a device and a new file")
}

/// A path, the most bytes, and what reading it gives if no link is followed.
const READ: &[(&str, u32, &str)] = &[
    ("four", 4, "read"),
    ("four", 3, "too long"),
    ("to-four", 4, "a link"),
    ("folder", 4, "not regular"),
    ("no", 4, "missing"),
    ("four/no", 4, "unreadable"),
];

/// What reading a path gives.
fn read_by(rt: &HostRuntime, path: &str, most: u32) -> &'static str {
    match read_file(rt, path, Links::Refused, most) {
        Ok(Some(_)) => "read",
        Ok(None) => "missing",
        Err(FileFault::Link) => "a link",
        Err(FileFault::NotRegular) => "not regular",
        Err(FileFault::TooLong) => "too long",
        Err(FileFault::System(_)) => "unreadable",
    }
}

#[test]
fn read_to_a_limit(rt: HostRuntime) -> Result<(), Fail> {
    write(&rt, "four", b"four")?;
    symlink(&rt, "four", "to-four")?;
    fs::create_dir(&rt, "folder")?;
    for (path, most, read) in READ {
        shown(read_by(&rt, *path, *most) == *read, *path)?;
    }
    Ok(())
}
