//! Files that can't be read or written: the path, and the reason that the system gives.

use printing::Printed;
use std::fs::{self, OpenOptions};
use std::io::{Error, ErrorKind, Write};
use std::path::Path;
use std::rt::Files;

/// Prints why the file at a path can't be read, if it can't. The path `-` is standard input. Only a
/// regular file is opened, since opening a FIFO may wait.
// open: the line, and when there is one: rows.
pub fn print_read_fault<R: Files, E: Write>(rt: &R, path: &str, err: &mut E) -> bool {
    match read_fault(rt, path) {
        Some(error) if path != "-" => print_fault(path, &error, err),
        _ => false,
    }
}

/// Prints why no file can be written at a path, if that shows. What only a write shows, such as a
/// full disk or device, has a line without the system's reason.
// open: the line, and when there is one: rows and `bench/outside`.
pub fn print_write_fault<R: Files, E: Write>(rt: &R, path: &str, err: &mut E) -> bool {
    match write_fault(rt, path) {
        Some(error) => print_fault(path, &error, err),
        None if is_device(rt, path) => print_line(path, "the device takes no more bytes", err),
        None => print_line(
            path,
            "the disk is full, or its folder takes no new file",
            err,
        ),
    }
}

fn print_fault<E: Write>(path: &str, error: &Error, err: &mut E) -> bool {
    let path = Printed(path);
    writeln!(err, "{path}: {error}").is_ok()
}

fn print_line<E: Write>(path: &str, reason: &str, err: &mut E) -> bool {
    let path = Printed(path);
    writeln!(err, "{path}: {reason}").is_ok()
}

// Why a file can't be opened for reading.
fn read_fault<R: Files>(rt: &R, path: &str) -> Option<Error> {
    match fs::metadata(rt, path) {
        Ok(found) if found.is_dir() => Some(Error::from(ErrorKind::IsADirectory)),
        Ok(found) if found.is_file() => fs::open(rt, path).err(),
        Ok(_) => None,
        Err(error) => Some(error),
    }
}

// Why a file can't be opened for writing, or its folder isn't there.
fn write_fault<R: Files>(rt: &R, path: &str) -> Option<Error> {
    match fs::metadata(rt, path) {
        Ok(found) if found.is_dir() => Some(Error::from(ErrorKind::IsADirectory)),
        Ok(found) if found.is_file() => OpenOptions::new().write(true).open(rt, path).err(),
        Ok(_) => None,
        Err(error) if error.kind() == ErrorKind::NotFound => folder_fault(rt, path),
        Err(error) => Some(error),
    }
}

// Whether a path names a file that isn't regular, as a device.
fn is_device<R: Files>(rt: &R, path: &str) -> bool {
    match fs::metadata(rt, path) {
        Ok(found) => !found.is_file(),
        Err(_) => false,
    }
}

// Why the folder of a path can't be found.
fn folder_fault<R: Files>(rt: &R, path: &str) -> Option<Error> {
    let folder = match Path::new(path).parent() {
        Some(folder) if folder.as_str() != "" => folder.as_str(),
        _ => ".",
    };
    fs::metadata(rt, folder).err()
}
