//! Files that are named as a program's bytes, and have something else.

use crate::files::print_read_fault;
use bounded_files::{Disk, KeptBytes};
use std::io::Write;
use std::rt::Files;

/// The first bytes of an object file of ELF, as compilers write it.
const OBJECT: &[u8] = b"\x7fELF";

/// Prints why the file of a program can't be read, if it can't; or if it is an object file in ELF,
/// how to make a program of it.
// open: the line, and when there is one: rows.
pub fn print_program_fault<R, D, E>(rt: &R, disk: &D, path: &str, err: &mut E) -> bool
where
    R: Files,
    D: Disk,
    E: Write,
{
    print_read_fault(rt, path, err) || is_object(disk, path) && write_hint(err)
}

fn is_object<D: Disk>(disk: &D, path: &str) -> bool {
    match disk.keep_regular(path, 4) {
        Ok(KeptBytes::Longer { beginning, .. }) => beginning.as_slice() == OBJECT,
        _ => false,
    }
}

fn write_hint<E: Write>(err: &mut E) -> bool {
    let hint = "an ELF object; llvm-objcopy -O binary -j .text IN OUT makes a program of it";
    writeln!(err, "{hint}").is_ok()
}
