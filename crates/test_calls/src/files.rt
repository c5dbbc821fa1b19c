//! The modes of files, and their texts; and the failure of a test.

use std::os::unix::fs::PermissionsExt;
use std::test::Fail;
use std::{fs, io};

/// Gives a file this mode.
pub(crate) fn set_mode(rt: &HostRuntime, path: &str, mode: u32) -> io::Result<()> {
    let mut permissions = fs::metadata(rt, path)?.permissions();
    permissions.set_mode(mode);
    fs::set_permissions(rt, path, permissions)
}

/// Whether a path itself, and not what it leads to, has this mode.
pub(crate) fn has_mode(rt: &HostRuntime, path: &str, mode: u32) -> io::Result<bool> {
    Ok(fs::symlink_metadata(rt, path)?.permissions().mode() & 0o7777 == mode)
}

/// Whether a file has this text.
pub(crate) fn has_text(rt: &HostRuntime, path: &str, text: &str) -> io::Result<bool> {
    Ok(fs::read_to_string(rt, path)?.as_str() == text)
}

/// Fails with what isn't shown.
pub(crate) fn shown(is_shown: bool, what: &'static str) -> Result<(), Fail> {
    if is_shown {
        return Ok(());
    }
    Err(Fail::new(what))
}
