//! The lines that `check` adds to those of `why_refused_manifest`: a manifest's path, `ok`, its
//! digest, and its refusal. No clause says the words of the first and the last; rows compare them.

ghost use Rattle.std.specs.Prelude.{OnOk};
ghost use Rattle.printing.specs.Pushed.{Puts};
ghost use Rattle.cli_manifests.specs.Checks as specs;

use crate::manifest_tool_fault::ManifestToolFault;
use printing::Printed;
use std::alloc::AllocError;
use std::fmt::Write;
use warnings::{Warning, some_counts};

/// Adds the line `ok`, unless there is a warning that isn't allowed.
pub(crate) fn push_ok(
    text: &mut String,
    allowed: &[&str],
    warnings: &[Warning],
) -> Result<(), AllocError>
    ensures { OnOk result (Puts text.old text.new (specs.ok_line allowed.now warnings.now)) }
{
    if some_counts(warnings, allowed) {
        return Ok(());
    }
    text.push_str("ok\n")
}

/// Adds the line `digest ..` of a manifest and of its files, with the 64 lower-case hexadecimal
/// digits of `digest_of` of `load`.
// open: whether an allocation fails, its only error.
pub fn push_digest(text: &mut String, digest: [u8; 32]) -> Result<(), AllocError>
    ensures { OnOk result (Puts text.old text.new (specs.digest_line digest)) }
{
    let digest = hex::encode(*text.allocator(), digest)?;
    writeln!(text, "digest {digest}")
}

/// Adds lines under the line `manifest PATH`, if there are any.
pub(crate) fn push_titled(text: &mut String, path: &str, lines: &str) -> Result<(), AllocError> {
    if lines.is_empty() {
        return Ok(());
    }
    let path = Printed(path);
    write!(text, "manifest {path}\n{lines}")
}

/// Adds the line of a refusal under that line, followed by where and why.
pub(crate) fn push_refusal(
    text: &mut String,
    path: &str,
    fault: &ManifestToolFault,
) -> Result<(), AllocError> {
    let path = Printed(path);
    writeln!(text, "manifest {path}\nrefused {fault}")?;
    match fault {
        ManifestToolFault::Diagnosed(refused) => text.push_str(refused.reason.as_str()),
        _ => Ok(()),
    }
}
