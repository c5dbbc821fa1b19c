//! The digest of a manifest that is gathered with its files.

ghost use Rattle.std.specs.Prelude.{IfOk, IfSome};
ghost use Rattle.folder_facts.specs.Digests.{IsDigestOf};

use load::{CollectedManifest, digest_of, whole_file};
use std::alloc::{AllocError, Global};

/// The digest in hexadecimal digits; `None` if a file isn't whole.
#[tactic(auto, using(crate::proofs::LeftDigests::digest_shown))]
pub(crate) fn digest_text(
    alloc: Global,
    collected: &CollectedManifest,
) -> Result<Option<String>, AllocError>
    ensures { IfOk result (λ found. IfSome found (IsDigestOf collected.now)) }
{
    match digest_of(&collected.bytes, &collected.sources.apps) {
        Some(digest) => Ok(Some(hex::encode(alloc, digest)?)),
        None => Ok(None),
    }
}

/// How many bytes the manifest and its files have.
pub(crate) fn gathered_bytes(collected: &CollectedManifest) -> u64 {
    let mut bytes = collected.bytes.len() as u64;
    for app in collected.sources.apps.as_slice() {
        if let Some(file) = whole_file(&app.kept) {
            bytes = bytes.saturating_add(file.len() as u64);
        }
    }
    bytes
}
