//! The digest of a manifest and of its apps' files: one comparison shows whether a server serves
//! what is in a folder.

ghost use Rattle.std.specs.Prelude.{◌≡◌, ◌++◌, ℕ, List, Some};
ghost use Rattle.std.specs.Option.{IsSome};
ghost use Rattle.bpf_semantics.specs.Program.{ShapedProgram};
ghost use Rattle.sha2.specs.Hashers.{Holds256};
ghost use Rattle.load.specs.Digest as specs;
ghost use Rattle.load.specs.Judged.{AreJudged};
ghost use Rattle.load.specs.JudgedApps.{AreAppPrograms};

use crate::judged::AppProgram;
use crate::kept_file::whole_file;
use crate::sources::AppSources;
use sha2::{Digest, Sha256};

/// SHA-256 (FIPS 180-4) of a manifest's bytes and the bytes of its apps' files, in order. Each
/// piece follows its length in 8 bytes, high byte first. None if not all bytes of some file are
/// kept.
pub fn digest_of(manifest: &[u8], apps: &[AppSources]) -> Option<[u8; 32]>
    ensures digest { result ≡ specs.digest_of manifest.now apps.now }
    // If each app has its program, all bytes of each file are kept, so there is a digest.
    ensures judged { (programs : List ShapedProgram) → AreJudged apps.now programs
        → IsSome result }
{
    let mut hasher = Sha256::new();
    add_piece(&mut hasher, manifest);
    let mut left = apps;
    while let [app, others @ ..] = left {
        match whole_file(&app.kept) {
            Some(bytes) => add_piece(&mut hasher, bytes),
            None => return None,
        }
        left = others;
    }
    Some(hasher.finalize())
}

/// The digest of a manifest and of apps with these programs; it always exists.
pub(crate) fn judged_digest(
    manifest: &[u8],
    apps: &[AppSources],
    programs: &[AppProgram],
) -> [u8; 32]
    requires { AreAppPrograms apps.now programs.now }
    ensures { specs.digest_of manifest.now apps.now ≡ Some result }
{
    let _judged = programs;
    match digest_of(manifest, apps) {
        Some(digest) => digest,
        None => unreachable!(),
    }
}

// Adds a piece to the message.
fn add_piece(hasher: &mut Sha256, piece: &[u8])
    ensures { (message : List ℕ) → Holds256 hasher.old message
        → Holds256 hasher.new (message ++ specs.framed piece.now) }
{
    hasher.update((piece.len() as u64).to_be_bytes());
    hasher.update(piece);
}
