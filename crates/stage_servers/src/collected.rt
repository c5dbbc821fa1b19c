//! Manifests, gathered with their files, without a server.

ghost use Rattle.std.specs.Prelude.{◌≡◌, IfOk, option_copied};
ghost use Rattle.load.specs.Opened.{IsCollected};
ghost use Rattle.stage_servers.specs.Apps as specs;

use crate::outcome::Stop;
use crate::refusals::no_manifest;
use bounded_files::Disk;
use load::{AppSources, CollectedManifest, collect_manifest, digest_of};
use std::alloc::{AllocError, Global};

/// Gathers the manifest at a path. If it can't be gathered, the command stops with a refusal.
pub fn collected_at<D: Disk>(alloc: Global, disk: &D, path: &str) -> Result<CollectedManifest, Stop>
    ensures { IfOk result (IsCollected (D.known disk.now) path.now) }
{
    match collect_manifest(alloc, disk, path) {
        Ok(collected) => Ok(collected),
        Err(fault) => Err(no_manifest(alloc, path, fault)),
    }
}

/// The digest of a manifest and its files, in hexadecimal digits; empty if a file isn't whole.
pub(crate) fn digest_text(
    alloc: Global,
    collected: &CollectedManifest,
) -> Result<String, AllocError> {
    match digest_of(&collected.bytes, &collected.sources.apps) {
        Some(digest) => hex::encode(alloc, digest),
        None => Ok(String::new(alloc)),
    }
}

/// The app with this appid.
pub fn app_named<'a>(apps: &'a [AppSources], appid: &str) -> Option<&'a AppSources>
    ensures { option_copied result ≡ specs.app_named apps.now appid.now }
{
    let mut left = apps;
    while let [app, others @ ..] = left {
        if app.entry.appid() == appid {
            return Some(app);
        }
        left = others;
    }
    None
}
