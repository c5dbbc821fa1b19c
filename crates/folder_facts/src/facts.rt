//! What a folder says.

ghost use Rattle.std.specs.Prelude.{◌≡◌, ◌++◌, [], IfOk};
ghost use Rattle.folder_facts.specs.Shown.{AreAppsShown, IsShown};

use crate::apps::{ShownApps, shown_apps};
use crate::left::LeftDigests;
use crate::steps::{ShownSteps, shown_steps};
use crate::unread::{no_folder, no_manifest};
use bounded_files::Disk;
use load::collect_manifest;
use report_page::{FolderDigests, FolderFacts};
use stage_folder::{DeviceFolder, StageFolder};
use std::alloc::{AllocError, Global};
use std::fs::File;
use std::rt::Files;

// The apps of the manifest at a path.
fn apps_at<D: Disk>(alloc: Global, disk: &D, path: &str) -> Result<ShownApps, AllocError>
    ensures { IfOk result (λ shown. shown.unread.items ≡ []
        → AreAppsShown (D.known disk.now) path.now shown.apps.items shown.digest) }
{
    match collect_manifest(alloc, disk, path) {
        Ok(collected) => {
            let shown = shown_apps(alloc, &collected);
            drop(collected);
            shown
        }
        Err(fault) => {
            let sentence = no_manifest(alloc, path, &fault);
            drop(fault);
            let unread = Vec::from_array(alloc, [sentence?])?;
            Ok(ShownApps {
                apps: Vec::new(alloc),
                digest: None,
                unread,
            })
        }
    }
}

// The sentences of both lists.
fn joined(mut unread: Vec<String>, more: Vec<String>) -> Result<Vec<String>, AllocError>
    ensures { IfOk result (λ all. all.items ≡ unread.items ++ more.items) }
{
    for sentence in more {
        unread.push(sentence)?;
    }
    Ok(unread)
}

/// What a folder says: what each app of the manifest at this path is offered, the last 20 steps,
/// and the digests of what is in place and of what these found and left. What can't be read is
/// left out, and named among `unread`.
// open: whether an allocation fails; the texts, which quotas there are, what a step shows besides
// its number, and what is shown if something can't be read: rows.
pub fn facts_in<D: Disk, F: StageFolder>(
    alloc: Global,
    disk: &D,
    folder: &F,
    manifest: &str,
) -> Result<FolderFacts, AllocError>
    ensures { IfOk result (λ facts. facts.unread.items ≡ []
        → IsShown (D.known disk.now) manifest.now (F.records folder.now) facts) }
{
    let ShownApps {
        apps,
        digest: in_place,
        unread,
    } = apps_at(alloc, disk, manifest)?;
    let ShownSteps {
        steps,
        earlier,
        left: LeftDigests {
            digests: left,
            since,
        },
        unread: records,
    } = shown_steps(alloc, disk, folder, manifest)?;
    let unread = joined(unread, records)?;
    Ok(FolderFacts {
        apps,
        steps,
        earlier_steps: earlier,
        digests: FolderDigests {
            in_place,
            left,
            since,
        },
        unread,
    })
}

/// The same of the folder at a path, whose manifest is its `current.toml`.
// open: whether an allocation fails, and what the folder has: rows.
pub fn folder_facts<R, D>(rt: &R, disk: &D, folder: &str) -> Result<FolderFacts, AllocError>
where
    R: Files<File = File> + AllocGlobal,
    D: Disk,
{
    let alloc = rt.alloc();
    match DeviceFolder::open(rt, folder) {
        Ok(opened) => {
            let manifest = format!(in alloc; "{}/current.toml", opened.path())?;
            facts_in(alloc, disk, &opened, manifest.as_str())
        }
        Err(fault) => {
            let sentence = no_folder(alloc, folder, fault)?;
            Ok(FolderFacts {
                apps: Vec::new(alloc),
                steps: Vec::new(alloc),
                earlier_steps: 0,
                digests: FolderDigests {
                    in_place: None,
                    left: Vec::new(alloc),
                    since: None,
                },
                unread: Vec::from_array(alloc, [sentence])?,
            })
        }
    }
}
