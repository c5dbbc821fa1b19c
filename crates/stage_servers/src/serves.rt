//! What a server serves, by the records of the folder's steps.

ghost use Rattle.std.specs.Prelude.{IfOk, IfSome, Some};
ghost use Rattle.stage_servers.specs.Drift.{IsServedBy};

use crate::earlier_files::{collected_as, files_left};
use crate::options::StageCall;
use bounded_files::Disk;
use printing::TextBuffer;
use stage_records::{ReplacedFile, StagingStep};
use std::alloc::{AllocError, Global};

/// What a server serves, compared with the steps of the folder.
#[derive(Drop)]
pub enum Serves {
    /// What is in place.
    InPlace,
    /// What a step left, with this digest; step 0 is before the first one. `later` steps are done
    /// after it, and these are the files of the steps that aren't undone, with the bytes that they
    /// then had.
    Step {
        number: u32,
        later: usize,
        files: Vec<ReplacedFile>,
        digest: [u8; 32],
    },
    /// What `stage` loaded there last, and no step is known to have left.
    LastLoaded,
    /// Something else, from this time and path. If it has an app that is neither in place nor in
    /// the next manifest, it is another server. If the manifest in place can't be gathered, each
    /// of its apps counts as such.
    Other {
        loaded: String,
        strange: Option<String>,
    },
    /// Nobody knows: no server replies, or an older one.
    Unknown,
}

/// The server at an operator's port.
#[derive(Drop)]
pub struct Surveyed {
    pub port: u16,
    /// The digest that it replied; None if no reply could be read.
    pub digest: Option<[u8; 32]>,
    pub serves: Serves,
    /// The apps that it halts by its own word.
    pub halted: Vec<String>,
}

impl Surveyed {
    /// Whether it halts an app by its own word.
    pub(crate) fn halts(&self, appid: &str) -> bool {
        for halted in &self.halted {
            if halted.as_str() == appid {
                return true;
            }
        }
        false
    }
}

/// Adds the apps that a server halts by its own word, if there are any.
pub(crate) fn push_halted(text: &mut TextBuffer, appids: &[String]) {
    let mut mark = ", halted: ";
    for halted in appids {
        text.push_printed(mark, halted.as_str(), "");
        mark = ", ";
    }
}

/// The server at a port, among these.
pub(crate) fn server_at(servers: &[Surveyed], port: u16) -> Option<&Surveyed> {
    for server in servers {
        if server.port == port {
            return Some(server);
        }
    }
    None
}

// ---- steps

// How many steps after the first `count` are done.
fn done_after(steps: &[StagingStep], count: usize) -> usize {
    let Some((_before, later)) = steps.split_at_checked(count) else {
        return 0;
    };
    later.iter().filter(|step| !step.is_undone).count()
}

// The number of the last of the first `count` steps, if that is done; 0 for none.
fn number_of(steps: &[StagingStep], count: usize) -> Option<u32> {
    let Some(last) = count.checked_sub(1) else {
        return Some(0);
    };
    match steps.get(last) {
        Some(step) if !step.is_undone => Some(step.number),
        _ => None,
    }
}

// What the first `count` steps left, if that has this digest.
fn left_by<D: Disk>(
    alloc: Global,
    disk: &D,
    manifest: &str,
    steps: &[StagingStep],
    count: usize,
    digest: [u8; 32],
) -> Result<Option<Serves>, AllocError>
    ensures { IfOk result (λ found. IfSome found
        (IsServedBy (D.known disk.now) manifest.now (Some digest))) }
{
    let Some(number) = number_of(steps, count) else {
        return Ok(None);
    };
    let files = files_left(alloc, steps, count, count)?;
    match collected_as(alloc, disk, manifest, &files, digest) {
        Some(collected) => {
            drop(collected);
            Ok(Some(Serves::Step {
                number,
                later: done_after(steps, count),
                files,
                digest,
            }))
        }
        None => {
            drop(files);
            Ok(None)
        }
    }
}

/// The last step that left what has this digest, or what was there before the first one.
pub(crate) fn step_with<R, D>(
    call: &StageCall<'_, R, D>,
    steps: &[StagingStep],
    digest: [u8; 32],
) -> Result<Option<Serves>, AllocError>
where
    R: AllocGlobal,
    D: Disk,
    ensures { IfOk result (λ found. IfSome found
        (IsServedBy (D.known call.now.disk.now) call.now.manifest.now (Some digest))) }
{
    let (alloc, disk) = (call.rt.alloc(), call.disk);
    for fewer in 0..steps.len() {
        let count = steps.len() - fewer;
        if let Some(found) = left_by(alloc, disk, call.manifest, steps, count, digest)? {
            return Ok(Some(found));
        }
    }
    left_by(alloc, disk, call.manifest, steps, 0, digest)
}
