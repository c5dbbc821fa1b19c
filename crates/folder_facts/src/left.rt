//! The digests of what the last steps of a folder found and left, by the records.

ghost use Rattle.std.specs.Prelude.{ℕ, List, IfOk, OnOk};
ghost use Rattle.bounded_files.specs.Files.{KnownFiles};
ghost use Rattle.folder_facts.specs.Digests.{AreLeft};
ghost use Rattle.stage_records.specs.Steps.{StagingStep};

use crate::digest::{digest_text, gathered_bytes};
use bounded_files::Disk;
use stage_records::StagingStep;
use stage_servers::{collected_with, files_left};
use std::alloc::{AllocError, Global};

/// How many steps are followed at most.
pub(crate) const MOST_STEPS: usize = 20;

/// How many bytes are gathered before no further step is followed.
const MOST_BYTES: u64 = 1 << 20;

/// A folder's manifest, and its steps, by whose records its files are known.
#[derive(Drop)]
pub(crate) struct Recorded<'a, D> {
    pub disk: &'a D,
    pub manifest: &'a str,
    pub steps: &'a [StagingStep],
}

/// The steps that are followed: how many there are before them, and when the first was taken.
#[derive(Clone, Copy)]
struct Followed {
    earlier: usize,
    since: Option<u64>,
}

/// The digests of what steps found and left, and since when.
#[derive(Drop)]
pub(crate) struct LeftDigests {
    pub digests: Vec<String>,
    pub since: Option<u64>,
}

// Adds the digest of what the first `count` steps left; those from the place `first` on count as
// done. Returns how many bytes were gathered; `None` if something can't be read.
fn push_left<D: Disk>(
    alloc: Global,
    recorded: &Recorded<'_, D>,
    first: usize,
    count: usize,
    digests: &mut Vec<String>,
) -> Result<Option<u64>, AllocError>
    ensures { AreLeft (D.known recorded.now.disk.now) recorded.now.manifest.now
        recorded.now.steps.now digests.old.items
        → OnOk result (AreLeft (D.known recorded.now.disk.now) recorded.now.manifest.now
        recorded.now.steps.now digests.new.items) }
{
    let files = files_left(alloc, recorded.steps, first, count)?;
    let Some(collected) = collected_with(alloc, recorded.disk, recorded.manifest, &files) else {
        return Ok(None);
    };
    drop(files);
    let bytes = gathered_bytes(&collected);
    let digest = digest_text(alloc, &collected);
    drop(collected);
    match digest? {
        Some(digest) => {
            digests.push(digest)?;
            Ok(Some(bytes))
        }
        None => Ok(None),
    }
}

// How many of the last of these steps are undone.
fn undone_at_end(steps: &[StagingStep]) -> usize {
    let mut number: usize = 0;
    for step in steps.iter().rev() {
        if !step.is_undone {
            return number;
        }
        number = number.saturating_add(1);
    }
    number
}

// Adds what the last of the first `count` steps left. If it is undone, which of the undone steps
// right before it were in force then isn't known: each place from which on they may have been is
// taken.
fn push_step<D: Disk>(
    alloc: Global,
    recorded: &Recorded<'_, D>,
    count: usize,
    digests: &mut Vec<String>,
) -> Result<Option<u64>, AllocError>
    ensures { AreLeft (D.known recorded.now.disk.now) recorded.now.manifest.now
        recorded.now.steps.now digests.old.items
        → OnOk result (AreLeft (D.known recorded.now.disk.now) recorded.now.manifest.now
        recorded.now.steps.now digests.new.items) }
{
    let undone = match recorded.steps.get(..count) {
        Some(steps) => undone_at_end(steps),
        None => 0,
    };
    if undone == 0 {
        return push_left(alloc, recorded, count, count, digests);
    }
    let mut bytes: u64 = 0;
    for first in count.saturating_sub(undone.min(MOST_STEPS))..count {
        match push_left(alloc, recorded, first, count, digests)? {
            Some(more) => bytes = bytes.saturating_add(more),
            None => return Ok(None),
        }
    }
    Ok(Some(bytes))
}

// Follows the steps, the newest first: at most 20, until 1 MiB was gathered, or something can't be
// read.
fn follow<D: Disk>(
    alloc: Global,
    recorded: &Recorded<'_, D>,
    digests: &mut Vec<String>,
) -> Result<Followed, AllocError>
    ensures { AreLeft (D.known recorded.now.disk.now) recorded.now.manifest.now
        recorded.now.steps.now digests.old.items
        → OnOk result (AreLeft (D.known recorded.now.disk.now) recorded.now.manifest.now
        recorded.now.steps.now digests.new.items) }
{
    let mut bytes: u64 = 0;
    let mut followed = followed_from(recorded.steps, recorded.steps.len());
    for fewer in 0..recorded.steps.len().min(MOST_STEPS) {
        if bytes > MOST_BYTES {
            return Ok(followed);
        }
        let count = recorded.steps.len().saturating_sub(fewer);
        let Some(more) = push_step(alloc, recorded, count, digests)? else {
            return Ok(followed);
        };
        bytes = bytes.saturating_add(more);
        followed = followed_from(recorded.steps, count.saturating_sub(1));
    }
    Ok(followed)
}

// The steps after the first `earlier` are followed.
fn followed_from(steps: &[StagingStep], earlier: usize) -> Followed {
    let since = match steps.get(earlier) {
        Some(step) => Some(step.time),
        None => None,
    };
    Followed { earlier, since }
}

// Adds what the first of the steps that are followed found.
fn push_found<D: Disk>(
    alloc: Global,
    recorded: &Recorded<'_, D>,
    followed: Followed,
    digests: &mut Vec<String>,
) -> Result<(), AllocError>
    ensures { AreLeft (D.known recorded.now.disk.now) recorded.now.manifest.now
        recorded.now.steps.now digests.old.items
        → OnOk result (AreLeft (D.known recorded.now.disk.now) recorded.now.manifest.now
        recorded.now.steps.now digests.new.items) }
{
    if followed.since.is_some() {
        push_left(alloc, recorded, followed.earlier, followed.earlier, digests)?;
    }
    Ok(())
}

/// No digests, by which no load is judged.
pub(crate) fn no_digests(alloc: Global) -> LeftDigests
    ensures { (known : KnownFiles) (path : List ℕ) (steps : List StagingStep)
        → AreLeft known path steps result.digests.items }
{
    LeftDigests {
        digests: Vec::new(alloc),
        since: None,
    }
}

/// The digests of what the last steps found and left.
// open: which of the steps these are, and whether each has its own: rows.
pub(crate) fn left_digests<D: Disk>(
    alloc: Global,
    recorded: &Recorded<'_, D>,
) -> Result<LeftDigests, AllocError>
    ensures { IfOk result (λ left. AreLeft (D.known recorded.now.disk.now)
        recorded.now.manifest.now recorded.now.steps.now left.digests.items) }
{
    let mut digests = Vec::new(alloc);
    let followed = follow(alloc, recorded, &mut digests)?;
    push_found(alloc, recorded, followed, &mut digests)?;
    Ok(LeftDigests {
        digests,
        since: followed.since,
    })
}
