//! What a folder has, for a comparison with what servers serve.

ghost use Rattle.std.specs.Prelude.{◌≡◌, IfOk, IfSome, true};
ghost use Rattle.load.specs.Opened.{IsCollected};
ghost use Rattle.stage_servers.specs.Served.{IsGatheredAs};

use crate::load_notes::read_notes;
use crate::options::StageCall;
use bounded_files::Disk;
use load::{AppSources, CollectedManifest, collect_manifest, digest_of};
use stage_folder::{RecordedSteps, StageFolder, recorded_steps};
use stage_records::{StageAction, StagingStep};
use std::alloc::AllocError;

/// What a folder has, for a comparison with what servers serve.
#[derive(Drop)]
pub(crate) struct Place {
    recorded: Option<RecordedSteps>,
    /// The notes of the last loads.
    pub(crate) notes: String,
    /// The manifest in place, if it can be gathered.
    pub(crate) present: Option<CollectedManifest>,
    /// The manifest that an action is to put in place, if it can be gathered.
    pub(crate) next: Option<CollectedManifest>,
}

impl Place {
    /// The recorded steps; none if they can't be read.
    pub(crate) fn steps(&self) -> &[StagingStep] {
        match &self.recorded {
            Some(recorded) => recorded.steps.as_slice(),
            None => &[],
        }
    }
}

/// Whether what is in place has this digest.
pub(crate) fn is_in_place(place: &Place, digest: [u8; 32]) -> bool
    ensures { result ≡ true → IsGatheredAs digest place.now.present }
{
    let Some(present) = &place.present else {
        return false;
    };
    match digest_of(&present.bytes, &present.sources.apps) {
        Some(found) => found == digest,
        None => false,
    }
}

/// The apps of a manifest; none if it couldn't be gathered.
pub(crate) fn apps_of(collected: &Option<CollectedManifest>) -> &[AppSources] {
    match collected {
        Some(collected) => collected.sources.apps.as_slice(),
        None => &[],
    }
}

// The manifest that an action is to put in place, if it can be gathered.
fn next_manifest<R, D>(
    call: &StageCall<'_, R, D>,
    action: &StageAction<'_>,
) -> Option<CollectedManifest>
where
    R: AllocGlobal,
    D: Disk,
{
    match *action {
        StageAction::Put { manifest } => {
            collect_manifest(call.rt.alloc(), call.disk, manifest).ok()
        }
        _ => None,
    }
}

/// What a folder has, before an action.
pub(crate) fn place_of<R, D, F>(
    call: &StageCall<'_, R, D>,
    folder: &F,
    action: &StageAction<'_>,
) -> Result<Place, AllocError>
where
    R: AllocGlobal,
    D: Disk,
    F: StageFolder,
    ensures { IfOk result (λ place. IfSome place.present
        (IsCollected (D.known call.now.disk.now) call.now.manifest.now)) }
{
    let alloc = call.rt.alloc();
    let Ok(notes) = read_notes(alloc, folder) else {
        return Err(AllocError);
    };
    let recorded = recorded_steps(alloc, folder).ok();
    let present = collect_manifest(alloc, call.disk, call.manifest).ok();
    let next = next_manifest(call, action);
    Ok(Place {
        recorded,
        notes,
        present,
        next,
    })
}
