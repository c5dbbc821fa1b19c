//! The recorded steps, if all records can be read.

ghost use Rattle.std.specs.Prelude.{◌≡◌, [], IfOk, None};
ghost use Rattle.stage_servers.specs.Whole.{AreAllRead};

use crate::outcome::Stop;
use crate::refusals::{RECORDS, in_folder};
use stage_folder::{FolderFault, RecordedSteps, StageFolder, recorded_steps};
use std::alloc::Global;

/// The recorded steps, in the order of their numbers. A record that isn't a step's is a refusal.
#[tactic(auto, using(crate::proofs::Whole::all_read))]
pub fn read_steps<F: StageFolder>(alloc: Global, folder: &F) -> Result<RecordedSteps, Stop>
    ensures { IfOk result (AreAllRead (F.records folder.now)) }
{
    let recorded = match recorded_steps(alloc, folder) {
        Ok(recorded) => recorded,
        Err(fault) => return Err(in_folder(alloc, RECORDS, fault)),
    };
    match first_of(&recorded.unread) {
        None => Ok(recorded),
        Some(number) => {
            drop(recorded);
            Err(in_folder(alloc, RECORDS, FolderFault::NoRecord(number)))
        }
    }
}

fn first_of(numbers: &[u32]) -> Option<u32>
    ensures { result ≡ None → numbers.now ≡ [] }
{
    match numbers {
        [] => None,
        [number, ..] => Some(*number),
    }
}
