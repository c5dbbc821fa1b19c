//! Opening the folder of an action of `stage`. A halt is sent to the servers first, and once more
//! when the folder is locked, or couldn't be.

use crate::actions::stage_on;
use crate::locking::{end_work, lock_for, note_work};
use bounded_files::Disk;
use stage_folder::{DeviceFolder, StageFolder};
use stage_records::StageAction;
use stage_servers::{Lines, StageOptions, StageOutcome, halt_again, halt_at_servers, in_folder};
use std::alloc::{AllocError, Global};
use std::fs::File;
use std::net::{Net, TcpStream};
use std::rt::Files;
use std::time::Clock;

// The path of the manifest in a folder.
fn manifest_in(alloc: Global, folder: &str) -> Result<String, AllocError> {
    format!(in alloc; "{folder}/current.toml")
}

// Does an action in a folder that is open, and not locked yet, after these lines.
fn stage_opened<R, D, F>(
    rt: &R,
    disk: &D,
    folder: &mut F,
    action: &StageAction<'_>,
    options: &StageOptions<'_>,
    lines: Lines,
) -> Result<StageOutcome, AllocError>
where
    R: Files + AllocGlobal + Clock + Net<Stream = TcpStream>,
    D: Disk,
    F: StageFolder,
{
    let locked = lock_for(rt, folder, action, options);
    halt_again(rt, action, &lines);
    if let Err(stop) = locked {
        return lines.into_stopped(stop);
    }
    let Ok(manifest) = manifest_in(rt.alloc(), folder.path()) else {
        drop(lines);
        return Err(AllocError);
    };
    note_work(rt, &*folder, action, options);
    let outcome = stage_on(rt, disk, folder, manifest.as_str(), action, options, lines);
    end_work(&*folder, action);
    outcome
}

/// Does an action in the folder of the options, and has the servers load its `current.toml`. All
/// but a status and a history stop if another call is at work there. A halt is sent to the servers
/// first, before any file is read.
// open: whether an allocation fails, its one error; what is done in a device's folder. By reading
// it does what `stage_in` does.
pub fn stage<R, D>(
    rt: &R,
    disk: &D,
    action: &StageAction<'_>,
    options: &StageOptions<'_>,
) -> Result<StageOutcome, AllocError>
where
    R: Files<File = File> + AllocGlobal + Clock + Net<Stream = TcpStream>,
    D: Disk,
{
    let mut lines = Lines::new(rt.alloc());
    halt_at_servers(rt, action, options, &mut lines);
    match DeviceFolder::open(rt, options.folder) {
        Ok(mut folder) => stage_opened(rt, disk, &mut folder, action, options, lines),
        Err(fault) => lines.into_stopped(in_folder(rt.alloc(), options.folder, fault)),
    }
}
