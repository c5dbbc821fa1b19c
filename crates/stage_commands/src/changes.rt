//! An action that changes files: what is found before, the change, and the servers' loads.

ghost use Rattle.std.specs.Prelude.{◌≡◌, IfErr, OnOk, false, true};
ghost use Rattle.stage_commands.specs.Actions.{HasNoEdits, IsStaged};
ghost use Rattle.stage_commands.specs.Planned.{IsPlanned, LeftByAction, LeftByPlan};
ghost use Rattle.stage_commands.specs.Taken.{IsUnchanged};

use crate::app_halts::halt;
use crate::backs::go_back;
use crate::puts::put;
use crate::raises::raise;
use crate::release_halts::halt_release;
use crate::resumes::resume;
use crate::step_stops::before_change;
use bounded_files::Disk;
use stage_folder::StageFolder;
use stage_records::StageAction;
use stage_servers::{
    Lines, StageCall, Stop, Surveyed, apps_halted, apps_lifted, load_all, stop_if_drifted,
    stop_if_edited, survey,
};
use std::net::{Net, TcpStream};
use std::rt::Files;
use std::time::Clock;

// Changes the files as the action says. A status and a history change nothing.
fn change_files<R, D, F>(
    call: &StageCall<'_, R, D>,
    folder: &mut F,
    action: &StageAction<'_>,
    lines: &mut Lines,
) -> Result<(), Stop>
where
    R: Files + AllocGlobal + Clock + Net<Stream = TcpStream>,
    D: Disk,
    F: StageFolder,
    ensures planned { OnOk result (IsPlanned (D.known call.now.disk.now) call.now.manifest.now
        call.now.options.now (F.records folder.old) (F.files folder.old) action.now) }
    ensures done { OnOk result (call.now.options.now.dry_run ≡ false
        → IsStaged (D.known call.now.disk.now) call.now.manifest.now call.now.options.now
        action.now (F.records folder.old) (F.records folder.new) (F.files folder.old)
        (F.files folder.new)) }
    ensures stopped { IfErr result (λ stop. LeftByPlan (D.known call.now.disk.now)
        call.now.manifest.now call.now.options.now (F.records folder.old) (F.files folder.old)
        action.now stop (F.records folder.new) (F.files folder.new)) }
    ensures unchanged { call.now.options.now.dry_run ≡ true → IsUnchanged (F.records folder.old)
        (F.records folder.new) (F.files folder.old) (F.files folder.new) }
{
    match *action {
        StageAction::Halt { appid } => halt(call, folder, appid, lines),
        StageAction::HaltRelease { appid, version } => {
            halt_release(call, folder, appid, version, lines)
        }
        StageAction::Raise { appid, buckets } => raise(call, folder, appid, buckets, lines),
        StageAction::Back => go_back(call, folder, lines),
        StageAction::Put { manifest } => put(call, folder, manifest, lines),
        StageAction::Resume { appid, buckets } => resume(call, folder, appid, buckets, lines),
        StageAction::Status => Ok(()),
        StageAction::History { .. } => Ok(()),
    }
}

// What is found before a file is changed: what each server serves, and which apps are halted.
#[derive(Drop)]
struct Found {
    servers: Vec<Surveyed>,
    halted: Vec<String>,
}

// The same; or why the action stops, by what a server serves, or by a file that was edited since.
#[tactic(auto, using(crate::proofs::Seen::unedited))]
fn found_before<R, D, F>(
    call: &StageCall<'_, R, D>,
    folder: &F,
    action: &StageAction<'_>,
    lines: &mut Lines,
) -> Result<Found, Stop>
where
    R: AllocGlobal + Net<Stream = TcpStream>,
    D: Disk,
    F: StageFolder,
    ensures { OnOk result (HasNoEdits call.now.options.now action.now
        (F.records folder.now) (F.files folder.now)) }
{
    let Ok(servers) = survey(call, folder, action) else {
        return Err(Stop::Memory);
    };
    if let Err(stop) = stop_if_drifted(call, &servers, action, lines) {
        drop(servers);
        return Err(stop);
    }
    if let Err(stop) = stop_if_edited(call, folder, &servers, action, lines) {
        drop(servers);
        return Err(stop);
    }
    match apps_halted(call, folder, action) {
        Ok(halted) => Ok(Found { servers, halted }),
        Err(stop) => {
            drop(servers);
            Err(stop)
        }
    }
}

/// Changes the files, and has the servers load the manifest. Returns whether all is done.
#[tactic(auto, using(crate::proofs::Left::unchanged))]
pub(crate) fn change_and_load<R, D, F>(
    call: &StageCall<'_, R, D>,
    folder: &mut F,
    action: &StageAction<'_>,
    lines: &mut Lines,
) -> Result<bool, Stop>
where
    R: Files + AllocGlobal + Clock + Net<Stream = TcpStream>,
    D: Disk,
    F: StageFolder,
    ensures planned { OnOk result (IsPlanned (D.known call.now.disk.now) call.now.manifest.now
        call.now.options.now (F.records folder.old) (F.files folder.old) action.now) }
    ensures done { OnOk result (call.now.options.now.dry_run ≡ false
        → IsStaged (D.known call.now.disk.now) call.now.manifest.now call.now.options.now
        action.now (F.records folder.old) (F.records folder.new) (F.files folder.old)
        (F.files folder.new)) }
    ensures unedited { OnOk result (HasNoEdits call.now.options.now action.now
        (F.records folder.old) (F.files folder.old)) }
    ensures stopped { IfErr result (λ stop. LeftByAction (D.known call.now.disk.now)
        call.now.manifest.now call.now.options.now (F.records folder.old) (F.files folder.old)
        action.now stop (F.records folder.new) (F.files folder.new)) }
    ensures unchanged { call.now.options.now.dry_run ≡ true → IsUnchanged (F.records folder.old)
        (F.records folder.new) (F.files folder.old) (F.files folder.new) }
{
    let Found { servers, halted } = match found_before(call, &*folder, action, lines) {
        Ok(found) => found,
        Err(stop) => return Err(before_change(stop)),
    };
    let call = StageCall {
        rt: call.rt,
        disk: call.disk,
        manifest: call.manifest,
        options: call.options,
        servers: &servers,
    };
    match change_files(&call, folder, action, lines) {
        Ok(()) => {
            let lifted = apps_lifted(&call, halted, lines);
            let are_loaded = load_all(&call, &*folder, action, &lifted, lines);
            Ok(are_loaded && !lines.is_amiss())
        }
        Err(stop) => Err(stop),
    }
}
