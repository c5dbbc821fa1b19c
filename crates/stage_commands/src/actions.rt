//! One action of `stage`, from the folder to the servers.

ghost use Rattle.std.specs.Prelude.{◌≡◌, IfErr, IfOk, OnOk, false, true};
ghost use Rattle.stage_commands.specs.Actions.{HasNoEdits, IsStaged};
ghost use Rattle.stage_commands.specs.Planned.{IsPlanned, IsStagedOrLeft, LeftByAction};
ghost use Rattle.stage_commands.specs.Taken.{IsUnchanged};
ghost use Rattle.stage_servers.specs.Whole as specs;
ghost use Rattle.stage_servers.specs.Whole.{IsSeenWhole};

use crate::changes::change_and_load;
use crate::step_stops::before_change;
use bounded_files::Disk;
use stage_folder::StageFolder;
use stage_records::StageAction;
use stage_servers::{
    Lines, StageCall, StageOptions, StageOutcome, Stop, push_history, push_status,
};
use std::alloc::AllocError;
use std::net::{Net, TcpStream};
use std::rt::Files;
use std::time::Clock;

// Whether an action changes nothing.
fn only_looks(action: &StageAction<'_>) -> bool
    ensures { result ≡ specs.only_looks action.now }
{
    match *action {
        StageAction::Status => true,
        StageAction::History { .. } => true,
        StageAction::Halt { .. } => false,
        StageAction::HaltRelease { .. } => false,
        StageAction::Raise { .. } => false,
        StageAction::Back => false,
        StageAction::Put { .. } => false,
        StageAction::Resume { .. } => false,
    }
}

// Prints the status or the history. Returns whether nothing is amiss.
fn look<R, D, F>(
    call: &StageCall<'_, R, D>,
    folder: &F,
    action: &StageAction<'_>,
    lines: &mut Lines,
) -> Result<bool, Stop>
where
    R: Files + AllocGlobal + Clock + Net<Stream = TcpStream>,
    D: Disk,
    F: StageFolder,
    ensures { IfOk result (λ is_done. is_done ≡ true → IsSeenWhole action.now
        (F.records folder.now) (F.files folder.now)) }
{
    match *action {
        StageAction::Status => push_status(call, folder, lines),
        StageAction::History { appid } => push_history(call, folder, appid, lines),
        StageAction::Halt { .. } => Ok(true),
        StageAction::HaltRelease { .. } => Ok(true),
        StageAction::Raise { .. } => Ok(true),
        StageAction::Back => Ok(true),
        StageAction::Put { .. } => Ok(true),
        StageAction::Resume { .. } => Ok(true),
    }
}

// Prints the status or the history; or changes the files, and has the servers load the manifest.
// Returns whether all is done.
#[tactic(auto, using(crate::proofs::Left::unchanged, crate::proofs::Seen::unseen))]
fn act<R, D, F>(
    call: &StageCall<'_, R, D>,
    folder: &mut F,
    action: &StageAction<'_>,
    lines: &mut Lines,
) -> Result<bool, Stop>
where
    R: Files + AllocGlobal + Clock + Net<Stream = TcpStream>,
    D: Disk,
    F: StageFolder,
    ensures planned { OnOk result (IsPlanned (D.known call.now.disk.now) call.now.manifest.now
        call.now.options.now (F.records folder.old) (F.files folder.old) action.now) }
    ensures done { OnOk result (call.now.options.now.dry_run ≡ false
        → IsStaged (D.known call.now.disk.now) call.now.manifest.now call.now.options.now
        action.now (F.records folder.old) (F.records folder.new) (F.files folder.old)
        (F.files folder.new)) }
    ensures seen { IfOk result (λ is_done. is_done ≡ true → IsSeenWhole action.now
        (F.records folder.old) (F.files folder.old)) }
    ensures unedited { OnOk result (HasNoEdits call.now.options.now action.now
        (F.records folder.old) (F.files folder.old)) }
    ensures stopped { IfErr result (λ stop. LeftByAction (D.known call.now.disk.now)
        call.now.manifest.now call.now.options.now (F.records folder.old) (F.files folder.old)
        action.now stop (F.records folder.new) (F.files folder.new)) }
    ensures looked { specs.only_looks action.now ≡ true → IsUnchanged (F.records folder.old)
        (F.records folder.new) (F.files folder.old) (F.files folder.new) }
    ensures unchanged { call.now.options.now.dry_run ≡ true → IsUnchanged (F.records folder.old)
        (F.records folder.new) (F.files folder.old) (F.files folder.new) }
{
    if only_looks(action) {
        return match look(call, &*folder, action, lines) {
            Ok(is_whole) => Ok(is_whole),
            Err(stop) => Err(before_change(stop)),
        };
    }
    match change_and_load(call, folder, action, lines) {
        Ok(is_done) => Ok(is_done),
        Err(stop) => Err(stop),
    }
}

/// The same as `stage_in`, after these lines.
pub(crate) fn stage_on<R, D, F>(
    rt: &R,
    disk: &D,
    folder: &mut F,
    manifest: &str,
    action: &StageAction<'_>,
    options: &StageOptions<'_>,
    lines: Lines,
) -> Result<StageOutcome, AllocError>
where
    R: Files + AllocGlobal + Clock + Net<Stream = TcpStream>,
    D: Disk,
    F: StageFolder,
    ensures planned { IfOk result (λ outcome. outcome.is_done ≡ true → IsPlanned
        (D.known disk.now) manifest.now options.now (F.records folder.old) (F.files folder.old)
        action.now) }
    ensures done { IfOk result (λ outcome. outcome.is_done ≡ true → options.now.dry_run ≡ false
        → IsStaged (D.known disk.now) manifest.now options.now action.now
        (F.records folder.old) (F.records folder.new) (F.files folder.old) (F.files folder.new)) }
    ensures seen { IfOk result (λ outcome. outcome.is_done ≡ true → IsSeenWhole action.now
        (F.records folder.old) (F.files folder.old)) }
    ensures unedited { IfOk result (λ outcome. outcome.is_done ≡ true → HasNoEdits options.now
        action.now (F.records folder.old) (F.files folder.old)) }
    ensures left { options.now.dry_run ≡ false → IsStagedOrLeft (D.known disk.now) manifest.now
        options.now (F.records folder.old) (F.files folder.old) action.now
        (F.records folder.new) (F.files folder.new) }
    ensures looked { specs.only_looks action.now ≡ true → IsUnchanged (F.records folder.old)
        (F.records folder.new) (F.files folder.old) (F.files folder.new) }
    ensures unchanged { options.now.dry_run ≡ true → IsUnchanged (F.records folder.old)
        (F.records folder.new) (F.files folder.old) (F.files folder.new) }
{
    let call = StageCall {
        rt,
        disk,
        manifest,
        options,
        servers: &[],
    };
    let mut lines = lines;
    match act(&call, folder, action, &mut lines) {
        Ok(is_done) => lines.into_outcome(is_done),
        Err(stop) => lines.into_stopped(stop),
    }
}

/// Does an action in a folder that is opened, and locked unless it only looks; then has the servers
/// load the manifest at this path, which has to be the folder's: no clause requires it. The outcome
/// says what is done, or why not and what to do.
// open: whether an allocation fails, its one error; what is printed, what a server does, and which
// stops there are: bench/outside. After a stop a step may be recorded, and some of its files
// replaced, or restored; `status` names those that aren't as it left them, `back` restores all.
pub fn stage_in<R, D, F>(
    rt: &R,
    disk: &D,
    folder: &mut F,
    manifest: &str,
    action: &StageAction<'_>,
    options: &StageOptions<'_>,
) -> Result<StageOutcome, AllocError>
where
    R: Files + AllocGlobal + Clock + Net<Stream = TcpStream>,
    D: Disk,
    F: StageFolder,
    ensures planned { IfOk result (λ outcome. outcome.is_done ≡ true → IsPlanned
        (D.known disk.now) manifest.now options.now (F.records folder.old) (F.files folder.old)
        action.now) }
    ensures done { IfOk result (λ outcome. outcome.is_done ≡ true → options.now.dry_run ≡ false
        → IsStaged (D.known disk.now) manifest.now options.now action.now
        (F.records folder.old) (F.records folder.new) (F.files folder.old) (F.files folder.new)) }
    ensures seen { IfOk result (λ outcome. outcome.is_done ≡ true → IsSeenWhole action.now
        (F.records folder.old) (F.files folder.old)) }
    ensures unedited { IfOk result (λ outcome. outcome.is_done ≡ true → HasNoEdits options.now
        action.now (F.records folder.old) (F.files folder.old)) }
    ensures left { options.now.dry_run ≡ false → IsStagedOrLeft (D.known disk.now) manifest.now
        options.now (F.records folder.old) (F.files folder.old) action.now
        (F.records folder.new) (F.files folder.new) }
    ensures looked { specs.only_looks action.now ≡ true → IsUnchanged (F.records folder.old)
        (F.records folder.new) (F.files folder.old) (F.files folder.new) }
    ensures unchanged { options.now.dry_run ≡ true → IsUnchanged (F.records folder.old)
        (F.records folder.new) (F.files folder.old) (F.files folder.new) }
{
    stage_on(
        rt,
        disk,
        folder,
        manifest,
        action,
        options,
        Lines::new(rt.alloc()),
    )
}
