//! The halted apps that an action may have the servers offer again, and those that the files then
//! offer.

ghost use Rattle.std.specs.Prelude.{◌≡◌, ◌∷◌, [], IfOk, filter, map, string_bytes};
ghost use Rattle.stage_rules.specs.InForce as force;
ghost use Rattle.stage_servers.specs.Halted.{AreHaltedIf, AreHaltedIn, AreInForceUnder};
ghost use Rattle.stage_servers.specs.Halted.{MayEndHalts};

use crate::gathered::collected_now;
use crate::halt_advice::push_unread;
use crate::halts_in_force::halts_in_force;
use crate::options::StageCall;
use crate::outcome::{Lines, Stop};
use crate::recorded::read_steps;
use crate::refusals::refusal;
use bounded_files::Disk;
use load::{AppSources, CollectedManifest};
use printing::TextBuffer;
use stage_folder::StageFolder;
use stage_records::{StageAction, StagingStep};
use stage_rules::{may_offer, push_app, surely_offers};
use std::alloc::{AllocError, Global};

// The apps whose halts by these steps are in force under the manifest in place. None if that can't
// be gathered, since then nobody knows which halts earlier puts have lifted.
fn halted_under(
    alloc: Global,
    steps: &[StagingStep],
    present: &Option<CollectedManifest>,
) -> Result<Vec<String>, Stop>
    ensures { IfOk result (λ named.
        AreInForceUnder steps.now present.now (map string_bytes named.items)) }
{
    match present {
        Some(present) => match halts_in_force(alloc, steps, &present.sources.apps) {
            Ok(named) => Ok(named),
            Err(_) => Err(Stop::Memory),
        },
        None => no_app(alloc),
    }
}

// The same of all recorded steps.
#[tactic(auto, using(crate::proofs::Halted::are_halted))]
fn halted_in<R, D, F>(call: &StageCall<'_, R, D>, folder: &F) -> Result<Vec<String>, Stop>
where
    R: AllocGlobal,
    D: Disk,
    F: StageFolder,
    ensures { IfOk result (λ named. AreHaltedIn (D.known call.now.disk.now)
        call.now.manifest.now (F.records folder.now) (map string_bytes named.items)) }
{
    let alloc = call.rt.alloc();
    let recorded = match read_steps(alloc, folder) {
        Ok(recorded) => recorded,
        Err(stop) => return Err(stop),
    };
    let present = match collected_now(alloc, call.disk, call.manifest) {
        Ok(present) => present,
        Err(stop) => {
            drop(recorded);
            return Err(stop);
        }
    };
    let named = halted_under(alloc, &recorded.steps, &present);
    drop(present);
    drop(recorded);
    match named {
        Ok(named) => Ok(named),
        Err(stop) => Err(stop),
    }
}

// The same; none without `--anyway`, since a put and `back` then lift no halt: but for a `back` of
// a step that isn't a halt, if a manifest can't be gathered.
fn halted_if<R, D, F>(
    call: &StageCall<'_, R, D>,
    folder: &F,
    anyway: bool,
) -> Result<Vec<String>, Stop>
where
    R: AllocGlobal,
    D: Disk,
    F: StageFolder,
    ensures { IfOk result (λ named. AreHaltedIf anyway (D.known call.now.disk.now)
        call.now.manifest.now (F.records folder.now) (map string_bytes named.items)) }
{
    match anyway {
        true => halted_in(call, folder),
        false => no_app(call.rt.alloc()),
    }
}

fn one_app(alloc: Global, appid: &str) -> Result<Vec<String>, Stop>
    ensures { IfOk result (λ named. map string_bytes named.items ≡ appid.now ∷ []) }
{
    let mut named = Vec::new(alloc);
    push_app(alloc, &mut named, appid)?;
    Ok(named)
}

fn no_app(alloc: Global) -> Result<Vec<String>, Stop>
    ensures { IfOk result (λ named. map string_bytes named.items ≡ []) }
{
    Ok(Vec::new(alloc))
}

/// The apps that an action may have the servers offer again. It stops only if the records can't be
/// read, or an allocation fails.
// open: that it stops only then.
pub fn apps_halted<R, D, F>(
    call: &StageCall<'_, R, D>,
    folder: &F,
    action: &StageAction<'_>,
) -> Result<Vec<String>, Stop>
where
    R: AllocGlobal,
    D: Disk,
    F: StageFolder,
    ensures { IfOk result (λ named. MayEndHalts action.now call.now.options.now.anyway
        (D.known call.now.disk.now) call.now.manifest.now (F.records folder.now)
        (map string_bytes named.items)) }
{
    let alloc = call.rt.alloc();
    match *action {
        StageAction::Put { .. } => halted_if(call, folder, call.options.anyway),
        StageAction::Back => halted_if(call, folder, call.options.anyway),
        StageAction::Resume { appid, .. } => one_app(alloc, appid),
        StageAction::Halt { .. } => no_app(alloc),
        StageAction::HaltRelease { .. } => no_app(alloc),
        StageAction::Raise { .. } => no_app(alloc),
        StageAction::Status => no_app(alloc),
        StageAction::History { .. } => no_app(alloc),
    }
}

// Those of these apps that a manifest surely offers.
fn offered_among(apps: &[AppSources], appids: Vec<String>) -> Vec<String>
    ensures { result.items
        ≡ filter (λ appid. force.surely_offers apps.now (string_bytes appid)) appids.items }
{
    let mut offered = appids;
    offered.retain(|appid| surely_offers(apps, appid.as_str()));
    offered
}

// Those of these apps that a manifest may offer, but not surely: their files can't be read.
fn unread_among(
    alloc: Global,
    apps: &[AppSources],
    appids: &[String],
) -> Result<Vec<String>, AllocError> {
    let mut unread = Vec::new(alloc);
    for appid in appids {
        if may_offer(apps, appid.as_str()) && !surely_offers(apps, appid.as_str()) {
            push_app(alloc, &mut unread, appid.as_str())?;
        }
    }
    Ok(unread)
}

// Notes that nobody knows whether these apps are offered now, and what to do.
fn note_unread(alloc: Global, appids: &[String], lines: &mut Lines) {
    let mut text = TextBuffer::new(alloc);
    push_unread(&mut text, appids);
    lines.note_amiss(refusal(text));
}

// Notes the same of those of these apps whose files can't be read.
fn note_if_unread(alloc: Global, apps: &[AppSources], appids: &[String], lines: &mut Lines) {
    match unread_among(alloc, apps, appids) {
        Ok(unread) => {
            if !unread.is_empty() {
                note_unread(alloc, &unread, lines);
            }
        }
        Err(_) => lines.note_amiss(Stop::Memory),
    }
}

/// Those of these apps that the manifest in place surely offers, once the files are changed; none
/// for `--dry-run`. If it can't be gathered, or the file of one of these apps can't be read, this
/// is noted as amiss, with what to call. So is memory that ran out, alone.
// open: which apps these are, and what is noted: rows.
pub fn apps_lifted<R, D>(
    call: &StageCall<'_, R, D>,
    before: Vec<String>,
    lines: &mut Lines,
) -> Vec<String>
where
    R: AllocGlobal,
    D: Disk,
{
    let alloc = call.rt.alloc();
    if before.is_empty() {
        return before;
    }
    if call.options.dry_run {
        drop(before);
        return Vec::new(alloc);
    }
    match collected_now(alloc, call.disk, call.manifest) {
        Ok(Some(present)) => {
            note_if_unread(alloc, &present.sources.apps, &before, lines);
            let lifted = offered_among(&present.sources.apps, before);
            drop(present);
            lifted
        }
        Ok(None) => {
            note_unread(alloc, &before, lines);
            drop(before);
            Vec::new(alloc)
        }
        Err(stop) => {
            lines.note_amiss(stop);
            drop(before);
            Vec::new(alloc)
        }
    }
}
