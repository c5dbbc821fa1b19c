//! Each server loads the manifest in place.

// No contract says what is printed or noted: bench/outside tests it.

use crate::halt_advice::{push_refused, push_unloaded};
use crate::halt_ends::{offer_others_at, resume_at};
use crate::load_notes::read_notes;
use crate::options::StageCall;
use crate::outcome::Lines;
use crate::server_loads::{Loaded, load_noted};
use crate::serves::server_at;
use crate::spared_servers::is_spared;
use bounded_files::Disk;
use load::{CollectedManifest, collect_manifest};
use printing::TextBuffer;
use stage_folder::{FolderNote, StageFolder};
use stage_records::StageAction;
use std::alloc::AllocError;
use std::net::{Net, TcpStream};

// Whether the server at a port is left without a load, with a line that says why.
fn is_left_out<R, D, F>(
    call: &StageCall<'_, R, D>,
    folder: &F,
    port: u16,
    collected: Option<&CollectedManifest>,
    action: &StageAction<'_>,
    lines: &mut Lines,
) -> bool
where
    F: StageFolder,
{
    match server_at(call.servers, port) {
        Some(server) => is_spared(call, folder, server, action, collected, lines),
        None => false,
    }
}

// What became of the loads: the ports of the servers of which no reply says that they loaded, each
// after a space; whether a server was left without a load; and whether the others offer again what
// they were to offer.
#[derive(Drop)]
struct Loads {
    refused: String,
    has_left_out: bool,
    are_resumed: bool,
}

// Has a server that loaded the manifest offer these apps again; or the other releases of an app of
// which one is halted. Returns whether it does.
fn offered_at<R>(
    rt: &R,
    port: u16,
    loaded: &Loaded,
    action: &StageAction<'_>,
    lifted: &[String],
    lines: &mut Lines,
) -> bool
where
    R: AllocGlobal + Net<Stream = TcpStream>,
{
    match *action {
        StageAction::HaltRelease { appid, .. } => offer_others_at(rt, port, appid, lines),
        _ => resume_at(rt, port, loaded.halted.as_deref(), lifted, lines),
    }
}

// Whether each server loaded the manifest.
fn is_complete(loads: &Loads) -> bool {
    loads.refused.is_empty() && !loads.has_left_out
}

// Adds that an app may stay halted if a halt of one release isn't loaded.
fn push_stays(stderr: &mut TextBuffer, action: &StageAction<'_>) {
    if let StageAction::HaltRelease { appid, version } = *action {
        stderr.push_printed("stage: ", appid, " may stay halted there: mend that, ");
        stderr.push_printed("call stage halt ", appid, " ");
        stderr.push_printed("", version, " again, and then ");
        stderr.push_printed("rollout resume ", appid, "\n");
    }
}

// Has each server load the manifest, notes the loads, and then has it offer these apps again. If
// the notes can't be written, a status and the next action don't know of these loads.
fn load_each<R, D, F>(
    call: &StageCall<'_, R, D>,
    folder: &F,
    collected: Option<&CollectedManifest>,
    action: &StageAction<'_>,
    lifted: &[String],
    lines: &mut Lines,
) -> Result<Loads, AllocError>
where
    R: AllocGlobal + Net<Stream = TcpStream>,
    F: StageFolder,
{
    let Ok(mut notes) = read_notes(call.rt.alloc(), folder) else {
        return Err(AllocError);
    };
    let mut refused = TextBuffer::new(call.rt.alloc());
    let (mut has_left_out, mut are_resumed) = (false, true);
    for port in call.options.ports() {
        if is_left_out(call, folder, *port, collected, action, lines) {
            has_left_out = true;
        } else if let Some(loaded) = load_noted(call, *port, collected, &mut notes, lines) {
            are_resumed = offered_at(call.rt, *port, &loaded, action, lifted, lines) && are_resumed;
        } else {
            refused.push_number(" ", *port as u64, "");
        }
    }
    if !notes.is_empty() {
        let _noted = folder.write_note(FolderNote::Loads, notes.as_bytes());
    }
    let refused = refused.finish()?;
    Ok(Loads {
        refused,
        has_left_out,
        are_resumed,
    })
}

/// Has each server load the manifest, whatever the others do, but for one that is spared, and then
/// offer these apps again, whose halts are lifted. Returns whether all did, or none is to load. For
/// `--no-load` it says what to call, if a halt is lifted. For `--dry-run` no app is to be given.
// open: what a server does, and what is printed or noted: bench/outside.
pub fn load_all<R, D, F>(
    call: &StageCall<'_, R, D>,
    folder: &F,
    action: &StageAction<'_>,
    lifted: &[String],
    lines: &mut Lines,
) -> bool
where
    R: AllocGlobal + Net<Stream = TcpStream>,
    D: Disk,
    F: StageFolder,
{
    if call.options.no_load || call.options.dry_run {
        push_unloaded(&mut lines.stderr, lifted);
        return true;
    }
    let collected = collect_manifest(call.rt.alloc(), call.disk, call.manifest).ok();
    let each = load_each(call, folder, collected.as_ref(), action, lifted, lines);
    drop(collected);
    match each {
        Ok(loads) if is_complete(&loads) => loads.are_resumed,
        Ok(loads) => {
            push_refused(
                &mut lines.stderr,
                loads.refused.as_str(),
                call.manifest,
                lifted,
            );
            push_stays(&mut lines.stderr, action);
            false
        }
        Err(_) => {
            lines.stderr.leave_out();
            false
        }
    }
}
