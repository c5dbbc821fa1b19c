//! One call at a time is at work in a folder. The others say which one, by a note next to the
//! records.

// No contract says what is printed or noted: bench/outside tests it.

use crate::step_stops::at_work;
use printing::TextBuffer;
use stage_folder::{FolderFault, FolderNote, StageFolder, process_number};
use stage_records::StageAction;
use stage_servers::{StageOptions, Stop, in_folder};
use stage_text::{now_of, time_of};
use std::alloc::{AllocError, Global};
use std::time::{Clock, Duration};
use std::{str, thread};

/// How often a halt tries to lock the folder, and the time between two tries: ten seconds in all.
const LOCK_TRIES: u32 = 100;

const LOCK_MILLIS: u64 = 100;

// How often an action tries to lock the folder. A status and a history only look.
fn tries_of(action: &StageAction<'_>) -> u32 {
    match *action {
        StageAction::Status | StageAction::History { .. } => 0,
        StageAction::Halt { .. } | StageAction::HaltRelease { .. } => LOCK_TRIES,
        _ => 1,
    }
}

// Locks the folder, with this number of tries.
fn lock_in<R, F>(rt: &R, folder: &mut F, tries: u32) -> Result<(), FolderFault>
where
    R: Clock,
    F: StageFolder,
{
    for _ in 1..tries {
        match folder.lock() {
            Err(FolderFault::Locked) => thread::sleep(rt, Duration::from_millis(LOCK_MILLIS)),
            locked => return locked,
        }
    }
    if tries == 0 {
        return Ok(());
    }
    folder.lock()
}

/// Locks the folder for an action, or stops if another call is at work in it. A halt waits up to
/// ten seconds for the other call.
pub(crate) fn lock_for<R, F>(
    rt: &R,
    folder: &mut F,
    action: &StageAction<'_>,
    options: &StageOptions<'_>,
) -> Result<(), Stop>
where
    R: AllocGlobal + Clock,
    F: StageFolder,
{
    let alloc = rt.alloc();
    match lock_in(rt, folder, tries_of(action)) {
        Ok(()) => Ok(()),
        Err(FolderFault::Locked) => match holder_of(alloc, &*folder) {
            Ok(holder) => Err(at_work(alloc, options.folder, holder.as_str())),
            Err(_) => Err(Stop::Memory),
        },
        Err(fault) => Err(in_folder(alloc, options.folder, fault)),
    }
}

// ---- the note

// Which call is at work in the folder, by its note; empty if there is none.
fn holder_of<F: StageFolder>(alloc: Global, folder: &F) -> Result<String, AllocError> {
    match folder.read_note(FolderNote::AtWork) {
        Ok(Some(bytes)) => {
            let text = str::from_utf8(&bytes).unwrap_or("");
            String::from_str(alloc, text.trim_end())
        }
        _ => Ok(String::new(alloc)),
    }
}

// Adds the words of an action.
fn push_words(text: &mut TextBuffer, action: &StageAction<'_>) {
    match *action {
        StageAction::Halt { appid } => text.push_printed("halt ", appid, ""),
        StageAction::HaltRelease { appid, version } => {
            text.push_printed("halt ", appid, "");
            text.push_printed(" ", version, "");
        }
        StageAction::Raise { appid, .. } => text.push_printed("raise ", appid, ""),
        StageAction::Resume { appid, .. } => text.push_printed("resume ", appid, ""),
        StageAction::Back => text.push("back"),
        StageAction::Put { manifest } => text.push_printed("put ", manifest, ""),
        StageAction::Status => text.push("status"),
        StageAction::History { .. } => text.push("history"),
    }
}

// The note of an action: its words, its user if one is known, its process, and the present time.
fn note_of<R>(rt: &R, action: &StageAction<'_>, user: Option<&str>) -> Result<String, AllocError>
where
    R: AllocGlobal + Clock,
{
    let since = time_of(rt.alloc(), now_of(rt))?;
    let mut text = TextBuffer::new(rt.alloc());
    push_words(&mut text, action);
    if let Some(user) = user {
        text.push_printed(" by ", user, "");
    }
    text.push_number(", pid ", process_number() as u64, ", since ");
    text.push(since.as_str());
    drop(since);
    text.finish()
}

/// Notes that an action is at work in the folder. If the note can't be written, others don't know
/// which call it is, or name one that crashed.
pub(crate) fn note_work<R, F>(
    rt: &R,
    folder: &F,
    action: &StageAction<'_>,
    options: &StageOptions<'_>,
)
where
    R: AllocGlobal + Clock,
    F: StageFolder,
{
    if tries_of(action) == 0 {
        return;
    }
    if let Ok(note) = note_of(rt, action, options.user) {
        let _noted = folder.write_note(FolderNote::AtWork, note.as_bytes());
    }
}

/// Empties the note, once an action has ended.
pub(crate) fn end_work<F: StageFolder>(folder: &F, action: &StageAction<'_>) {
    if tries_of(action) == 0 {
        return;
    }
    let _noted = folder.write_note(FolderNote::AtWork, b"");
}
