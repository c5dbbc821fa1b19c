//! `stage status`: what each app offers, what the servers serve, and the last steps.

// No contract says what is printed: rows compare it, and bench/outside with servers.

ghost use Rattle.std.specs.Prelude.{◌≡◌, All, IfOk, true};
ghost use Rattle.stage_folder.specs.Recorded.{AreRecorded};
ghost use Rattle.stage_servers.specs.Served.{AreServed};
ghost use Rattle.stage_servers.specs.Whole.{AreAsLeft, IsAsLeft, IsWhole};

use crate::app_status::{Standing, push_apps};
use crate::collected::collected_at;
use crate::history::{are_none, push_steps, push_unread};
use crate::log_digest::push_log;
use crate::options::StageCall;
use crate::outcome::{Lines, Stop};
use crate::refusals::RECORDS;
use crate::servers::push_servers;
use bounded_files::Disk;
use printing::TextBuffer;
use stage_folder::{FolderFault, RecordedSteps, StageFolder, recorded_steps, state_in};
use stage_records::{FileState, ReplacedFile, StagingStep, last_step};
use stage_text::now_of;
use std::alloc::Global;
use std::io::ErrorKind;
use std::net::{Net, TcpStream};
use std::rt::Files;
use std::time::Clock;

/// How many steps a status has.
const LAST_STEPS: usize = 3;

/// What follows the number of a step whose file is as it found it.
const NOT_REPLACED: &str = " isn't replaced yet, or is restored already: call stage back\n";

/// What follows the number of a step whose file is neither as it found it nor as it left it.
const EDITED: &str = " was edited since: stage back would stop there\n";

// Adds a file that isn't as a step left it, and why.
fn push_unlike(number: u32, name: &str, end: &str, stderr: &mut TextBuffer) {
    stderr.push_printed("stage: ", name, "");
    stderr.push_number(" of step ", number as u64, end);
}

// Adds a file that can't be read, and why.
fn push_unread_file(number: u32, name: &str, fault: FolderFault, stderr: &mut TextBuffer) {
    push_unlike(number, name, ": ", stderr);
    stderr.push_value(&fault);
    stderr.push("\n");
}

// Adds a file that isn't as a step left it, or can't be read. Returns whether it is as the step
// left it.
#[tactic(auto, using(crate::proofs::Whole::as_left))]
fn push_state<F: StageFolder>(
    folder: &F,
    number: u32,
    file: &ReplacedFile,
    stderr: &mut TextBuffer,
) -> bool
    ensures { result ≡ true → IsAsLeft (F.files folder.now) file.now }
{
    let name = file.name.as_str();
    let state = match state_in(folder, file) {
        Ok(state) => state,
        Err(fault) => {
            push_unread_file(number, name, fault, stderr);
            return false;
        }
    };
    match state {
        FileState::After => true,
        FileState::Before => {
            push_unlike(number, name, NOT_REPLACED, stderr);
            false
        }
        FileState::Edited => {
            push_unlike(number, name, EDITED, stderr);
            false
        }
    }
}

// The same of each of these files of a step.
#[tactic(auto, using(crate::proofs::Whole::both_left))]
fn push_states<F: StageFolder>(
    folder: &F,
    number: u32,
    files: &[ReplacedFile],
    stderr: &mut TextBuffer,
) -> bool
    ensures { result ≡ true → All (IsAsLeft (F.files folder.now)) files.now }
{
    let [file, others @ ..] = files else {
        return true;
    };
    let is_left = push_state(folder, number, file, stderr);
    let are_left = push_states(folder, number, others, stderr);
    is_left && are_left
}

// The same of the last of these steps.
#[tactic(auto, using(crate::proofs::Whole::last_left, crate::proofs::Whole::none_left))]
fn push_last<F: StageFolder>(folder: &F, steps: &[StagingStep], stderr: &mut TextBuffer) -> bool
    ensures { result ≡ true → AreAsLeft (F.files folder.now) steps.now }
{
    match last_step(steps) {
        Some(step) => push_states(folder, step.number, &step.files, stderr),
        None => true,
    }
}

// Whether the servers serve what is in place, by what is known of them, and by a log, if one is
// named: it is the log of one server.
fn are_served(servers: Option<bool>, log: Option<bool>, ports: &[u16]) -> bool
    ensures { result ≡ true → AreServed servers log ports.now }
{
    match (servers, log) {
        (Some(known), Some(logged)) => known && logged,
        (Some(known), None) => known,
        (None, Some(logged)) => logged && ports.len() == 1,
        (None, None) => false,
    }
}

// Adds what is in place, and who serves it. Returns whether all servers do.
fn push_in_place<R, D, F>(
    call: &StageCall<'_, R, D>,
    folder: &F,
    steps: &[StagingStep],
    lines: &mut Lines,
) -> Result<bool, Stop>
where
    R: Files + AllocGlobal + Clock + Net<Stream = TcpStream>,
    D: Disk,
    F: StageFolder,
{
    let alloc = call.rt.alloc();
    let collected = match collected_at(alloc, call.disk, call.manifest) {
        Ok(collected) => collected,
        Err(stop) => return Err(stop),
    };
    let (apps, now) = (collected.sources.apps.as_slice(), now_of(call.rt));
    let standing = Standing {
        alloc,
        steps,
        apps,
        now,
    };
    push_apps(&standing, &mut lines.text);
    let servers = push_servers(call, folder, &collected, lines);
    let log = push_log(call, &collected, lines);
    drop(collected);
    Ok(are_served(servers, log, call.options.ports()))
}

// Says that no step is shown, and what to do.
fn push_no_steps(stderr: &mut TextBuffer, fault: FolderFault) {
    stderr.push_all(&["stage: no step is shown: ", RECORDS, " "]);
    match fault {
        FolderFault::RecordsNotOwn | FolderFault::System(ErrorKind::PermissionDenied) => {
            stderr.push("is another user's, or open to others: call this as its owner\n")
        }
        fault => {
            stderr.push("can't be read: ");
            stderr.push_value(&fault);
            stderr.push("\n");
        }
    }
}

// The recorded steps that a status shows, and whether they could be read.
#[derive(Drop)]
struct Shown {
    recorded: RecordedSteps,
    are_read: bool,
}

// The recorded steps; none if they can't be read, which is said.
fn steps_shown<F: StageFolder>(alloc: Global, folder: &F, stderr: &mut TextBuffer) -> Shown
    ensures { result.are_read ≡ true → AreRecorded (F.records folder.now) result.recorded }
{
    match recorded_steps(alloc, folder) {
        Ok(recorded) => Shown {
            recorded,
            are_read: true,
        },
        Err(fault) => {
            push_no_steps(stderr, fault);
            let recorded = RecordedSteps {
                steps: Vec::new(alloc),
                unread: Vec::new(alloc),
            };
            Shown {
                recorded,
                are_read: false,
            }
        }
    }
}

// Adds the last steps, the records that aren't steps', and the files that aren't as the last step
// left them. Returns whether there are none.
#[tactic(auto, using(crate::proofs::Whole::whole))]
fn push_shown<F: StageFolder>(alloc: Global, folder: &F, shown: &Shown, lines: &mut Lines) -> bool
    requires { shown.now.are_read ≡ true
        → AreRecorded (F.records folder.now) shown.now.recorded }
    ensures { result ≡ true → IsWhole (F.records folder.now) (F.files folder.now) }
{
    let Shown { recorded, are_read } = shown;
    let text = &mut lines.text;
    push_steps(alloc, folder, &recorded.steps, LAST_STEPS, None, text);
    push_unread(&recorded.unread, &mut lines.stderr);
    if !push_last(folder, &recorded.steps, &mut lines.stderr) || !*are_read {
        return false;
    }
    are_none(&recorded.unread)
}

/// Prints the status of a folder, also if its steps can't be read. Returns whether each record is
/// a step's, the last step's files are as it left them, and the servers, unless none is to load,
/// are known to serve what is in place.
// open: what is printed, and what a server serves: rows, and bench/outside.
pub fn push_status<R, D, F>(
    call: &StageCall<'_, R, D>,
    folder: &F,
    lines: &mut Lines,
) -> Result<bool, Stop>
where
    R: Files + AllocGlobal + Clock + Net<Stream = TcpStream>,
    D: Disk,
    F: StageFolder,
    ensures { IfOk result (λ served. served ≡ true
        → IsWhole (F.records folder.now) (F.files folder.now)) }
{
    let alloc = call.rt.alloc();
    let shown = steps_shown(alloc, folder, &mut lines.stderr);
    let in_place = push_in_place(call, folder, &shown.recorded.steps, lines);
    let is_whole = push_shown(alloc, folder, &shown, lines);
    drop(shown);
    match in_place {
        Ok(is_served) => Ok(is_whole && is_served),
        Err(stop) => Err(stop),
    }
}
