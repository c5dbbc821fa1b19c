//! The file of a state.

ghost use Rattle.std.specs.Prelude.{◌≡◌, IfOk, option_copied, option_map};
ghost use Rattle.report_state.specs.Places.{AreApart};
ghost use Rattle.cli_logs.specs.Continued.{BeginsFrom};

use crate::report_fault::ReportFault;
use bounded_files::{Device, Disk, ResourceFault};
use report::Report;
use report_state::{ReportState, read_state};
use std::alloc::Global;
use std::fs::{self, File, OpenFile, OpenOptions, TryLockError};
use std::os::unix::fs::MetadataExt;
use std::rt::Files;

/// The most bytes of a state: 256 MiB.
const MOST_STATE: u32 = 0x1000_0000;

/// The locked file of a state.
#[derive(Drop)]
pub(crate) struct StateLock {
    _file: File,
    is_made: bool,
}

/// Locks the file of a state. A file that doesn't exist is made, empty. Returns B10 if another
/// report has the lock, or has just replaced the file.
pub(crate) fn lock_state<R: Files<File = File>>(
    rt: &R,
    path: &str,
) -> Result<StateLock, ReportFault> {
    let made = state_options().create_new(true).open(rt, path);
    let is_made = made.is_ok();
    let opened = match made {
        Ok(file) => Ok(file),
        Err(_) => state_options().open(rt, path),
    };
    let Ok(file) = opened else {
        return Err(ReportFault::Resource(ResourceFault::File));
    };
    match file.try_lock() {
        Ok(()) if is_at(rt, &file, path) => Ok(StateLock {
            _file: file,
            is_made,
        }),
        Ok(()) => Err(ReportFault::Locked),
        Err(TryLockError::WouldBlock) => Err(ReportFault::Locked),
        Err(_) => Err(ReportFault::Resource(ResourceFault::File)),
    }
}

fn state_options() -> OpenOptions {
    let mut options = OpenOptions::new();
    options.read(true).write(true);
    options
}

impl StateLock {
    /// Ends the lock. If the report is refused, a file that was made for it is removed.
    pub(crate) fn release<R: Files>(self, rt: &R, path: &str, is_done: bool) {
        if self.is_made && !is_done {
            let _gone = fs::remove_file(rt, path);
        }
    }
}

// Whether the path still leads to this file.
fn is_at<R: Files<File = File>>(rt: &R, file: &File, path: &str) -> bool {
    match (file.metadata(), fs::metadata(rt, path)) {
        (Ok(own), Ok(found)) => own.dev() == found.dev() && own.ino() == found.ino(),
        _ => false,
    }
}

/// The bytes of a state's file; none if it is empty.
pub(crate) fn found_state<R: Files + AllocGlobal>(
    rt: &R,
    path: &str,
) -> Result<Option<Vec<u8>>, ReportFault> {
    match Device::new(rt).read_regular(path, MOST_STATE) {
        Ok(Some(bytes)) if bytes.is_empty() => Ok(None),
        Ok(Some(bytes)) => Ok(Some(bytes)),
        Ok(None) => Err(ReportFault::State),
        Err(fault) => Err(ReportFault::Resource(fault)),
    }
}

/// The bytes, if there are any.
pub(crate) fn bytes_of<'a>(found: &'a Option<Vec<u8>>) -> Option<&'a [u8]>
    ensures { option_copied result ≡ option_map (λ bytes. bytes.items) found.now }
{
    match found {
        Some(bytes) => Some(bytes.as_slice()),
        None => None,
    }
}

/// The state with which a report begins. Returns B9 if the bytes spell none.
pub(crate) fn begun_state(alloc: Global, found: Option<&[u8]>) -> Result<ReportState, ReportFault>
    ensures counts { IfOk result
        (λ state. BeginsFrom (option_copied found.entry) state.report) }
    ensures apart { IfOk result (λ state. AreApart state.places.items) }
{
    let Some(bytes) = found else {
        let Ok(report) = Report::new(alloc, false) else {
            return Err(ReportFault::Resource(ResourceFault::Memory));
        };
        return Ok(ReportState {
            report,
            places: Vec::new(alloc),
            course: None,
        });
    };
    match read_state(alloc, bytes) {
        Ok(Some(state)) => Ok(state),
        Ok(None) => Err(ReportFault::State),
        Err(_) => Err(ReportFault::Resource(ResourceFault::Memory)),
    }
}
