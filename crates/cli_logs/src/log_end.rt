//! When logs end: the time of their last line.

use crate::log_part::bytes_at;
use crate::reporting::{fault_of, path_of};
use bounded_files::ResourceFault;
use json_value::read_json;
use memchr::memrchr;
use moments::second_of_time;
use report::text_in;
use report_page::LogsEnd;
use std::alloc::{AllocError, Global};
use std::rt::Files;
use std::{fs, io};

/// How many bytes of a log's end are searched: a line that counts has fewer.
const END: u64 = 0x1_0001;

/// The time of a line, and its second.
#[derive(Drop)]
struct LineTime {
    second: i64,
    text: String,
}

/// What is at a log's end: the time of its last line, or none.
#[derive(Drop)]
enum LogTail {
    Time(LineTime),
    NoLine,
    Irregular,
}

/// When logs end, as `LogsEnd` has it.
#[derive(Drop)]
pub(crate) enum FoundEnd {
    At(String),
    NoLine,
    Unknown,
}

impl FoundEnd {
    /// What a page says of it.
    pub(crate) fn shown<'a>(&'a self) -> LogsEnd<'a> {
        match self {
            FoundEnd::At(time) => LogsEnd::At(time.as_str()),
            FoundEnd::NoLine => LogsEnd::NoLine,
            FoundEnd::Unknown => LogsEnd::Unknown,
        }
    }
}

/// The latest of the times of the logs' last lines, as the line has it. It isn't known if none has
/// such a line, and one isn't a regular file.
pub(crate) fn end_of_logs<R>(rt: &R, logs: &[&str]) -> Result<FoundEnd, ResourceFault>
where
    R: Files + AllocGlobal,
{
    let mut latest: Option<LineTime> = None;
    let mut all_regular = true;
    for path in logs {
        match tail_of_log(rt, *path) {
            Ok(LogTail::Time(time)) => latest = Some(later(latest, time)),
            Ok(LogTail::NoLine) => {}
            Ok(LogTail::Irregular) => all_regular = false,
            Err(error) => return Err(fault_of(&error)),
        }
    }
    match latest {
        Some(LineTime { text, .. }) => Ok(FoundEnd::At(text)),
        None if all_regular => Ok(FoundEnd::NoLine),
        None => Ok(FoundEnd::Unknown),
    }
}

fn later(latest: Option<LineTime>, time: LineTime) -> LineTime {
    match latest {
        Some(latest) if latest.second >= time.second => latest,
        _ => time,
    }
}

// What is at a log's end. A file that isn't regular isn't opened, since that may wait.
fn tail_of_log<R>(rt: &R, path: &str) -> io::Result<LogTail>
where
    R: Files + AllocGlobal,
{
    match fs::metadata(rt, path_of(path)) {
        Ok(found) if found.is_file() => {
            let bytes = last_bytes(rt, path, found.len())?;
            let time = last_time(rt.alloc(), bytes.as_slice());
            drop(bytes);
            match time? {
                Some(time) => Ok(LogTail::Time(time)),
                None => Ok(LogTail::NoLine),
            }
        }
        _ => Ok(LogTail::Irregular),
    }
}

// The last of these bytes of a file.
fn last_bytes<R>(rt: &R, path: &str, length: u64) -> io::Result<Vec<u8>>
where
    R: Files + AllocGlobal,
{
    let mut file = fs::open(rt, path_of(path))?;
    bytes_at(rt.alloc(), &mut file, length.saturating_sub(END), END)
}

// The time of the last line that has one.
fn last_time(alloc: Global, bytes: &[u8]) -> Result<Option<LineTime>, AllocError> {
    let mut left = bytes;
    for _ in 0..bytes.len() {
        let Some(last) = last_line(left) else {
            return Ok(None);
        };
        if let Some(time) = time_of_line(alloc, last.line)? {
            return Ok(Some(time));
        }
        left = last.before;
    }
    Ok(None)
}

// A line without its line feed, and the bytes before it.
#[derive(Clone, Copy)]
struct LastLine<'a> {
    line: &'a [u8],
    before: &'a [u8],
}

// The last line that is ended by a line feed; bytes after that are left out.
fn last_line<'a>(bytes: &'a [u8]) -> Option<LastLine<'a>> {
    let whole = bytes.get(..memrchr(b'\n', bytes)?)?;
    let start = match memrchr(b'\n', whole) {
        Some(at) => at.saturating_add(1),
        None => 0,
    };
    let line = whole.get(start..)?;
    let before = whole.get(..start)?;
    Some(LastLine { line, before })
}

// The time of a server's line.
fn time_of_line(alloc: Global, line: &[u8]) -> Result<Option<LineTime>, AllocError> {
    let Some(value) = read_json(alloc, line)? else {
        return Ok(None);
    };
    let time = match (text_in(&value, "time"), text_in(&value, "kind")) {
        (Some(text), Some(_)) => time_in(alloc, text),
        _ => Ok(None),
    };
    drop(value);
    time
}

fn time_in(alloc: Global, text: &str) -> Result<Option<LineTime>, AllocError> {
    match second_of_time(text) {
        Some(second) => Ok(Some(LineTime {
            second,
            text: String::from_str(alloc, text)?,
        })),
        None => Ok(None),
    }
}
