//! The part of a log that isn't counted yet. It begins at the last report's end, and ends with the
//! last line feed.

ghost use Rattle.std.specs.Prelude.{◌≤◌, IfOk, length};
ghost use Rattle.report_state.specs.Places.{KeepsApart};

use memchr::memrchr;
use report_state::{LogPlace, keeping_is_transitive, note_place};
use std::alloc::Global;
use std::fs::OpenFile;
use std::io::{self, Error, ErrorKind, Read, Seek, SeekFrom};

/// How many of a log's first bytes are kept, by which it is found again.
const BEGINNING: u64 = 256;

/// How many bytes are searched at a time for a line feed.
const PIECE: u64 = 0x1_0000;

/// A part of a log that isn't counted yet: `length` bytes from `start` on; and the place after it.
#[derive(Drop)]
struct LogPart {
    start: u64,
    length: u64,
    place: LogPlace,
}

/// The places in logs, and the part of a log: `length` bytes from `start` on.
#[derive(Drop)]
pub(crate) struct BegunPart {
    pub(crate) places: Vec<LogPlace>,
    pub(crate) start: u64,
    pub(crate) length: u64,
}

/// The part of a log that isn't counted, by the places so far. Notes the place after it. The log
/// must be a regular file.
pub(crate) fn begin_part<F: Read + Seek + OpenFile>(
    alloc: Global,
    file: &mut F,
    places: Vec<LogPlace>,
) -> io::Result<BegunPart>
    ensures { IfOk result (λ begun. KeepsApart places.items begun.places.items) }
{
    let Some(part) = part_of(alloc, file, places.as_slice())? else {
        keeping_is_transitive();
        return Ok(BegunPart {
            places,
            start: 0,
            length: 0,
        });
    };
    let LogPart {
        start,
        length,
        place,
    } = part;
    let places = note_place(alloc, places, place)?;
    Ok(BegunPart {
        places,
        start,
        length,
    })
}

// The part that isn't counted, by these places. A log that begins like a place continues there. If
// it isn't longer, it may be a copy that isn't finished, and nothing of it is read. The same
// holds of a log without lines, and of one whose lines are only the first ones of a known log.
fn part_of<F: Read + Seek + OpenFile>(
    alloc: Global,
    file: &mut F,
    places: &[LogPlace],
) -> io::Result<Option<LogPart>> {
    let found = file.metadata()?;
    if !found.is_file() {
        return Err(Error::from(ErrorKind::InvalidInput));
    }
    let length = found.len();
    let mut beginning = bytes_at(alloc, file, 0, BEGINNING)?;
    let start = match place_of(places, beginning.as_slice()) {
        Some(place) if length <= place.counted => return empty_part(alloc, place),
        Some(place) => place.counted,
        None => 0,
    };
    let end = end_of_lines(alloc, file, start, length)?;
    beginning.truncate(end.min(BEGINNING) as usize);
    if beginning.is_empty() || begins_one(places, beginning.as_slice()) {
        return Ok(None);
    }
    Ok(Some(LogPart {
        start,
        length: end.saturating_sub(start),
        place: LogPlace {
            beginning,
            counted: end,
        },
    }))
}

// The empty part at a place.
fn empty_part(alloc: Global, place: &LogPlace) -> io::Result<Option<LogPart>> {
    Ok(Some(LogPart {
        start: place.counted,
        length: 0,
        place: LogPlace {
            beginning: Vec::from_slice(alloc, place.beginning.as_slice())?,
            counted: place.counted,
        },
    }))
}

// Of the places in a log with these first bytes the one with the most counted bytes; none in a log
// without bytes.
fn place_of<'a>(places: &'a [LogPlace], first: &[u8]) -> Option<&'a LogPlace> {
    let mut found = None;
    let mut counted = 0;
    for place in places {
        if begins_alike(place.beginning.as_slice(), first) && place.counted > counted {
            counted = place.counted;
            found = Some(place);
        }
    }
    found
}

// Whether neither is empty, and one is a prefix of the other.
fn begins_alike(one: &[u8], other: &[u8]) -> bool {
    !one.is_empty() && !other.is_empty() && (one.starts_with(other) || other.starts_with(one))
}

// Whether a known log begins with these bytes, and more of it is known.
fn begins_one(places: &[LogPlace], first: &[u8]) -> bool {
    for place in places {
        let beginning = place.beginning.as_slice();
        if beginning.len() > first.len() && beginning.starts_with(first) {
            return true;
        }
    }
    false
}

// The number of bytes up to the last line feed between the two places; `start` if there is none.
fn end_of_lines<F: Read + Seek>(
    alloc: Global,
    file: &mut F,
    start: u64,
    length: u64,
) -> io::Result<u64> {
    let mut end = length;
    while end > start {
        let from = end.saturating_sub(PIECE).max(start);
        let bytes = bytes_at(alloc, file, from, end - from)?;
        let lines = length_of_lines(bytes.as_slice());
        if lines > 0 {
            return Ok(from.saturating_add(lines as u64));
        }
        end = from;
    }
    Ok(start)
}

// How many bytes there are up to the last line feed, with it.
fn length_of_lines(bytes: &[u8]) -> usize
    ensures { result ≤ length bytes.now }
{
    match memrchr(b'\n', bytes) {
        Some(at) => at + 1,
        None => 0,
    }
}

/// At most `count` bytes from this place on.
pub(crate) fn bytes_at<F: Read + Seek>(
    alloc: Global,
    file: &mut F,
    from: u64,
    count: u64,
) -> io::Result<Vec<u8>> {
    file.seek(SeekFrom::Start(from))?;
    let mut bytes = Vec::new(alloc);
    file.by_ref().take(count).read_to_end(&mut bytes)?;
    Ok(bytes)
}
