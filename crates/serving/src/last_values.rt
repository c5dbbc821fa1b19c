//! What a server leaves, and the log lines of its end: that it has ended, and a line for each
//! counter that isn't 0. They wait for places in the log's queue, so that none is lost if the log
//! is read in time.

ghost use Rattle.std.specs.Prelude.{◌≡◌, ◌+◌, ◌<◌, IfErr, IfOk, IsTrue, length, slice_index};
ghost use Rattle.serving.specs.Staffed.{IsEndFault};

use crate::ended::Ended;
use crate::serving_fault::ServingFault;
use access_log::{Counter, LogEvent};
use cells::{CellArray, CellNo};
use hot_swap::SwapFault;
use server_counters::Counters;
use server_log::{LogQueue, seconds_from_now};
use shared_cells::Closed;
use std::sync::Wait;
use std::time::{Clock, Instant};

/// How long all these lines wait for places.
const END_SECONDS: u64 = 4;

/// Logs that a server has ended, with the last values of its counters, and returns what it leaves.
/// Returns H2 unless each worker's watcher could be read. `values` is a buffer with a place for
/// each cell.
pub(crate) fn left_by<H>(
    rt: &H,
    log: Option<&LogQueue>,
    ended: Ended,
    values: Vec<u64>,
) -> Result<Counters, ServingFault>
where
    H: Wait + AllocGlobal + Clock,
    requires { length values.items ≡ 8192 }
    ensures known { IfOk result (λ _. IsTrue ended.is_known) }
    ensures halted { IfOk result (λ left. left.halted ≡ ended.halted) }
    ensures arrays { IfOk result (λ left. left.directory ≡ ended.directory) }
    ensures values { IfOk result (λ left. left.values.items ≡ ended.closed.values) }
    ensures fault { IfErr result IsEndFault }
{
    let Ended {
        closed,
        directory,
        halted,
        is_known,
    } = ended;
    note_end(rt, log, is_known, directory.arrays(), &closed);
    let values = last_values(&closed, values);
    if !is_known {
        return Err(ServingFault::Publisher(SwapFault::NoPlace));
    }
    Ok(Counters {
        halted,
        directory,
        values,
    })
}

// Logs that a server has ended, if there is a log. The line has H2 unless `is_known`: each worker's
// watcher could be read. Then logs the last values of its counters, array after array, up to the
// first line that gets no place in time.
fn note_end<H>(
    rt: &H,
    log: Option<&LogQueue>,
    is_known: bool,
    arrays: &[CellArray],
    closed: &Closed,
)
where
    H: Wait + AllocGlobal + Clock,
{
    let Some(queue) = log else {
        return;
    };
    let until = seconds_from_now(rt, END_SECONDS);
    if !queue.note_until(rt, &LogEvent::Stop(refusal_if(!is_known)), until) {
        return;
    }
    for array in arrays {
        if !note_array(rt, queue, until, array, closed) {
            return;
        }
    }
}

// The last values of all cells, by their numbers, in a buffer that has a place for each.
fn last_values(closed: &Closed, mut buffer: Vec<u64>) -> Vec<u64>
    requires { length buffer.items ≡ 8192 }
    ensures { result.items ≡ closed.now.values }
{
    closed.copy_values(buffer.as_mut_slice());
    buffer
}

fn refusal_if(is_refused: bool) -> Option<&'static str> {
    if is_refused {
        Some(SwapFault::NoPlace.name())
    } else {
        None
    }
}

// Logs the counters of an array, and returns whether all lines got a place.
fn note_array<H>(
    rt: &H,
    queue: &LogQueue,
    until: Option<Instant>,
    array: &CellArray,
    closed: &Closed,
) -> bool
where
    H: Wait + AllocGlobal + Clock,
{
    for index in 0..array.length {
        let value = value_of(array, index, closed);
        if value != 0 && !queue.note_until(rt, &counter_event(array, index, value), until) {
            return false;
        }
    }
    true
}

fn counter_event<'x>(array: &'x CellArray, index: u16, value: u64) -> LogEvent<'x> {
    LogEvent::Counter(Counter {
        array: array.name.as_str(),
        index,
        value,
    })
}

// The last value of an array's cell; 0 past the last cell, which no array reaches.
fn value_of(array: &CellArray, index: u16, closed: &Closed) -> u64
    ensures { array.now.base + index < 8192
        → result ≡ slice_index closed.now.values (array.now.base + index) }
{
    match array.base.checked_add(index) {
        Some(number) if number < CellNo::COUNT => closed.value(CellNo::new(number)),
        _ => 0,
    }
}
