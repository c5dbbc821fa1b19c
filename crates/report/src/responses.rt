//! Counts the replies of a line of totals, by status.

ghost use Rattle.std.specs.Prelude.{◌≡◌, OnOk, codes, replicate};
ghost use Rattle.report.specs.Responses as specs;
ghost use Rattle.report.specs.Tallies.{Notes};

use crate::log_line::LogLine;
use crate::name_text::decimal;
use crate::tally::Tally;
use std::alloc::{AllocError, Global};

/// Counts the replies of a line of totals, and the connections that got none.
pub(crate) fn note_responses(
    alloc: Global,
    tally: &mut Tally,
    line: &LogLine<'_>,
) -> Result<(), AllocError>
    ensures { OnOk result (Notes tally.old tally.new (specs.response_names line.now)) }
{
    note_statuses(alloc, tally, line)?;
    note_dropped(alloc, tally, line)?;
    Ok(())
}

fn note_statuses(alloc: Global, tally: &mut Tally, line: &LogLine<'_>) -> Result<(), AllocError>
    ensures { OnOk result
        (Notes tally.old tally.new (specs.names_of_statuses line.now.responses)) }
{
    note_each(alloc, tally, &line.responses)
}

fn note_each(alloc: Global, tally: &mut Tally, responses: &[(u64, u64)]) -> Result<(), AllocError>
    ensures { OnOk result (Notes tally.old tally.new (specs.names_of_statuses responses.now)) }
{
    let mut left = responses;
    while let [response, rest @ ..] = left {
        note_status(alloc, tally, response)?;
        left = rest;
    }
    Ok(())
}

// Counts a status as often as it has replies.
fn note_status(alloc: Global, tally: &mut Tally, response: &(u64, u64)) -> Result<(), AllocError>
    ensures { OnOk result (Notes tally.old tally.new (specs.status_names response.now)) }
{
    let (status, count) = *response;
    let name = decimal(alloc, status)?;
    tally.note_times(name, count)
}

fn note_dropped(alloc: Global, tally: &mut Tally, line: &LogLine<'_>) -> Result<(), AllocError>
    ensures { OnOk result
        (Notes tally.old tally.new (replicate line.now.dropped (codes "none"))) }
{
    let name = String::from_str(alloc, "none")?;
    tally.note_times(name, line.dropped)
}

/// The longest wait of a line of totals, in microseconds; 0 in other lines.
pub(crate) fn longest_wait_in(line: &LogLine<'_>) -> u64
    ensures { result ≡ specs.longest_wait_in line.now }
{
    line.longest_wait
}
