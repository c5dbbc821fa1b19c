//! The names that a line counts under for a chart of a log over time: update checks, offers, ended
//! installs and failed ones of each version, by the minute and by the hour.

ghost use Rattle.std.specs.Prelude.{◌≡◌, Some, OnOk};
ghost use Rattle.report.specs.Courses as specs;
ghost use Rattle.report.specs.Tallies.{Notes};

use crate::log_line::LogLine;
use crate::note::{note_apps, note_ends};
use crate::question::{AppQuestion, ChartQuestion, EventQuestion};
use crate::tally::{Tally, note_nothing};
use json::Scratch;
use moments::minute_in;
use std::alloc::{AllocError, Global};

/// Counts a line for a chart.
pub(crate) fn note_chart(
    alloc: Global,
    scratch: &mut Scratch,
    tally: &mut Tally,
    question: ChartQuestion,
    line: &LogLine<'_>,
) -> Result<(), AllocError>
    ensures { OnOk result (Notes tally.old tally.new
        (specs.chart_names question line.now)) }
{
    match question {
        ChartQuestion::Versions => note_three(
            alloc,
            scratch,
            tally,
            AppQuestion::UpdateCheckBy,
            AppQuestion::Offered,
            EventQuestion::FailedTo,
            line,
        ),
        ChartQuestion::ByMinute => note_moment(alloc, scratch, tally, minute_of_line(line), line),
        ChartQuestion::ByHour => {
            note_moment(
                alloc,
                scratch,
                tally,
                hour_of_minute(minute_of_line(line)),
                line,
            )
        }
    }
}

// The minute of a line since 1970.
fn minute_of_line(line: &LogLine<'_>) -> Option<u64>
    ensures { result ≡ specs.minute_of_line line.now }
{
    match line.time {
        Some(time) => minute_in(time),
        None => None,
    }
}

fn hour_of_minute(minute: Option<u64>) -> Option<u64>
    ensures { result ≡ specs.hour_of_minute minute }
{
    match minute {
        Some(minute) => Some(minute / 60),
        None => None,
    }
}

fn note_moment(
    alloc: Global,
    scratch: &mut Scratch,
    tally: &mut Tally,
    moment: Option<u64>,
    line: &LogLine<'_>,
) -> Result<(), AllocError>
    ensures { OnOk result
        (Notes tally.old tally.new (specs.names_in_moment line.now moment)) }
{
    match moment {
        Some(moment) => note_at(alloc, scratch, tally, moment, line),
        None => note_nothing(tally),
    }
}

fn note_at(
    alloc: Global,
    scratch: &mut Scratch,
    tally: &mut Tally,
    moment: u64,
    line: &LogLine<'_>,
) -> Result<(), AllocError>
    ensures { OnOk result
        (Notes tally.old tally.new (specs.names_in_moment line.now (Some moment))) }
{
    note_three(
        alloc,
        scratch,
        tally,
        AppQuestion::UpdateCheckAt(moment),
        AppQuestion::OfferedAt(moment),
        EventQuestion::FailedAt(moment),
        line,
    )?;
    note_ends(alloc, scratch, tally, EventQuestion::EndedAt(moment), line)?;
    Ok(())
}

fn note_three(
    alloc: Global,
    scratch: &mut Scratch,
    tally: &mut Tally,
    asks: AppQuestion,
    offers: AppQuestion,
    failures: EventQuestion,
    line: &LogLine<'_>,
) -> Result<(), AllocError>
    ensures { OnOk result (Notes tally.old tally.new
        (specs.three_names asks offers failures line.now)) }
{
    note_apps(alloc, tally, asks, line)?;
    note_apps(alloc, tally, offers, line)?;
    note_ends(alloc, scratch, tally, failures, line)?;
    Ok(())
}
