//! How long before the page the logs end.

use crate::facts::{LogsEnd, PageFacts};
use crate::source::PageSource;
use moments::second_of_time;

/// The longest time for which a log of a living server has no line: ten minutes, of which it writes
/// a line in each.
const MOST_SECONDS: u64 = 600;

/// The end of a log that has ended.
#[derive(Clone, Copy)]
pub(crate) struct NewestEnd<'a> {
    pub time: &'a str,
    /// How long before the page: whole minutes.
    pub minutes: u64,
}

/// The end of logs whose last lines are all over ten minutes older than the page.
pub(crate) fn end_of<'a>(facts: PageFacts<'a>) -> Option<NewestEnd<'a>> {
    let LogsEnd::At(time) = facts.end else {
        return None;
    };
    let seconds = age_of_log(facts)?;
    if seconds <= MOST_SECONDS {
        return None;
    }
    let minutes = seconds / 60;
    Some(NewestEnd { time, minutes })
}

/// Whether lines were counted, and the logs have no line of a server near their end.
pub(crate) fn is_without_end(source: &PageSource<'_>) -> bool {
    source.report.lines > 0 && matches!(source.facts.end, LogsEnd::NoLine)
}

/// How many seconds the logs' last line is older than the page; 0 if it is later.
pub(crate) fn age_of_log(facts: PageFacts<'_>) -> Option<u64> {
    let LogsEnd::At(time) = facts.end else {
        return None;
    };
    let end = second_of_time(time)?;
    let written = second_of_time(facts.written?)?;
    u64::try_from((written as i128 - end as i128).max(0)).ok()
}
