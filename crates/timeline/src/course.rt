//! The counts of a report over time: its tables for a chart, and the bins of its time.

ghost use Rattle.std.specs.Prelude.{◌≡◌, IfSome};
ghost use Rattle.timeline.specs.Bins.{AreBins};

use crate::app_panel::PictureSource;
use crate::bins::{Bins, Reach, bins_over};
use crate::times::Times;
use report::{AppQuestion, ChartQuestion, LineQuestion, Question, Report, Tally};

/// The tables for a chart; `counts` has the rows by minute or by hour, which the bins divide.
#[derive(Clone, Copy)]
pub(crate) struct DrawnCourse<'a> {
    pub update_checks: &'a Tally,
    pub loads: &'a Tally,
    pub versions: &'a Tally,
    pub counts: &'a Tally,
    pub bins: Bins,
}

/// The course of a report; `None` if no update check has a readable time.
pub(crate) fn course_of<'a>(report: &'a Report, times: Times) -> Option<DrawnCourse<'a>>
    ensures { IfSome result (λ course. AreBins course.bins) }
{
    let by_minute = report.tally(Question::Chart(ChartQuestion::ByMinute))?;
    let by_hour = report.tally(Question::Chart(ChartQuestion::ByHour))?;
    if is_fine(by_minute, times) && !times.begins_later() {
        course_by(report, by_minute, times.minutes, false)
    } else {
        course_by(report, by_hour, times.hours, true)
    }
}

/// The course of the newest minutes, if the report has left out earlier ones.
pub(crate) fn newest_course_of<'a>(report: &'a Report, times: Times) -> Option<DrawnCourse<'a>>
    ensures { IfSome result (λ course. AreBins course.bins) }
{
    let by_minute = report.tally(Question::Chart(ChartQuestion::ByMinute))?;
    if is_fine(by_minute, times) && times.begins_later() {
        course_by(report, by_minute, times.minutes, false)
    } else {
        None
    }
}

// The course by these counts.
fn course_by<'a>(
    report: &'a Report,
    counts: &'a Tally,
    reach: Option<Reach>,
    by_hour: bool,
) -> Option<DrawnCourse<'a>>
    ensures { IfSome result (λ course. AreBins course.bins) }
{
    let update_checks = report.tally(Question::App(AppQuestion::UpdateCheck))?;
    let loads = report.tally(Question::Line(LineQuestion::Load))?;
    let versions = report.tally(Question::Chart(ChartQuestion::Versions))?;
    if update_checks.rows().is_empty() {
        return None;
    }
    match bins_over(reach?, by_hour) {
        Some(bins) => Some(DrawnCourse {
            update_checks,
            loads,
            versions,
            counts,
            bins,
        }),
        None => None,
    }
}

// Whether the table by minute is complete, and its time is short.
fn is_fine(by_minute: &Tally, times: Times) -> bool {
    times.is_short() && by_minute.others() == 0
}

/// The data that is drawn.
pub(crate) fn source_of<'a>(course: DrawnCourse<'a>) -> PictureSource<'a>
    ensures { result.bins ≡ course.entry.bins }
{
    PictureSource {
        rows: course.counts.rows(),
        bins: course.bins,
        versions: course.versions.rows(),
        loads: course.loads.rows(),
    }
}
