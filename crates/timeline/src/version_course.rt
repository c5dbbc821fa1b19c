//! The versions of an app, each with its counts.

ghost use Rattle.std.specs.Prelude.{◌≡◌, IfOk, string_bytes};
ghost use Rattle.timeline.specs.Bins.{AreBins};
ghost use Rattle.timeline.specs.Courses.{IsVersionCourse};

use crate::app_panel::PictureSource;
use crate::course::{course_of, newest_course_of, source_of};
use crate::legend::{VersionCounts, counts_of_version};
use crate::marks::{Series, drawn_count};
use crate::newest::{Outcomes, judged_by, newest_of};
use crate::times::Times;
use crate::versions::versions_in_rows;
use report::Report;
use std::alloc::{AllocError, Global};

/// A version of an app: its counts, and its newest installs.
#[derive(Drop)]
pub struct VersionCourse {
    pub version: String,
    pub counts: VersionCounts,
    pub newest: Outcomes,
}

/// The versions of an app in a report, in the order of their texts; none if no update check has a
/// readable time. Also returns `AllocError` if a number overflows 64 bits.
// open: that there is one for each version: rows.
pub fn versions_of_app(
    alloc: Global,
    report: &Report,
    times: Times,
    app: &str,
) -> Result<Vec<VersionCourse>, AllocError> {
    let Some(course) = course_of(report, times) else {
        return Ok(Vec::new(alloc));
    };
    let mut versions = versions_in(alloc, &source_of(course), app)?;
    if let Some(newest) = newest_course_of(report, times) {
        judge_each(alloc, &mut versions, &source_of(newest), app)?;
    }
    Ok(versions)
}

// Judges each version by these bins, if they have enough of its installs.
fn judge_each(
    alloc: Global,
    versions: &mut Vec<VersionCourse>,
    source: &PictureSource<'_>,
    app: &str,
) -> Result<(), AllocError>
    requires { AreBins source.now.bins }
{
    for version in versions.iter_mut() {
        let outcomes = version.newest;
        let judged = judged_by(alloc, source, app, version.version.as_str(), outcomes)?;
        version.newest = judged;
    }
    Ok(())
}

/// The update checks of an app in its course. Also returns `AllocError` if the number overflows 64
/// bits.
// open: of which course: rows.
pub fn asks_of_app(
    alloc: Global,
    report: &Report,
    times: Times,
    app: &str,
) -> Result<u64, AllocError> {
    match course_of(report, times) {
        Some(course) => drawn_count(alloc, course.counts.rows(), Series::of_all("asks", app)),
        None => Ok(0),
    }
}

fn versions_in(
    alloc: Global,
    source: &PictureSource<'_>,
    app: &str,
) -> Result<Vec<VersionCourse>, AllocError>
    requires { AreBins source.now.bins }
{
    let names = versions_in_rows(alloc, source.versions, app)?;
    let mut versions = Vec::new(alloc);
    for name in names.as_slice() {
        versions.push(course_of_version(alloc, source, app, name.as_str())?)?;
    }
    Ok(versions)
}

fn course_of_version(
    alloc: Global,
    source: &PictureSource<'_>,
    app: &str,
    version: &str,
) -> Result<VersionCourse, AllocError>
    requires { AreBins source.now.bins }
    ensures { IfOk result
        (IsVersionCourse source.now.bins source.now.rows.now.entries app.now version.now) }
{
    let counts = counts_of_version(alloc, source.rows, app, version)?;
    let newest = newest_of(alloc, source, app, version)?;
    Ok(VersionCourse {
        version: String::from_str(alloc, version)?,
        counts,
        newest,
    })
}
