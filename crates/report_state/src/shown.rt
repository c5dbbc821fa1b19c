//! A report as a page draws it, with the rows of a course.

use crate::course::Course;
use crate::row_moments::{first, rest};
use report::{ChartQuestion, Question, Report, Tally};
use std::alloc::{AllocError, Global};
use std::collections::BTreeMap;

/// The first texts of the rows of a chart.
const KINDS: [&str; 4] = ["asks", "offers", "installs", "failures"];

impl Course {
    /// Makes the rows of a report's charts those of the course. Versions are those that occur in
    /// them.
    // open: which rows they are: rows.
    pub fn show(self, alloc: Global, report: &mut Report) -> Result<(), AllocError> {
        let versions = Question::Chart(ChartQuestion::Versions);
        let mut found = Tally::new(alloc, versions.limit());
        count_versions(alloc, &mut found, self.hours.tally.rows())?;
        count_versions(alloc, &mut found, self.minutes.tally.rows())?;
        let Course { minutes, hours } = self;
        report
            .tallies
            .truncate(report.tallies.len().saturating_sub(3));
        report.tallies.push(found)?;
        report.tallies.push(minutes.tally)?;
        report.tallies.push(hours.tally)?;
        Ok(())
    }
}

fn count_versions(
    alloc: Global,
    versions: &mut Tally,
    rows: &BTreeMap<String, u64>,
) -> Result<(), AllocError> {
    for (name, n) in rows.iter() {
        let name = name.as_str();
        if KINDS.contains(&first(name)) {
            if let Some((version, _moment)) = rest(name).rsplit_once('\t') {
                count_version(alloc, versions, version, *n)?;
            }
        }
    }
    Ok(())
}

// Counts a version of an app, if the table has a row for it.
fn count_version(
    alloc: Global,
    versions: &mut Tally,
    version: &str,
    n: u64,
) -> Result<(), AllocError> {
    let found = versions.count_of(version);
    if found.is_none() && versions.rows().len() >= versions.limit() {
        versions.set_others(versions.others().saturating_add(n));
        return Ok(());
    }
    let count = found.unwrap_or(0).saturating_add(n);
    versions.set(String::from_str(alloc, version)?, count)
}
