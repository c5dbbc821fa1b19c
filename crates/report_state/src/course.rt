//! The counts of the newest minutes and of the newest hours, which a page draws. A row's name has
//! the kind of count, the app, the version, and the minute or hour since 1970.

ghost use Rattle.std.specs.Prelude.{None, Some, IfOk, OnOk, option_map};
ghost use Rattle.report_state.specs.Courses as specs;

use crate::row_moments::{first_moment, is_since};
use report::{ChartQuestion, Question, Report, Tally};
use std::alloc::{AllocError, Global};
use std::collections::BTreeMap;

/// The maximum number of rows by the minute, and of rows by the hour.
pub(crate) const MOST_ROWS: usize = 65536;

/// Counts by the minute or by the hour, without those before the moment `from`.
#[derive(Drop)]
pub struct CourseRows {
    pub from: u64,
    pub tally: Tally,
}

/// The counts of at most 200 minutes and 200 hours, for a chart.
#[derive(Drop)]
pub struct Course {
    pub minutes: CourseRows,
    pub hours: CourseRows,
}

impl Course {
    /// No counts.
    pub fn new(alloc: Global) -> Course
        ensures minutes { specs.AreNone result.minutes }
        ensures hours { specs.AreNone result.hours }
    {
        Course {
            minutes: CourseRows::new(alloc),
            hours: CourseRows::new(alloc),
        }
    }

    /// These counts, and those of a report on further lines. Of both the newest minutes and hours
    /// are kept, up to the present minute since 1970, and any that are later.
    pub fn continue_by(
        self,
        alloc: Global,
        part: &Report,
        present: u64,
    ) -> Result<Course, AllocError>
        ensures { IfOk result (specs.Continues self part.now) }
    {
        let Course { minutes, hours } = self;
        let by_minute = part.tally(Question::Chart(ChartQuestion::ByMinute));
        let by_hour = part.tally(Question::Chart(ChartQuestion::ByHour));
        let minutes = minutes.continue_by(alloc, by_minute, present)?;
        let hours = hours.continue_by(alloc, by_hour, present / 60)?;
        Ok(Course { minutes, hours })
    }
}

impl CourseRows {
    pub(crate) fn new(alloc: Global) -> CourseRows
        ensures { specs.AreNone result }
    {
        CourseRows {
            from: 0,
            tally: Tally::new(alloc, MOST_ROWS),
        }
    }

    fn continue_by(
        self,
        alloc: Global,
        part: Option<&Tally>,
        present: u64,
    ) -> Result<CourseRows, AllocError>
        ensures { IfOk result (specs.Sums self (option_map (λ t. t.now) part.entry)) }
    {
        let first = first_moment(self.tally.rows(), part, present);
        let from = self.from.max(first);
        let tally = sum_of(alloc, from, self.tally.rows(), part)?;
        Ok(CourseRows { from, tally })
    }
}

// The counts of both from a moment on.
fn sum_of(
    alloc: Global,
    from: u64,
    rows: &BTreeMap<String, u64>,
    part: Option<&Tally>,
) -> Result<Tally, AllocError>
    ensures { IfOk result
        (specs.IsSum from rows.now.entries (option_map (λ t. t.now) part.entry)) }
{
    match part {
        Some(part) => sum_of_both(alloc, from, rows, part),
        None => sum_of_one(alloc, from, rows),
    }
}

fn sum_of_one(alloc: Global, from: u64, rows: &BTreeMap<String, u64>) -> Result<Tally, AllocError>
    ensures { IfOk result (specs.IsSum from rows.now.entries None) }
{
    let mut sum = Tally::new(alloc, MOST_ROWS);
    add_rows(alloc, &mut sum, from, rows)?;
    Ok(sum)
}

fn sum_of_both(
    alloc: Global,
    from: u64,
    rows: &BTreeMap<String, u64>,
    part: &Tally,
) -> Result<Tally, AllocError>
    ensures { IfOk result (specs.IsSum from rows.now.entries (Some part.now)) }
{
    let mut sum = Tally::new(alloc, MOST_ROWS);
    add_rows(alloc, &mut sum, from, rows)?;
    add_rows(alloc, &mut sum, from, part.rows())?;
    Ok(sum)
}

fn add_rows(
    alloc: Global,
    sum: &mut Tally,
    from: u64,
    rows: &BTreeMap<String, u64>,
) -> Result<(), AllocError>
    ensures { OnOk result (specs.AddsRows from rows.now.entries sum.old sum.new) }
{
    for (name, n) in rows.iter() {
        add_row(alloc, sum, from, name.as_str(), *n)?;
    }
    Ok(())
}

#[tactic(auto, using(crate::proofs::Added::row_added, crate::proofs::Added::row_left_out))]
fn add_row(alloc: Global, sum: &mut Tally, from: u64, name: &str, n: u64) -> Result<(), AllocError>
    ensures { OnOk result (specs.AddsRow from name.now n sum.old sum.new) }
{
    if !is_since(from, name) {
        return Ok(());
    }
    let count = sum.count_of(name).unwrap_or(0).saturating_add(n);
    sum.set(String::from_str(alloc, name)?, count)
}
