//! The times of a report's counts.

use crate::bins::{Reach, reach_of};
use report::{ChartQuestion, Question, Report};

/// The longest time for a chart by minute: 200 bins of half an hour.
const MOST_MINUTES: u64 = 6000;

/// The first and the last minute, and the first and the last hour, of a report's counts.
#[derive(Clone, Copy)]
pub struct Times {
    pub(crate) minutes: Option<Reach>,
    pub(crate) hours: Option<Reach>,
}

impl Times {
    /// The times of a report's rows. This looks at each row.
    // open: which they are: rows compare pictures.
    pub fn of_report(report: &Report) -> Times {
        Times {
            minutes: reach_in(report, ChartQuestion::ByMinute),
            hours: reach_in(report, ChartQuestion::ByHour),
        }
    }

    /// Whether the minutes are few.
    pub(crate) fn is_short(self) -> bool {
        match self.minutes {
            Some(reach) => reach.greatest.saturating_sub(reach.least) < MOST_MINUTES,
            None => true,
        }
    }

    /// Whether the minutes begin after the first hour.
    pub(crate) fn begins_later(self) -> bool {
        match (self.minutes, self.hours) {
            (Some(minutes), Some(hours)) => minutes.least / 60 > hours.least,
            (None, Some(_)) => true,
            _ => false,
        }
    }
}

fn reach_in(report: &Report, question: ChartQuestion) -> Option<Reach> {
    reach_of(report.tally(Question::Chart(question))?.rows())
}
