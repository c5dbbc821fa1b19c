//! What a page is drawn from.

use crate::facts::PageFacts;
use crate::findings::AppCourse;
use crate::folder::{OfferedApp, OfferedQuota};
use cell_assignments::CellAssignment;
use report::Report;
use report_state::Faults;
use server_replies::{ServerFacts, text_after};
use timeline::Times;

/// What a page is drawn from: a report with its apps and faults, the facts, and what of them had to
/// be read.
#[derive(Drop)]
pub(crate) struct PageSource<'a> {
    pub report: &'a Report,
    pub times: Times,
    pub faults: Faults,
    pub facts: PageFacts<'a>,
    pub apps: &'a [AppCourse],
    /// The lines of a server's reply to `state`.
    pub state: &'a [&'a str],
    /// A server's counters that aren't 0.
    pub cells: &'a [CellAssignment<'a>],
    /// The loads that no step explains: of each its row with the digest.
    pub unexplained: &'a [&'a str],
}

impl<'a> PageSource<'a> {
    /// Whether a server replied.
    pub(crate) fn is_up(&self) -> bool {
        matches!(
            self.facts.server,
            Some(ServerFacts {
                replies: Some(_),
                ..
            })
        )
    }

    /// Whether the server halts an app.
    pub(crate) fn is_halted(&self, appid: &str) -> bool {
        for line in self.state {
            if let Some(halted) = text_after("halted", *line) {
                if halted == appid {
                    return true;
                }
            }
        }
        false
    }

    /// What the folder's rule offers an app.
    pub(crate) fn offer_to(&self, appid: &str) -> Option<&'a OfferedApp> {
        let folder = self.facts.folder?;
        for app in folder.apps.as_slice() {
            if app.appid.as_str() == appid {
                return Some(app);
            }
        }
        None
    }

    /// Whether the log has update checks of an app.
    pub(crate) fn is_asked(&self, appid: &str) -> bool {
        for app in self.apps {
            if app.appid.as_str() == appid {
                return true;
            }
        }
        false
    }

    /// How often a quota was granted so far, if the server replied; 0 of an array that it lacks.
    pub(crate) fn granted(&self, quota: &OfferedQuota) -> Option<u64> {
        if !self.is_up() {
            return None;
        }
        for cell in self.cells {
            if cell.array() == quota.array.as_str() && u64::from(cell.index()) == quota.index {
                return Some(cell.value());
            }
        }
        Some(0)
    }
}
