//! What a report finds: what is wrong, the worst first.

use crate::folder::{FolderFacts, OfferedQuota};
use crate::log_age::{NewestEnd, end_of, is_without_end};
use crate::source::PageSource;
use report::{AppQuestion, ChartQuestion, Question, Report};
use server_replies::{ServerFacts, text_after};
use std::alloc::{AllocError, Global};
use timeline::{Outcomes, Times, VersionCourse, asks_of_app, versions_of_app};

/// A longer wait is a finding: a second, in microseconds.
const MOST_WAIT: u64 = 1000000;

/// An app with its versions, and the update checks of its course.
#[derive(Drop)]
pub(crate) struct AppCourse {
    pub appid: String,
    pub asks: u64,
    pub versions: Vec<VersionCourse>,
}

/// A version that fails.
#[derive(Clone, Copy)]
pub(crate) struct Failing<'a> {
    pub appid: &'a str,
    pub version: &'a str,
    pub newest: Outcomes,
}

/// A quota that has granted all it may.
#[derive(Clone, Copy)]
pub(crate) struct UsedUp<'a> {
    pub appid: &'a str,
    pub quota: &'a OfferedQuota,
}

/// Something that isn't as it should be.
#[derive(Clone, Copy)]
pub(crate) enum Finding<'a> {
    /// The server at this port doesn't reply.
    Silent(u16),
    Fails(Failing<'a>),
    Ended(NewestEnd<'a>),
    /// Logs of which lines were counted have no line of a server near their end.
    NoLine,
    /// Requests that got a status from 500 on.
    Errors(u64),
    /// Counts of versions that have no row, since others occurred first.
    Rowless(u64),
    /// Lines that the log lost.
    Lost(u64),
    /// The longest wait of a client, in microseconds, if it is over a second.
    Waited(u64),
    /// An app that the server halts.
    Halted(&'a str),
    /// The loads that no step explains: of each its row with the digest.
    Unexplained(&'a [&'a str]),
    UsedUp(UsedUp<'a>),
    /// What of the folder couldn't be read.
    Unread(&'a str),
    /// Update checks of apps that the server doesn't know.
    Unknown(u64),
    /// Lines that aren't the server's.
    Foreign(u64),
}

impl<'a> Finding<'a> {
    /// Whether an operator has to act.
    pub(crate) fn is_urgent(self) -> bool {
        match self {
            Finding::Silent(_) | Finding::Fails(_) | Finding::Ended(_) | Finding::NoLine => true,
            Finding::Errors(_) | Finding::Rowless(_) => true,
            _ => false,
        }
    }
}

/// The apps of a report, each with its versions.
pub(crate) fn apps_of(
    alloc: Global,
    report: &Report,
    times: Times,
) -> Result<Vec<AppCourse>, AllocError> {
    let mut apps = Vec::new(alloc);
    if let Some(update_checks) = report.tally(Question::App(AppQuestion::UpdateCheck)) {
        for (appid, _count) in update_checks.rows().iter() {
            let appid = appid.as_str();
            let versions = versions_of_app(alloc, report, times, appid)?;
            apps.push(AppCourse {
                appid: String::from_str(alloc, appid)?,
                asks: asks_of_app(alloc, report, times, appid)?,
                versions,
            })?;
        }
    }
    Ok(apps)
}

/// The findings, the worst first.
pub(crate) fn findings_of<'a>(
    alloc: Global,
    source: &PageSource<'a>,
) -> Result<Vec<Finding<'a>>, AllocError> {
    let mut findings = Vec::new(alloc);
    note_urgent(&mut findings, source)?;
    note_others(&mut findings, source)?;
    Ok(findings)
}

fn note_urgent<'a>(
    findings: &mut Vec<Finding<'a>>,
    source: &PageSource<'a>,
) -> Result<(), AllocError> {
    if let Some(
        ServerFacts {
            port,
            replies: None,
        },
    ) = source.facts.server
    {
        findings.push(Finding::Silent(port))?;
    }
    for app in source.apps {
        for version in app.versions.as_slice() {
            if version.newest.fails() {
                findings.push(Finding::Fails(failing_of(app, version)))?;
            }
        }
    }
    if let Some(end) = end_of(source.facts) {
        findings.push(Finding::Ended(end))?;
    }
    if is_without_end(source) {
        findings.push(Finding::NoLine)?;
    }
    note(findings, Finding::Errors(source.faults.errors))?;
    note(findings, Finding::Rowless(rowless_in(source.report)))
}

fn note_others<'a>(
    findings: &mut Vec<Finding<'a>>,
    source: &PageSource<'a>,
) -> Result<(), AllocError> {
    note(findings, Finding::Lost(source.faults.lost))?;
    note(findings, Finding::Waited(source.faults.longest_wait))?;
    for line in source.state {
        if let Some(appid) = text_after("halted", *line) {
            findings.push(Finding::Halted(appid))?;
        }
    }
    if !source.unexplained.is_empty() {
        findings.push(Finding::Unexplained(source.unexplained))?;
    }
    if let Some(folder) = source.facts.folder {
        note_folder(findings, source, folder)?;
    }
    note(findings, Finding::Unknown(source.faults.unknown))?;
    note(findings, Finding::Foreign(source.faults.foreign))
}

// The quotas that are used up, and what couldn't be read.
fn note_folder<'a>(
    findings: &mut Vec<Finding<'a>>,
    source: &PageSource<'a>,
    folder: &'a FolderFacts,
) -> Result<(), AllocError> {
    for app in folder.apps.as_slice() {
        for quota in app.quotas.as_slice() {
            if source.granted(quota).unwrap_or(0) >= quota.limit {
                let appid = app.appid.as_str();
                findings.push(Finding::UsedUp(UsedUp { appid, quota }))?;
            }
        }
    }
    for sentence in folder.unread.as_slice() {
        findings.push(Finding::Unread(sentence.as_str()))?;
    }
    Ok(())
}

fn failing_of<'a>(app: &'a AppCourse, version: &'a VersionCourse) -> Failing<'a> {
    Failing {
        appid: app.appid.as_str(),
        version: version.version.as_str(),
        newest: version.newest,
    }
}

// Adds a finding, unless its number is 0, or a wait is at most a second.
fn note<'a>(findings: &mut Vec<Finding<'a>>, finding: Finding<'a>) -> Result<(), AllocError> {
    let empty = match finding {
        Finding::Errors(n) | Finding::Rowless(n) | Finding::Lost(n) => n == 0,
        Finding::Unknown(n) | Finding::Foreign(n) => n == 0,
        Finding::Waited(wait) => wait <= MOST_WAIT,
        _ => false,
    };
    if !empty {
        findings.push(finding)?;
    }
    Ok(())
}

// How often versions without a row were counted.
fn rowless_in(report: &Report) -> u64 {
    match report.tally(Question::Chart(ChartQuestion::Versions)) {
        Some(versions) => versions.others(),
        None => 0,
    }
}
