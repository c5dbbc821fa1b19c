//! The newest installs of a version, by which its failures are judged.

ghost use Rattle.std.specs.Prelude.{◌≡◌, IfOk, sum};
ghost use Rattle.timeline.specs.Bins.{AreBins};
ghost use Rattle.timeline.specs.Newest as specs;

use crate::app_panel::PictureSource;
use crate::counts::counts_by_bin;
use crate::marks::{Series, added};
use std::alloc::{AllocError, Global};

/// Installs that ended, and how many of them failed.
#[derive(Clone, Copy)]
pub struct Outcomes {
    pub installs: u64,
    pub failures: u64,
}

impl Outcomes {
    /// Whether the version fails: at least three of 20 or more installs failed, and more than 5
    /// percent.
    pub fn fails(self) -> bool
        ensures { result ≡ specs.fails self }
    {
        self.installs >= 20
            && self.failures >= 3
            && (self.installs as u128) < self.failures as u128 * 20
    }
}

/// The installs of a version in the last bins: as few bins as have 20 installs, or all.
pub(crate) fn newest_of<'a>(
    alloc: Global,
    source: &PictureSource<'_>,
    app: &'a str,
    version: &'a str,
) -> Result<Outcomes, AllocError>
    requires { AreBins source.now.bins }
    ensures { IfOk result (λ o. o
        ≡ specs.newest_of source.now.bins source.now.rows.now.entries app.now version.now) }
{
    let installs = Series::of_all("installs", app).of_version(version);
    let failures = Series::of_all("failures", app).of_version(version);
    let installs = counts_by_bin(alloc, source.rows, installs, &source.bins)?;
    let failures = counts_by_bin(alloc, source.rows, failures, &source.bins)?;
    newest(installs.as_slice(), failures.as_slice())
}

/// The newest installs of a version by these bins, if they have 20; else `others`.
pub(crate) fn judged_by<'a>(
    alloc: Global,
    source: &PictureSource<'_>,
    app: &'a str,
    version: &'a str,
    others: Outcomes,
) -> Result<Outcomes, AllocError>
    requires { AreBins source.now.bins }
    ensures { IfOk result (λ o. o ≡ specs.judged_by source.now.bins source.now.rows.now.entries
        app.now version.now others) }
{
    let newest = newest_of(alloc, source, app, version)?;
    Ok(if newest.installs >= 20 {
        newest
    } else {
        others
    })
}

fn newest(installs: &[u64], failures: &[u64]) -> Result<Outcomes, AllocError>
    ensures { IfOk result (λ o. o ≡ specs.newest installs.now failures.now) }
{
    let mut ended = installs;
    let mut failed = failures;
    while let [n, later @ ..] = ended {
        let [m, more @ ..] = failed else {
            return Ok(outcomes_of(0, 0));
        };
        let newer = sum_of(later)?;
        if newer < 20 {
            return Ok(outcomes_of(added(*n, newer)?, added(*m, sum_of(more)?)?));
        }
        ended = later;
        failed = more;
    }
    Ok(outcomes_of(0, 0))
}

fn outcomes_of(installs: u64, failures: u64) -> Outcomes
    ensures { result ≡ specs.outcomes_of installs failures }
{
    Outcomes { installs, failures }
}

fn sum_of(numbers: &[u64]) -> Result<u64, AllocError>
    ensures { IfOk result (λ n. n ≡ sum numbers.now) }
{
    let mut total = 0;
    let mut left = numbers;
    while let [n, rest @ ..] = left {
        total = added(total, *n)?;
        left = rest;
    }
    Ok(total)
}
