//! The apps of a request that a line doesn't list: how many there are, how many were offered a
//! release, and how many aren't known.

ghost use Rattle.std.specs.Prelude.{◌≡◌, ◌≤◌, OnOk};
ghost use Rattle.access_log.specs.Tokens.{AddsMembers};
ghost use Rattle.access_log.specs.Apps as specs;

use crate::line_buffer::LineBuffer;
use crate::logged_app::{LoggedApp, Outcome};
use crate::member::write_count;
use std::alloc::AllocError;

// How many apps were offered a release, and how many aren't known.
#[derive(Clone, Copy)]
struct Outcomes {
    offers: usize,
    unknown: usize,
}

/// The counts of what is left out, unless they are 0.
pub fn write_left_out(line: &mut LineBuffer, apps: &[LoggedApp<'_>]) -> Result<(), AllocError>
    ensures { OnOk result (AddsMembers line.old line.new (specs.left_out_members apps.now)) }
{
    let counts = count_outcomes(apps);
    write_count(line, "left_out", apps.len() as u64)?;
    write_count(line, "offers_left_out", counts.offers as u64)?;
    write_count(line, "unknown_left_out", counts.unknown as u64)?;
    Ok(())
}

fn count_outcomes(apps: &[LoggedApp<'_>]) -> Outcomes
    ensures offers { result.offers ≡ specs.offers_in apps.now }
    ensures unknown { result.unknown ≡ specs.unknown_in apps.now }
{
    let mut offers = 0;
    let mut unknown = 0;
    for app in apps {
        offers += offers_of(&app.outcome);
        unknown += unknown_of(&app.outcome);
    }
    Outcomes { offers, unknown }
}

fn offers_of(outcome: &Outcome<'_>) -> usize
    ensures value { result ≡ specs.offers_of outcome.now }
    ensures bound { result ≤ 1 }
{
    match outcome {
        Outcome::Offered(_, _) => 1,
        Outcome::Unknown | Outcome::NotRequested | Outcome::NoUpdate => 0,
    }
}

fn unknown_of(outcome: &Outcome<'_>) -> usize
    ensures value { result ≡ specs.unknown_of outcome.now }
    ensures bound { result ≤ 1 }
{
    match outcome {
        Outcome::Unknown => 1,
        Outcome::NotRequested | Outcome::NoUpdate | Outcome::Offered(_, _) => 0,
    }
}
