//! The client of a condition: besides its appid and version, it sends what the condition's tests
//! require.

ghost use Rattle.std.specs.Prelude.{◌≡◌, IfOk, option_copied};
ghost use Rattle.warnings.specs.Client as specs;
ghost use Rattle.warnings.specs.Wanted as tests;

use crate::wanted::{DayOf, wanted_day, wanted_text, wants};
use attrs::{AppFacts, Attribute, Elapsed, Flag, Moment, RequestFacts, Text};
use rule_lang::Step;
use std::alloc::{AllocError, Global};

fn copy(alloc: Global, text: &str) -> Result<Text, AllocError>
    ensures { IfOk result (λ t. t ≡ text.now) }
{
    let copy = String::from_str(alloc, text)?;
    Ok(Text::new(copy))
}

fn copy_some(alloc: Global, text: Option<&str>) -> Result<Option<Text>, AllocError>
    ensures { IfOk result (λ t. t ≡ option_copied text.entry) }
{
    match text {
        Some(text) => Ok(Some(copy(alloc, text)?)),
        None => Ok(None),
    }
}

// For `flag cohort_known` alone, the cohort of bucket 0, for which `bucket < n` holds.
fn cohort_for<'a>(steps: &'a [Step]) -> Option<&'a str>
    ensures { option_copied result ≡ specs.cohort_for steps.now }
{
    if let Some(text) = wanted_text(Attribute::Cohort, steps) {
        return Some(text);
    }
    if wants(Flag::CohortKnown, steps) {
        Some("b:0000")
    } else {
        None
    }
}

/// The facts of the app.
pub(crate) fn app_for(
    alloc: Global,
    appid: &str,
    version: &str,
    steps: &[Step],
) -> Result<AppFacts, AllocError>
    ensures { IfOk result (λ app. app ≡ specs.app_for appid.now version.now steps.now) }
{
    Ok(AppFacts {
        appid: copy(alloc, appid)?,
        version: Some(copy(alloc, version)?),
        brand: copy_some(alloc, wanted_text(Attribute::Brand, steps))?,
        ap: copy_some(alloc, wanted_text(Attribute::Ap, steps))?,
        lang: copy_some(alloc, wanted_text(Attribute::Lang, steps))?,
        cohort: copy_some(alloc, cohort_for(steps))?,
        installdate: installdate_for(steps),
        updatecheck: true,
        ping: wants(Flag::Ping, steps),
        event: wants(Flag::Event, steps),
    })
}

fn installdate_for(steps: &[Step]) -> Option<u64>
    ensures { result ≡ tests.wanted_day DayOf.Installation steps.now }
{
    match wanted_day(DayOf::Installation, steps) {
        Some(day) => Some(day as u64),
        None => None,
    }
}

/// The facts of the request, which has no id.
pub(crate) fn request_for(alloc: Global, steps: &[Step]) -> Result<RequestFacts, AllocError>
    ensures { IfOk result (λ request. request ≡ specs.request_for steps.now) }
{
    Ok(RequestFacts {
        requestid: None,
        sessionid: None,
        platform: copy_some(alloc, wanted_text(Attribute::Platform, steps))?,
    })
}

/// The first second of the day that the tests require, or of day 0.
pub(crate) fn moment_for(steps: &[Step]) -> Moment
    ensures { result ≡ specs.moment_for steps.now }
{
    let day = wanted_day(DayOf::Request, steps).unwrap_or(0);
    (Elapsed::FIRST_SECOND + Elapsed::SECONDS_OF_A_DAY * day as u64) as i64
}
