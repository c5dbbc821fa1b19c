//! The context of an app: from the facts of its request and the moment of the request, or from only
//! a version and a bucket.

ghost use Rattle.std.specs.Prelude.{◌≡◌, ◌≤◌, option_copied};
ghost use Rattle.attrs.specs.Attributes.{plain_context};
ghost use Rattle.attrs.specs.Facts as specs;

use crate::bucket::{Bucket, named_bucket};
use crate::context::Context;
use crate::facts::AppFacts;
use crate::moment::{Elapsed, Moment};
use crate::text::lent;
use crate::version::read_version;

/// The context of an app at a moment, in the bucket that it names or otherwise the request's.
pub(crate) fn context_in(app: &AppFacts, hashed: Bucket, moment: Moment) -> Context
    ensures { result ≡ specs.context_in app.now hashed moment }
{
    let version = app_version(app);
    let named = named_bucket(app);
    let installed = known_day(app.installdate);
    let known = flag(version.is_some(), Context::VERSION_KNOWN)
        + flag(named.is_some(), Context::COHORT_KNOWN)
        + flag(installed.is_some(), Context::INSTALLDATE_KNOWN);
    let elapsed = Elapsed::at(moment);
    Context {
        version: version.unwrap_or([0; 4]),
        bucket: named.unwrap_or(hashed).number(),
        flags: known + requested_flags(app),
        install_day: installed.unwrap_or(Context::UNKNOWN_DAY),
        today: elapsed.days,
        seconds: elapsed.seconds,
    }
}

/// The context of an app that requests an update on day 0 at second 0.
pub(crate) fn plain_context(version: Option<&str>, bucket: Bucket) -> Context
    ensures { result ≡ plain_context (option_copied version.entry) bucket }
{
    let (version, known) = match version.and_then(read_version) {
        Some(numbers) => (numbers, Context::VERSION_KNOWN),
        None => ([0; 4], 0),
    };
    Context {
        version,
        bucket: bucket.number(),
        flags: Context::UPDATECHECK + known,
        install_day: Context::UNKNOWN_DAY,
        today: 0,
        seconds: 0,
    }
}

// The numbers of the app's version.
fn app_version(app: &AppFacts) -> Option<[u32; 4]>
    ensures { result ≡ specs.app_version app.now }
{
    read_version(lent(&app.version)?)
}

// An install day, if it is below the number that means an unknown one.
fn known_day(installdate: Option<u64>) -> Option<u32>
    ensures { result ≡ specs.known_day installdate }
{
    match installdate {
        Some(day) if day < Context::UNKNOWN_DAY as u64 => Some(day as u32),
        _ => None,
    }
}

// A sum of the flags of what the app requests.
fn requested_flags(app: &AppFacts) -> u8
    ensures value { result ≡ specs.requested_flags app.now }
    ensures limit { result ≤ 14 }
{
    flag(app.updatecheck, Context::UPDATECHECK)
        + flag(app.ping, Context::PING)
        + flag(app.event, Context::EVENT)
}

// A flag's number, if it is set; otherwise 0.
fn flag(holds: bool, number: u8) -> u8
    ensures value { result ≡ specs.flag holds number }
    ensures limit { result ≤ number }
{
    if holds { number } else { 0 }
}
