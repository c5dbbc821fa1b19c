//! The facts of an app that a line of a log has.

ghost use Rattle.std.specs.Prelude.{◌≡◌, IfOk};
ghost use Rattle.attrs.specs.Bucket.{cohort_of_bucket};
ghost use Rattle.report.specs.LogEvents as events;
ghost use Rattle.serde_json.specs.View.{view};
ghost use Rattle.why_log.specs.Requests as specs;

use attrs::{AppFacts, Attrs, Bucket, Moment, RequestFacts, Text, four_digits};
use report::{flag_in, number_in, text_in};
use serde_json::Value;
use std::alloc::{AllocError, Global};
use std::str;

/// An app of a request, as far as a line has it.
#[derive(Drop)]
pub(crate) struct LineApp {
    pub(crate) facts: AppFacts,
    pub(crate) request: RequestFacts,
    pub(crate) bucket: Bucket,
}

impl LineApp {
    /// Its attributes at a moment.
    pub(crate) fn attrs(&self, alloc: Global, moment: &Moment) -> Result<Attrs, AllocError>
        ensures { IfOk result (λ a. a ≡ specs.attributes_in self.now moment.now) }
    {
        match Attrs::of(alloc, &self.facts, &self.request, *moment) {
            Ok(attrs) => Ok(attrs.in_bucket(self.bucket)),
            Err(_) => Err(AllocError),
        }
    }
}

/// The app of a line's member, if it has an appid and a bucket.
pub(crate) fn app_in(alloc: Global, app: &Value) -> Result<Option<LineApp>, AllocError>
    ensures { IfOk result (λ a. a ≡ specs.app_in (view app.now)) }
{
    let Some(appid) = text_in(app, "appid") else {
        return Ok(None);
    };
    let Some(bucket) = bucket_in(app) else {
        return Ok(None);
    };
    let facts = facts_in(alloc, appid, bucket, app)?;
    let request = request_facts_in(alloc, app)?;
    Ok(Some(LineApp {
        facts,
        request,
        bucket,
    }))
}

fn bucket_in(app: &Value) -> Option<Bucket>
    ensures { result ≡ specs.bucket_in (view app.now) }
{
    match number_in(app, "bucket") {
        Some(number) if number < Bucket::COUNT as u64 => Some(Bucket::new(number as u16)),
        _ => None,
    }
}

fn facts_in(alloc: Global, appid: &str, bucket: Bucket, app: &Value) -> Result<AppFacts, AllocError>
    ensures { IfOk result (λ facts. facts ≡ specs.facts_in appid.now bucket (view app.now)) }
{
    Ok(AppFacts {
        appid: Text::new(String::from_str(alloc, appid)?),
        version: owned_in(alloc, app, "version")?,
        brand: owned_in(alloc, app, "brand")?,
        ap: owned_in(alloc, app, "ap")?,
        lang: owned_in(alloc, app, "lang")?,
        cohort: cohort_in(alloc, bucket, app)?,
        installdate: number_in(app, "installdate"),
        updatecheck: number_in(app, "choice").is_some(),
        ping: false,
        event: is_sent("event", "event_left_out", app),
    })
}

fn request_facts_in(alloc: Global, app: &Value) -> Result<RequestFacts, AllocError>
    ensures { IfOk result (λ facts. facts ≡ specs.request_facts_in (view app.now)) }
{
    Ok(RequestFacts {
        requestid: None,
        sessionid: None,
        platform: owned_in(alloc, app, "platform")?,
    })
}

fn owned_in(alloc: Global, app: &Value, name: &str) -> Result<Option<Text>, AllocError>
    ensures { IfOk result (λ text. text ≡ events.text_in name.now (view app.now)) }
{
    match text_in(app, name) {
        Some(text) => Ok(Some(Text::new(String::from_str(alloc, text)?))),
        None => Ok(None),
    }
}

/// Whether the line has a member of this name, or how many bytes of it are left out.
pub(crate) fn is_sent(name: &str, cut: &str, app: &Value) -> bool
    ensures { result ≡ specs.is_sent name.now cut.now (view app.now) }
{
    text_in(app, name).is_some() || number_in(app, cut).is_some()
}

/// Whether the client's cohort named the bucket.
pub(crate) fn is_named(app: &Value) -> bool
    ensures { result ≡ specs.is_named (view app.now) }
{
    match flag_in(app, "named") {
        Some(named) => named,
        None => false,
    }
}

// The cohort that named the bucket, if one did.
fn cohort_in(alloc: Global, bucket: Bucket, app: &Value) -> Result<Option<Text>, AllocError>
    ensures { IfOk result (λ text. text ≡ specs.cohort_in bucket (view app.now)) }
{
    if !is_named(app) {
        return Ok(None);
    }
    Ok(Some(cohort_of(alloc, bucket)?))
}

fn cohort_of(alloc: Global, bucket: Bucket) -> Result<Text, AllocError>
    ensures { IfOk result (λ text. text ≡ cohort_of_bucket bucket) }
{
    let digits = four_digits(bucket.number());
    let Ok(digits) = str::from_utf8(&digits) else {
        return Err(AllocError);
    };
    let mut cohort = String::from_str(alloc, "b:")?;
    cohort.push_str(digits)?;
    Ok(Text::new(cohort))
}
