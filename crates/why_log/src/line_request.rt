//! The request that a line of a log is about, as far as the line has it.

ghost use Rattle.std.specs.Prelude.{◌≡◌, IfOk, option_map};
ghost use Rattle.serde_json.specs.View.{items_view, view};
ghost use Rattle.why_log.specs.Requests as specs;

use crate::line_app::{LineApp, app_in};
use attrs::Moment;
use moments::second_of_time;
use report::{list_in, text_in};
use serde_json::Value;
use std::alloc::{AllocError, Global};

/// The request of a connection.
#[derive(Drop)]
pub(crate) struct LineRequest {
    pub(crate) moment: Moment,
    pub(crate) apps: Vec<LineApp>,
}

/// The request of a connection's line, if the line has a time, and each app an appid and a bucket.
pub(crate) fn request_in(alloc: Global, line: &Value) -> Result<Option<LineRequest>, AllocError>
    ensures { IfOk result (λ request. option_map specs.request_of request
        ≡ specs.request_in (view line.now)) }
{
    let Some(moment) = moment_in(line) else {
        return Ok(None);
    };
    match apps_in(alloc, listed_in(line))? {
        Some(apps) => Ok(Some(LineRequest { moment, apps })),
        None => Ok(None),
    }
}

/// The moment of a line.
pub(crate) fn moment_in(line: &Value) -> Option<Moment>
    ensures { result ≡ specs.moment_in (view line.now) }
{
    match text_in(line, "time") {
        Some(time) => second_of_time(time),
        None => None,
    }
}

/// The list of a line's apps, which is empty if the line has none.
pub(crate) fn listed_in(line: &Value) -> &[Value]
    ensures { items_view result.now ≡ specs.listed_in (view line.now) }
{
    match list_in(line, "apps") {
        Some(apps) => apps,
        None => &[],
    }
}

fn apps_in(alloc: Global, values: &[Value]) -> Result<Option<Vec<LineApp>>, AllocError>
    ensures { IfOk result (λ apps. option_map (λ v. v.items) apps
        ≡ specs.apps_in (items_view values.now)) }
{
    let mut apps = Vec::with_capacity(alloc, values.len())?;
    let mut left = values;
    while let [value, others @ ..] = left {
        let Some(app) = app_in(alloc, value)? else {
            return Ok(None);
        };
        apps.push(app)?;
        left = others;
    }
    Ok(Some(apps))
}
