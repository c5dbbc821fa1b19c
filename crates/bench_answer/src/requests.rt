//! The requests that are served.

use std::alloc::{AllocError, Global};
use std::fmt::Write;

/// One app, which requests an update and pings.
pub(crate) const WORKED: &str = "{\"request\":{\"protocol\":\"3.1\",\"requestid\":\"a\",\
    \"sessionid\":\"\",\"app\":[{\"appid\":\"x\",\"version\":\"1.0\",\"updatecheck\":{},\
    \"ping\":{\"r\":1}}]}}";

/// Appends `count` apps, each of which requests an update.
fn push_apps(body: &mut String, count: u16) -> Result<(), AllocError> {
    for number in 0..count {
        if number > 0 {
            body.push(',')?;
        }
        write!(
            body,
            r#"{{"appid":"app{number}","version":"1.0","updatecheck":{{}}}}"#
        )?;
    }
    Ok(())
}

/// A POST for the first `count` apps of the large ruleset.
pub(crate) fn of_apps(alloc: Global, count: u16) -> Result<Vec<u8>, AllocError> {
    let mut apps = String::new(alloc);
    push_apps(&mut apps, count)?;
    let body = format!(in alloc; r#"{{"request":{{"protocol":"3.1","app":[{apps}]}}}}"#);
    drop(apps);
    post(alloc, body?.as_str())
}

/// A POST of a body, with its head.
pub(crate) fn post(alloc: Global, body: &str) -> Result<Vec<u8>, AllocError> {
    let size = body.len();
    let text = format!(in alloc;
        "POST /service/update2/json HTTP/1.1\r\nHost: h\r\nContent-Length: {size}\r\n\r\n{body}"
    )?;
    Ok(text.into_bytes())
}
