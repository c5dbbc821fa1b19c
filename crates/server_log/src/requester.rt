//! By what a request is known: its id, and the bucket that this gives.

ghost use Rattle.std.specs.Prelude.{◌≡◌};
ghost use Rattle.attrs.specs.Bucket as specs;

use attrs::{Bucket, RequestFacts, hashed_bucket};
use omaha_json::{FoundApp, Request};

/// The text that gives a request its bucket: its id, or its session's if that is empty or absent;
/// empty if it has neither.
pub(crate) fn requester_id(request: &RequestFacts) -> &str
    ensures { result.now ≡ specs.requester_id request.now }
{
    match &request.requestid {
        Some(id) if !id.as_str().is_empty() => id.as_str(),
        _ => match &request.sessionid {
            Some(id) => id.as_str(),
            None => "",
        },
    }
}

/// The hashed bucket if an app is unknown to the server; otherwise 0, since a hash takes time.
pub(crate) fn bucket_of_unknown(request: &Request, found: &[Option<FoundApp<'_>>]) -> Bucket {
    for app in found {
        if app.is_none() {
            return hashed_bucket(request.facts());
        }
    }
    Bucket::new(0)
}
