//! A request after it was read.

ghost use Rattle.std.specs.Prelude.{◌≡◌};

use attrs::{RequestFacts, SharedFacts};
use std::marker::Model;

/// A request of protocol 3.1, with at most 256 apps.
#[derive(Drop)]
pub struct Request {
    facts: RequestFacts,
    apps: Vec<SharedFacts>,
}

impl Model for Request {
    ghost use Rattle.omaha_json.specs.Request as specs;

    ghost Value = { specs.Request };

    ghost view = { λ r. record { facts = r.facts; apps = r.apps.items } };
}

impl Request {
    ghost use Rattle.omaha_json.specs.Request as specs;

    // The request of these facts and apps.
    pub(crate) fn new(facts: RequestFacts, apps: Vec<SharedFacts>) -> Request
        ensures { result ≡ record { facts = facts; apps = apps.items } }
    {
        Request { facts, apps }
    }

    /// The facts of the request itself.
    pub fn facts(&self) -> &RequestFacts
        ensures { result.now ≡ self.now.facts }
    {
        &self.facts
    }

    /// The facts of each of its apps, in its order.
    pub fn apps(&self) -> &[SharedFacts]
        ensures { result.now ≡ self.now.apps }
    {
        self.apps.as_slice()
    }
}
