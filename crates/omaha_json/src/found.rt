//! What a reply says of an app of a request that is in the ruleset.

ghost use Rattle.std.specs.Prelude.{◌≡◌};

use attrs::Bucket;
use releases::Release;
use std::marker::Model;

/// What a reply says of an app that is in the ruleset: the release that was chosen, and the bucket.
#[derive(Drop)]
pub struct FoundApp<'a> {
    releases: &'a [Release],
    bucket: Bucket,
    choice: Option<u8>,
}

impl<'a> Model for FoundApp<'a> {
    ghost use Rattle.omaha_json.specs.Found as specs;

    ghost Value = { specs.FoundApp };

    ghost view = { λ f. record {
      releases = f.releases.now;
      bucket = f.bucket;
      choice = f.choice;
    } };
}

impl<'a> FoundApp<'a> {
    ghost use Rattle.omaha_json.specs.Found as specs;

    /// The app with these releases, the bucket of the request's app, and the choice of its run. The
    /// choice is `None` if no run was made, since the app requested no update.
    pub fn new(releases: &'a [Release], bucket: Bucket, choice: Option<u8>) -> FoundApp<'a>
        ensures { result ≡ specs.found_with releases.now choice bucket }
    {
        FoundApp {
            releases,
            bucket,
            choice,
        }
    }

    /// The app's releases.
    pub fn releases(&self) -> &'a [Release]
        ensures { result.now ≡ self.now.releases }
    {
        self.releases
    }

    /// The bucket of the app.
    pub fn bucket(&self) -> Bucket
        ensures { result ≡ self.now.bucket }
    {
        self.bucket
    }

    /// The choice of its run; `None` if no run was made.
    pub fn choice(&self) -> Option<u8>
        ensures { result ≡ self.now.choice }
    {
        self.choice
    }
}
