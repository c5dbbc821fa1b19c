//! What the clients of a simulation send.

ghost use Rattle.std.specs.Prelude.{◌≡◌, IfOk, OnOk};
ghost use Rattle.attrs.specs.Bucket as specs;

use attrs::{AppFacts, Attrs, Moment, RequestFacts, Text};
use std::alloc::{AllocError, Global};

/// What all clients send: about the app, about themselves, and when. For each app the appid is
/// replaced, and for each bucket the cohort.
#[derive(Drop)]
pub struct Client {
    pub app: AppFacts,
    pub request: RequestFacts,
    pub moment: Moment,
}

impl Client {
    ghost use Rattle.simulate.specs.Clients.{in_bucket, requesting, attributes};
    ghost use Rattle.simulate.specs.Clients.{IsSameButCohort, IsSameButApp};

    /// Changes the app for which the client requests an update.
    pub(crate) fn set_appid(&mut self, alloc: Global, appid: &str) -> Result<(), AllocError>
        ensures requests { OnOk result (self.new ≡ requesting self.old appid.now) }
        ensures same { IsSameButApp self.old self.new }
    {
        let appid = String::from_str(alloc, appid)?;
        self.app.appid = Text::new(appid);
        Ok(())
    }

    /// Moves to another bucket.
    pub(crate) fn move_to(&mut self, alloc: Global, bucket: u16) -> Result<(), AllocError>
        ensures moves { OnOk result (self.new ≡ in_bucket self.old bucket) }
        ensures same { IsSameButCohort self.old self.new }
    {
        let cohort = cohort_of(alloc, bucket)?;
        self.app.cohort = Some(cohort);
        Ok(())
    }

    /// The attributes that a program reads for this client.
    pub(crate) fn attributes(&self, alloc: Global) -> Result<Attrs, AllocError>
        ensures { IfOk result (λ a. a ≡ attributes self.now) }
    {
        let moment = self.moment;
        match Attrs::of(alloc, &self.app, &self.request, moment) {
            Ok(attrs) => Ok(attrs),
            Err(_) => Err(AllocError),
        }
    }
}

// The cohort that a server gave to the client of a bucket: `b:` and four digits.
fn cohort_of(alloc: Global, bucket: u16) -> Result<Text, AllocError>
    ensures { IfOk result (λ text. text ≡ specs.cohort_of_bucket bucket) }
{
    let first = bucket / 1000 % 10;
    let second = bucket / 100 % 10;
    let third = bucket / 10 % 10;
    let last = bucket % 10;
    let text = format!(in alloc; "b:{first}{second}{third}{last}")?;
    Ok(Text::new(text))
}
