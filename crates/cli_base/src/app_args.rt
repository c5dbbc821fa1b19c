//! The app that the options describe.

ghost use Rattle.std.specs.Prelude.{◌≡◌, [], IfOk, false};
ghost use Rattle.std.specs.Option.{option_copied, unwrap_or};

use attrs::{AppFacts, Attrs, Bucket, Moment, RequestFacts, Text};
use std::alloc::{AllocError, Global};

/// An app as the options describe it: its texts, the moment of its request, and the day of its
/// installation, counted from 2007-01-01. `ping` and `event` say what its request has besides the
/// update check.
#[derive(Clone, Copy)]
pub struct AppArgs<'a> {
    pub appid: Option<&'a str>,
    pub version: Option<&'a str>,
    pub brand: Option<&'a str>,
    pub ap: Option<&'a str>,
    pub lang: Option<&'a str>,
    pub cohort: Option<&'a str>,
    pub platform: Option<&'a str>,
    pub ping: bool,
    pub event: bool,
    pub moment: Moment,
    pub installed: Option<u32>,
}

impl<'a> AppArgs<'a> {
    ghost use Rattle.attrs.specs.Facts.{attributes_of};
    ghost use Rattle.cli_base.specs.Apps as specs;

    /// The app's part of its request, which has an update check.
    // open: whether an allocation fails.
    pub fn app(&self, alloc: Global) -> Result<AppFacts, AllocError>
        ensures { IfOk result (λ app. app ≡ specs.app_facts self.now) }
    {
        let appid = text_of(alloc, text_or_empty(self.appid))?;
        // Tests for memory once, at the end: each `?` would drop every text before it.
        let mut copies = Copies::new(alloc);
        let app = AppFacts {
            appid,
            version: copies.of(self.version),
            brand: copies.of(self.brand),
            ap: copies.of(self.ap),
            lang: copies.of(self.lang),
            cohort: copies.of(self.cohort),
            installdate: date_of(self.installed),
            updatecheck: true,
            ping: self.ping,
            event: self.event,
        };
        if copies.is_refused {
            return Err(AllocError);
        }
        Ok(app)
    }

    /// The rest of that request: it has no id, and names no session.
    // open: whether an allocation fails.
    pub fn request(&self, alloc: Global) -> Result<RequestFacts, AllocError>
        ensures { IfOk result (λ request. request ≡ specs.request_facts self.now) }
    {
        Ok(RequestFacts {
            requestid: None,
            sessionid: None,
            platform: copied_text(alloc, self.platform)?,
        })
    }

    /// The moment of its request.
    pub fn moment(&self) -> Moment
        ensures { result ≡ specs.moment self.now }
    {
        self.moment
    }

    /// Its attributes, in this bucket, or, for `None`, in the one that its cohort names.
    // open: whether an allocation fails.
    pub fn attributes(&self, alloc: Global, bucket: Option<Bucket>) -> Result<Attrs, AllocError>
        ensures { IfOk result (λ a. a ≡ specs.app_attributes self.now bucket) }
    {
        let app = self.app(alloc)?;
        let attrs = self.attributes_of(alloc, &app);
        drop(app);
        match bucket {
            Some(bucket) => Ok(attrs?.in_bucket(bucket)),
            None => attrs,
        }
    }

    // The attributes of these facts in its request, in the bucket that its cohort names.
    fn attributes_of(&self, alloc: Global, app: &AppFacts) -> Result<Attrs, AllocError>
        ensures { IfOk result (λ a. a
            ≡ attributes_of app.now (specs.request_facts self.now) (specs.moment self.now)) }
    {
        let request = self.request(alloc)?;
        let attrs = Attrs::of(alloc, app, &request, self.moment());
        drop(request);
        match attrs {
            Ok(attrs) => Ok(attrs),
            Err(_) => Err(AllocError),
        }
    }
}

// Copies texts, and records whether an allocation failed.
#[derive(Clone, Copy)]
struct Copies {
    alloc: Global,
    is_refused: bool,
}

impl Copies {
    fn new(alloc: Global) -> Copies
        ensures { result.is_refused ≡ false }
    {
        Copies {
            alloc,
            is_refused: false,
        }
    }

    fn of(&mut self, text: Option<&str>) -> Option<Text>
        ensures same { self.new.is_refused ≡ false → result ≡ option_copied text.entry }
        ensures kept { self.new.is_refused ≡ false → self.old.is_refused ≡ false }
    {
        match copied_text(self.alloc, text) {
            Ok(copy) => copy,
            Err(_) => {
                self.is_refused = true;
                None
            }
        }
    }
}

fn text_or_empty<'a>(text: Option<&'a str>) -> &'a str
    ensures { result.now ≡ unwrap_or (option_copied text.entry) [] }
{
    match text {
        Some(text) => text,
        None => "",
    }
}

fn date_of(day: Option<u32>) -> Option<u64>
    ensures { result ≡ day }
{
    match day {
        Some(day) => Some(day as u64),
        None => None,
    }
}

fn copied_text(alloc: Global, text: Option<&str>) -> Result<Option<Text>, AllocError>
    ensures { IfOk result (λ copy. copy ≡ option_copied text.entry) }
{
    match text {
        Some(text) => Ok(Some(text_of(alloc, text)?)),
        None => Ok(None),
    }
}

fn text_of(alloc: Global, text: &str) -> Result<Text, AllocError>
    ensures { IfOk result (λ copy. copy ≡ text.now) }
{
    Ok(Text::new(String::from_str(alloc, text)?))
}
