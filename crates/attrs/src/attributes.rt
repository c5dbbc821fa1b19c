//! The attributes of an app: its context, and seven texts by number. The texts are those in the
//! app's facts, which the request shares; one over 1024 bytes counts as empty.

ghost use Rattle.std.specs.Prelude.{◌≡◌, ◌<◌, [], Some, codes, slice_index_or, IfOk, option_copied};
ghost use Rattle.attrs.specs.Bucket as specs;
ghost use Rattle.attrs.specs.Context.{HasContextRanges};
ghost use Rattle.attrs.specs.Attributes.{AreShort};

use crate::app_context::{context_in, plain_context};
use crate::bucket::{Bucket, hashed_bucket};
use crate::context::Context;
use crate::facts::{AppFacts, RequestFacts};
use crate::kept::{copied, keep_some, keep_text, own, short, short_or_none};
use crate::moment::Moment;
use crate::shared_facts::SharedFacts;
use crate::text::{Text, lent};
use std::alloc::Global;
use std::error::Error;
use std::fmt;
use std::marker::Model;

/// Why no attributes were made.
#[derive(Clone, Copy, Debug)]
pub enum AttrFault {
    /// An allocation failed.
    Memory,
}

impl fmt::Display for AttrFault {
    ghost output = { λ _. Some (codes "out of memory") };

    fn fmt<W: fmt::Write>(&self, f: &mut fmt::Formatter<W>) -> fmt::Result {
        f.write_str("out of memory")
    }
}

impl Error for AttrFault {}

/// The attributes of one app of a request at a moment.
#[derive(Drop)]
pub struct Attrs {
    context: Context,
    app: SharedFacts,
    platform: Option<Text>,
}

impl Model for Attrs {
    ghost use Rattle.attrs.specs.Attributes.{Attributes};
    ghost use Rattle.attrs.specs.Facts.{texts_with};

    ghost Value = { Attributes };

    ghost view = { λ a. record {
      context = a.context;
      texts = texts_with a.app a.platform;
    } };
}

impl Attrs {
    ghost use Rattle.attrs.specs.Attributes.{plain};
    ghost use Rattle.attrs.specs.Facts.{attributes_of};
    ghost use Rattle.attrs.specs.Helpers.{attribute};

    /// An app that requests an update on day 0 at second 0, with only these attributes. A version
    /// text that is too long to be kept still gives its numbers.
    // open: whether an allocation fails, its one error.
    pub fn plain(
        alloc: Global,
        appid: &str,
        version: Option<&str>,
        bucket: u16,
    ) -> Result<Attrs, AttrFault>
        requires { bucket < 10000 }
        ensures { IfOk result (λ a. a ≡ plain appid.now (option_copied version.entry) bucket) }
    {
        let app = AppFacts {
            appid: keep_text(alloc, appid)?,
            version: keep_some(alloc, version)?,
            brand: None,
            ap: None,
            lang: None,
            cohort: None,
            installdate: None,
            updatecheck: true,
            ping: false,
            event: false,
        };
        Ok(Attrs {
            context: plain_context(version, Bucket::new(bucket)),
            app: own(alloc, app)?,
            platform: None,
        })
    }

    /// The attributes of an app at a moment, from its facts, which are copied.
    // open: whether an allocation fails, its one error.
    pub fn of(
        alloc: Global,
        app: &AppFacts,
        request: &RequestFacts,
        moment: Moment,
    ) -> Result<Attrs, AttrFault>
        ensures { IfOk result (λ a. a ≡ attributes_of app.now request.now moment) }
    {
        Ok(Attrs {
            context: context_in(app, hashed_bucket(request), moment),
            app: copied(alloc, app)?,
            platform: keep_some(alloc, lent(&request.platform))?,
        })
    }

    /// As `of`, for an app of a request whose hashed bucket is known. The app's facts are shared;
    /// only the platform in the request's facts is copied.
    // open: whether an allocation fails, its one error.
    pub fn of_hashed(
        alloc: Global,
        app: &SharedFacts,
        request: &RequestFacts,
        hashed: Bucket,
        moment: Moment,
    ) -> Result<Attrs, AttrFault>
        requires { hashed ≡ specs.hashed_bucket request.now }
        ensures { IfOk result (λ a. a ≡ attributes_of app.now request.now moment) }
    {
        let Ok(shared) = app.share() else {
            return Err(AttrFault::Memory);
        };
        Ok(Attrs {
            context: context_in(app.facts(), hashed, moment),
            app: shared,
            platform: keep_some(alloc, lent(&request.platform))?,
        })
    }

    /// These attributes in another bucket, which no cohort names.
    pub fn in_bucket(self, bucket: Bucket) -> Attrs
        ensures { result ≡ record self { context = record self.context { bucket = bucket } } }
    {
        let context = Context {
            bucket: bucket.number(),
            ..self.context
        };
        Attrs { context, ..self }
    }

    /// The context of these attributes.
    pub fn context(&self) -> Context
        ensures { result ≡ self.now.context }
    {
        self.context
    }

    /// The type's invariant: the context is in its ranges, and no text is over 1024 bytes.
    #[tactic(auto, using(crate::proofs::ShortTexts::all_are_short))]
    pub fn invariant_law(&self)
        ensures context { HasContextRanges self.now.context }
        ensures texts { AreShort self.now.texts }
    {
        self.context.invariant_law();
    }

    /// The text of a number, which is empty if no attribute has the number.
    pub fn text(&self, number: u64) -> &str
        ensures { result.now ≡ slice_index_or self.now.texts number [] }
    {
        match self.attribute(number) {
            Some(text) => text,
            None => "",
        }
    }

    // The text of a number, if an attribute has it.
    pub(crate) fn attribute(&self, number: u64) -> Option<&str>
        ensures { option_copied result ≡ attribute self.now number }
    {
        let app = self.app.facts();
        match number {
            0 => Some(short(app.appid.as_str())),
            1 => Some(short_or_none(&app.version)),
            2 => Some(short_or_none(&app.brand)),
            3 => Some(short_or_none(&app.ap)),
            4 => Some(short_or_none(&app.lang)),
            5 => Some(short_or_none(&app.cohort)),
            6 => Some(short_or_none(&self.platform)),
            _ => None,
        }
    }
}
