//! An app of a request, as the log keeps it: its facts, what was found for it, and the places of
//! its other texts.

use crate::app_details::AppDetails;
use crate::kept_texts::{KeptTexts, TextPlace};
use access_log::{Excerpt, FurtherMembers, LoggedApp, Outcome};
use attrs::{Bucket, SharedFacts, Text, cohort_bucket, named_or_hashed};
use omaha_json::{FoundApp, release_at};
use std::alloc::AllocError;

/// An app, with what was found for it.
#[derive(Drop)]
pub(crate) struct AppRecord {
    facts: SharedFacts,
    bucket: Bucket,
    /// Whether the server has such an app.
    pub(crate) is_known: bool,
    choice: Option<u8>,
    release: Option<TextPlace>,
    extras: AppExtras,
}

/// The details of an app that its facts don't have.
#[derive(Clone, Copy)]
pub(crate) struct AppExtras {
    pub(crate) details: AppDetails,
    /// The request's platform.
    pub(crate) platform: Option<KeptExcerpt>,
}

/// The place of a text's first bytes, and the length of the whole text.
#[derive(Clone, Copy)]
pub(crate) struct KeptExcerpt {
    text: TextPlace,
    length: u64,
}

impl KeptExcerpt {
    /// Keeps an excerpt.
    pub(crate) fn of(
        texts: &mut KeptTexts,
        excerpt: Excerpt<'_>,
    ) -> Result<KeptExcerpt, AllocError> {
        Ok(KeptExcerpt {
            text: texts.keep(excerpt.text)?,
            length: excerpt.length,
        })
    }

    // The excerpt, for the line.
    fn excerpt<'x>(&self, texts: &'x KeptTexts) -> Excerpt<'x> {
        Excerpt {
            text: texts.at(self.text),
            length: self.length,
        }
    }
}

impl AppRecord {
    /// Keeps an app, what was found for it, and its other details.
    pub(crate) fn of(
        texts: &mut KeptTexts,
        facts: SharedFacts,
        found: &Option<FoundApp<'_>>,
        hashed: Bucket,
        extras: AppExtras,
    ) -> Result<AppRecord, AllocError> {
        let (bucket, choice, release) = match found {
            Some(found) => (found.bucket(), found.choice(), release_of(texts, found)?),
            None => (named_or_hashed(facts.facts(), hashed), None, None),
        };
        Ok(AppRecord {
            facts,
            bucket,
            is_known: found.is_some(),
            choice,
            release,
            extras,
        })
    }

    /// The app, for the line.
    pub(crate) fn logged<'x>(&'x self, texts: &'x KeptTexts) -> LoggedApp<'x> {
        let facts = self.facts.facts();
        LoggedApp {
            appid: Excerpt::brief(facts.appid.as_str()),
            version: brief_of(&facts.version),
            bucket: self.bucket.number(),
            named: is_named(&facts.cohort),
            outcome: self.outcome(texts),
            event: excerpt_of(texts, self.extras.details.event),
            more: self.more(texts),
        }
    }

    // Its members other than its id and version.
    fn more<'x>(&'x self, texts: &'x KeptTexts) -> FurtherMembers<'x> {
        let facts = self.facts.facts();
        FurtherMembers {
            ap: short_of(&facts.ap),
            lang: short_of(&facts.lang),
            brand: short_of(&facts.brand),
            platform: excerpt_of(texts, self.extras.platform),
            installdate: facts.installdate,
            ignored: texts.at_some(self.extras.details.ignored),
        }
    }

    fn outcome<'x>(&self, texts: &'x KeptTexts) -> Outcome<'x> {
        if !self.is_known {
            return Outcome::Unknown;
        }
        match (self.choice, self.release) {
            (None, _) => Outcome::NotRequested,
            (Some(choice), Some(release)) => Outcome::Offered(choice, texts.at(release)),
            (Some(_), None) => Outcome::NoUpdate,
        }
    }
}

// The version of the chosen release, if one was chosen.
fn release_of(
    texts: &mut KeptTexts,
    found: &FoundApp<'_>,
) -> Result<Option<TextPlace>, AllocError> {
    let Some(choice) = found.choice() else {
        return Ok(None);
    };
    match release_at(found.releases(), choice) {
        Some(release) => Ok(Some(texts.keep(release.version())?)),
        None => Ok(None),
    }
}

// A brief excerpt of a text.
fn brief_of(text: &Option<Text>) -> Option<Excerpt<'_>> {
    match text {
        Some(text) => Some(Excerpt::brief(text.as_str())),
        None => None,
    }
}

// A short excerpt of a text.
fn short_of(text: &Option<Text>) -> Option<Excerpt<'_>> {
    match text {
        Some(text) => Some(Excerpt::short(text.as_str())),
        None => None,
    }
}

// Whether a cohort names a bucket.
fn is_named(cohort: &Option<Text>) -> bool {
    match cohort {
        Some(cohort) => cohort_bucket(cohort.as_str()).is_some(),
        None => false,
    }
}

fn excerpt_of<'x>(texts: &'x KeptTexts, kept: Option<KeptExcerpt>) -> Option<Excerpt<'x>> {
    match kept {
        Some(kept) => Some(kept.excerpt(texts)),
        None => None,
    }
}
