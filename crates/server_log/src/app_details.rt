//! What the log keeps of an app as its client wrote it: its event, and which members are ignored.

use crate::app_record::KeptExcerpt;
use crate::kept_texts::{KeptTexts, TextPlace};
use access_log::Excerpt;
use omaha_json::WrittenApp;
use std::alloc::{AllocError, Global};

/// The members that should be texts.
const TEXTS: [&str; 5] = ["ap", "brand", "cohort", "lang", "version"];

/// The details of an app that its facts don't have.
#[derive(Clone, Copy)]
pub(crate) struct AppDetails {
    pub(crate) event: Option<KeptExcerpt>,
    /// The names of members that are ignored.
    pub(crate) ignored: Option<TextPlace>,
}

impl AppDetails {
    /// An app without details.
    pub(crate) const NONE: AppDetails = AppDetails {
        event: None,
        ignored: None,
    };

    /// Keeps the details of an app for its line.
    pub(crate) fn of(
        alloc: Global,
        texts: &mut KeptTexts,
        app: WrittenApp<'_>,
    ) -> Result<AppDetails, AllocError> {
        let event = event_of(alloc, texts, &app)?;
        let ignored = ignored_of(texts, &app)?;
        Ok(AppDetails { event, ignored })
    }
}

// The event of an app, if its client sent one.
fn event_of(
    alloc: Global,
    texts: &mut KeptTexts,
    app: &WrittenApp<'_>,
) -> Result<Option<KeptExcerpt>, AllocError> {
    let Some(text) = app.event_text(alloc)? else {
        return Ok(None);
    };
    match KeptExcerpt::of(texts, Excerpt::of(&text)) {
        Ok(kept) => Ok(Some(kept)),
        Err(_) => Err(AllocError),
    }
}

// The names of the app's members that are ignored.
fn ignored_of(
    texts: &mut KeptTexts,
    app: &WrittenApp<'_>,
) -> Result<Option<TextPlace>, AllocError> {
    let mut ignored = None;
    for name in TEXTS {
        if app.ignores_text(name) {
            ignored = Some(texts.keep_name(ignored, name)?);
        }
    }
    if app.ignores_installdate() {
        ignored = Some(texts.keep_name(ignored, "installdate")?);
    }
    Ok(ignored)
}
