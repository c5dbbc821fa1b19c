//! How the texts of a request are kept: one over 1024 bytes counts as empty.

ghost use Rattle.std.specs.Prelude.{◌≡◌, Some, IfOk, option_copied};
ghost use Rattle.attrs.specs.Attributes.{kept_text};
ghost use Rattle.attrs.specs.Facts.{texts_with};

use crate::attributes::AttrFault;
use crate::facts::AppFacts;
use crate::shared_facts::SharedFacts;
use crate::text::{Text, lent};
use std::alloc::Global;

/// A text over this many bytes is kept as an empty one.
const TEXT_LIMIT: usize = 1024;

/// A text as it is kept: empty if it is too long.
pub(crate) fn short(text: &str) -> &str
    ensures { result.now ≡ kept_text (Some text.now) }
{
    if text.len() > TEXT_LIMIT {
        return "";
    }
    text
}

/// A text as it is kept, also empty if it is absent.
pub(crate) fn short_or_none(text: &Option<Text>) -> &str
    ensures { result.now ≡ kept_text text.now }
{
    match text {
        Some(text) => short(text.as_str()),
        None => "",
    }
}

/// A copy of a text as it is kept.
pub(crate) fn keep_text(alloc: Global, text: &str) -> Result<Text, AttrFault>
    ensures { IfOk result (λ t. t ≡ kept_text (Some text.now)) }
{
    match String::from_str(alloc, short(text)) {
        Ok(copy) => Ok(Text::new(copy)),
        Err(_) => Err(AttrFault::Memory),
    }
}

/// A copy of a text that may be absent, as it is kept.
#[tactic(auto, using(crate::proofs::ShortTexts::kept_again))]
pub(crate) fn keep_some(alloc: Global, text: Option<&str>) -> Result<Option<Text>, AttrFault>
    ensures { IfOk result (λ t. kept_text t ≡ kept_text (option_copied text.entry)) }
{
    match text {
        Some(text) => Ok(Some(keep_text(alloc, text)?)),
        None => Ok(None),
    }
}

/// Moves the facts into a `SharedFacts` with one owner.
pub(crate) fn own(alloc: Global, app: AppFacts) -> Result<SharedFacts, AttrFault>
    ensures { IfOk result (λ s. s ≡ app) }
{
    match SharedFacts::new(alloc, app) {
        Ok(facts) => Ok(facts),
        Err(_) => Err(AttrFault::Memory),
    }
}

/// A copy of the app's texts that a program may read.
pub(crate) fn copied(alloc: Global, app: &AppFacts) -> Result<SharedFacts, AttrFault>
    ensures { IfOk result (λ s. (platform : _) → texts_with s platform
        ≡ texts_with app.now platform) }
{
    let copy = AppFacts {
        appid: keep_text(alloc, app.appid.as_str())?,
        version: keep_some(alloc, lent(&app.version))?,
        brand: keep_some(alloc, lent(&app.brand))?,
        ap: keep_some(alloc, lent(&app.ap))?,
        lang: keep_some(alloc, lent(&app.lang))?,
        cohort: keep_some(alloc, lent(&app.cohort))?,
        installdate: app.installdate,
        updatecheck: app.updatecheck,
        ping: app.ping,
        event: app.event,
    };
    own(alloc, copy)
}
