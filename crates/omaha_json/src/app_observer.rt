//! Observers of the raw JSON of a request's apps, such as a log, which prints more than the apps'
//! facts.

ghost use Rattle.std.specs.Prelude.{◌≡◌, IfOk, option_map, string_bytes};
ghost use Rattle.serde_json.specs.View.{view};
ghost use Rattle.omaha_json.specs.Event.{IsEventText, event_in};
ghost use Rattle.omaha_json.specs.Ignored.{ignores_text, ignores_installdate};

use serde_json::Value;
use std::alloc::{AllocError, Global};

/// An app of a request as its client wrote it.
#[derive(Clone, Copy)]
pub struct WrittenApp<'a> {
    value: &'a Value,
}

impl<'a> WrittenApp<'a> {
    // The app with this value.
    pub(crate) fn of(value: &'a Value) -> WrittenApp<'a>
        ensures { result.value.now ≡ value.now }
    {
        WrittenApp { value }
    }

    /// The text of its member `event`, if that exists and isn't null. It is JSON without blanks,
    /// with members ordered by name, and numbers and escapes as this writer prints them.
    // open: whether an allocation fails; how a float is printed.
    pub fn event_text(&self, alloc: Global) -> Result<Option<String>, AllocError>
        ensures { IfOk result (λ t.
            IsEventText (event_in (view self.now.value.now)) (option_map string_bytes t)) }
    {
        match event_of(self.value) {
            Some(event) => Ok(Some(event.to_string(alloc)?)),
            None => Ok(None),
        }
    }

    /// Whether its member of this name exists and counts as absent, since it isn't a text.
    pub fn ignores_text(&self, name: &str) -> bool
        ensures { result ≡ ignores_text name.now (view self.now.value.now) }
    {
        match self.value.get(name) {
            Some(member) => member.as_str().is_none(),
            None => false,
        }
    }

    /// Whether `installdate` is ignored, since it isn't a whole number of at least 0 that fits 64
    /// bits.
    pub fn ignores_installdate(&self) -> bool
        ensures { result ≡ ignores_installdate (view self.now.value.now) }
    {
        match self.value.get("installdate") {
            Some(member) => member.as_u64().is_none(),
            None => false,
        }
    }
}

// The member `event` of an app, if it exists and isn't null.
fn event_of(app: &Value) -> Option<&Value>
    ensures { option_map (λ v. view v.now) result ≡ event_in (view app.now) }
{
    match app.get("event") {
        Some(event) if !event.is_null() => Some(event),
        _ => None,
    }
}

/// Observes each app of a request, in its order. It can't change what is read.
pub trait AppObserver {
    /// The next app was read.
    fn observe_app(&mut self, app: WrittenApp<'_>);
}
