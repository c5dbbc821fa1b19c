//! What a member of a request has to be, so that it counts.

ghost use Rattle.std.specs.Prelude.{◌≡◌, Some, is_some};
ghost use Rattle.attrs.specs.Facts.{known_day};
ghost use Rattle.serde_json.specs.Find.{as_str};
ghost use Rattle.serde_json.specs.View.{view};
ghost use Rattle.omaha_json.specs.Request as requests;
ghost use Rattle.dry_run.specs.Members as specs;

use attrs::Context;
use serde_json::Value;

/// The most bytes of a text that an attribute keeps.
const MOST_KEPT: usize = 1024;

/// What a member has to be.
#[derive(Clone, Copy)]
pub(crate) enum MemberKind {
    /// A text.
    Text,
    /// A text of at most 1024 bytes, which rules can test as an attribute.
    Attribute,
    /// The same. The numbers of a longer version also count.
    Version,
    /// A day of installation that isn't the unknown day.
    Day,
    /// An object.
    Object,
    /// Anything but null.
    Value,
}

/// Whether a member with this value counts.
pub(crate) fn fits(wanted: MemberKind, value: &Value) -> bool
    ensures { result ≡ specs.fits wanted (view value.now) }
{
    match wanted {
        MemberKind::Text => value.as_str().is_some(),
        MemberKind::Attribute => is_short(value),
        MemberKind::Version => is_short(value),
        MemberKind::Day => is_known(value.as_u64()),
        MemberKind::Object => value.as_object().is_some(),
        MemberKind::Value => is_value(value),
    }
}

// Whether it is a text that an attribute keeps.
fn is_short(value: &Value) -> bool
    ensures { result ≡ specs.is_short (as_str (view value.now)) }
{
    match value.as_str() {
        Some(text) => text.len() <= MOST_KEPT,
        None => false,
    }
}

// Whether a number is a known day.
fn is_known(number: Option<u64>) -> bool
    ensures { result ≡ is_some (known_day number) }
{
    match number {
        Some(day) if day < Context::UNKNOWN_DAY as u64 => true,
        _ => false,
    }
}

fn is_value(value: &Value) -> bool
    ensures { result ≡ requests.is_value (Some (view value.now)) }
{
    !value.is_null()
}
