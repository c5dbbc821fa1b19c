//! The text by which clients name an app.

ghost use Rattle.std.specs.Prelude.{◌≡◌};
ghost use Rattle.releases.specs.Appid as specs;

/// The most apps of a manifest, and of a request.
pub const MOST_APPS: usize = 256;

/// The most bytes of an appid.
const MAX_APPID: usize = 1024;

/// Whether a text may be an appid: it has 1 to 1024 bytes.
pub fn is_appid(text: &str) -> bool
    ensures { result ≡ specs.is_appid text.now }
{
    1 <= text.len() && text.len() <= MAX_APPID
}
