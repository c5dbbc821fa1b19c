//! A ruleset as its loader returns it.

use crate::ruleset::Ruleset;
use cells::Directory;

/// A ruleset with its arrays, and a digest of what it was loaded from.
#[derive(Drop)]
pub struct LoadedRuleset {
    pub rules: Ruleset,
    /// The directory before the load, followed by the ruleset's own arrays.
    pub directory: Directory,
    /// The digest of all that was loaded: for a manifest SHA-256 of its bytes and of its files'.
    pub digest: [u8; 32],
}
