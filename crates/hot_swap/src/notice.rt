//! A notice: what a publisher had installed at some moment, for watchers to learn.

ghost use Rattle.std.specs.Prelude.{◌≡◌};

use crate::known_prefix::KnownPrefix;
use std::marker::Model;

/// What a publisher had installed when the notice was made. Watchers in any thread may learn it,
/// any number of times.
#[derive(Drop)]
pub struct Notice {
    known: KnownPrefix,
}

impl Model for Notice {
    ghost use Rattle.hot_swap.specs.Published.{KnownPrefix};

    ghost Value = { KnownPrefix };

    ghost view = { λ n. n.known };
}

impl Notice {
    /// A notice of this list.
    pub(crate) fn new(known: KnownPrefix) -> Notice
        ensures { result ≡ known }
    {
        Notice { known }
    }

    /// The list in it.
    pub(crate) fn known(&self) -> &KnownPrefix
        ensures { result.now ≡ self.now }
    {
        &self.known
    }
}
