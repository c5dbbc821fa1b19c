//! Possible results of a condition, for apps whose version and bucket are known.

ghost use Rattle.std.specs.Prelude.{◌≡◌};
ghost use Rattle.warnings.specs.Possible as specs;

use crate::spot::Spot;

/// Whether a condition may hold, and whether it may fail; at least one is set.
#[derive(Clone, Copy)]
pub(crate) struct Possible {
    pub holds: bool,
    pub fails: bool,
}

/// The client for which a rule is evaluated.
#[derive(Clone, Copy)]
pub(crate) enum Clients {
    /// All clients whose version lies at this spot, with any other attributes and any counter
    /// replies.
    AllAt(Spot),
    /// The one client that sends just these attributes, with each counter replying 0.
    One,
}

impl Possible {
    /// Decided: only this result is possible.
    pub fn decided(holds: bool) -> Possible
        ensures { result ≡ specs.decided holds }
    {
        Possible {
            holds,
            fails: !holds,
        }
    }

    /// Either result is possible.
    pub fn undecided() -> Possible
        ensures { result ≡ specs.undecided }
    {
        Possible {
            holds: true,
            fails: true,
        }
    }

    /// The result of `not`.
    pub fn negated(self) -> Possible
        ensures { result ≡ specs.negated self }
    {
        Possible {
            holds: self.fails,
            fails: self.holds,
        }
    }

    /// The result of `and`.
    pub fn both(self, other: Possible) -> Possible
        ensures { result ≡ specs.both self other }
    {
        Possible {
            holds: self.holds && other.holds,
            fails: self.fails || other.fails,
        }
    }

    /// The result of `or`.
    pub fn either(self, other: Possible) -> Possible
        ensures { result ≡ specs.either self other }
    {
        Possible {
            holds: self.holds || other.holds,
            fails: self.fails && other.fails,
        }
    }
}
