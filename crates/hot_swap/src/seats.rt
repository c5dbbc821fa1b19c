//! What the seats (ghost tokens) of a publisher and its watchers know: the publisher. No value of
//! these types is made; they are names for definitions.

use crate::published_ruleset::PublishedRuleset;
use crate::publisher_id::PublisherId;
use atomic_table::{Join, Split};
use crossbeam_utils::rule::{Outcome, Protocol};

/// The rule: all seats that know a publisher know the same one.
pub struct OnePublisher;

impl Protocol<PublishedRuleset, Option<PublisherId>> for OnePublisher {
    ghost use Rattle.std.specs.Prelude.{None};
    ghost use Rattle.hot_swap.specs.Seats.{KnowOnePublisher};

    ghost holds = { KnowOnePublisher };

    ghost first = { None };
}

/// What a seat knows after a look or a publish.
pub struct PublisherKnown;

impl Outcome<PublishedRuleset, Option<PublisherId>> for PublisherKnown {
    ghost use Rattle.hot_swap.specs.Seats.{NamesPublisher};

    ghost then = { NamesPublisher };
}

/// The publisher shares what it knows with a watcher.
pub struct Shared;

impl Split<Option<PublisherId>> for Shared {
    ghost left = { λ v. v };

    ghost right = { λ v. v };
}

/// A new watcher, which knows nothing, takes over what was shared.
pub struct Taken;

impl Join<Option<PublisherId>> for Taken {
    ghost use Rattle.std.specs.Prelude.{None};

    ghost both = { λ v w. w };

    ghost spent = { None };
}
