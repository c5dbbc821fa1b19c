//! A watcher, which reads the newest ruleset without waiting.

ghost use Rattle.std.specs.Prelude.{◌≡◌, ◌⊎◌, Some, IfOk, IfErr, IfSome};
ghost use Rattle.std.specs.Arc.{arc_value};
ghost use Rattle.left_right.specs.Sides.{view};
ghost use Rattle.hot_swap.specs.Published.{HasLast, Extends};

use crate::known_prefix::{Generation, KnownPrefix};
use crate::notice::Notice;
use crate::published_ruleset::PublishedRuleset;
use crate::publisher_id::PublisherId;
use crate::seats::{OnePublisher, PublisherKnown};
use crate::swap_fault::SwapFault;
use core::mem::replace_with;
use left_right::reader::Reader;
use ruleset::Ruleset;
use std::marker::Model;
use std::sync::Arc;

/// A reader of what is published.
pub(crate) type PublishedReader = Reader<PublishedRuleset, Option<PublisherId>, OnePublisher>;

/// Reads the rulesets that a publisher installs.
#[derive(Drop)]
pub struct Watcher {
    reader: PublishedReader,
    known: KnownPrefix,
}

impl Model for Watcher {
    ghost use Rattle.std.specs.Prelude.{◌≡◌, Some};
    ghost use Rattle.left_right.specs.Sides.{view as sides_view};
    ghost use Rattle.hot_swap.specs.Published.{KnownPrefix};

    ghost Value = { KnownPrefix };

    ghost view = { λ w. w.known };

    ghost invariant = { λ w. sides_view w.reader.place ≡ Some w.known.publisher };
}

impl Watcher {
    ghost use Rattle.hot_swap.specs.Published.{IsLatest};

    /// A watcher that knows this list.
    pub(crate) fn new(reader: PublishedReader, known: KnownPrefix) -> Watcher
        requires { view reader.place ≡ Some known.publisher }
        ensures { result ≡ known }
    {
        Watcher { reader, known }
    }

    /// The newest ruleset with its generation, which never goes back. Returns H2 if the ruleset
    /// can't have another owner (the watcher may still have advanced) or nothing is published any
    /// more.
    // open: how new the ruleset is, unless the watcher learned a notice, and that H2 isn't always
    // returned: tests.
    pub fn current(&mut self) -> Result<(Generation, Arc<Ruleset>), SwapFault>
        ensures onwards { Extends self.old self.new }
        ensures newest { IfOk result (λ r. IsLatest self.new r.0 (arc_value r.1)) }
        ensures place { IfErr result (λ e. e ≡ SwapFault.NoPlace) }
    {
        let known = self.known.copy();
        let (known, rules) = replace_with(&mut self.reader, known, |reader, known| {
            look(reader, known)
        });
        self.known = known;
        match rules {
            Some(rules) => Ok((self.known.generation(), rules)),
            None => Err(SwapFault::NoPlace),
        }
    }

    /// Learns a notice of its publisher: from then on it returns nothing older.
    pub fn learn(&mut self, notice: &Notice)
        requires { notice.now.publisher ≡ self.old.publisher }
        ensures onwards { Extends self.old self.new }
        ensures noticed { Extends notice.now self.new }
        // So it is the longer of the two.
        ensures one { (self.new ≡ self.old) ⊎ (self.new ≡ notice.now) }
    {
        self.known.learn(notice.known());
    }
}

// Reads once what is published.
fn look(
    reader: PublishedReader,
    known: KnownPrefix,
) -> (PublishedReader, (KnownPrefix, Option<Arc<Ruleset>>))
    requires { view reader.place ≡ Some known.publisher }
    ensures same { view result.0.place ≡ Some known.publisher }
    ensures onwards { Extends known result.1.0 }
    ensures newest { IfSome result.1.1 (λ rules. HasLast result.1.0.rulesets (arc_value rules)) }
{
    match reader.enter_as::<PublisherKnown>() {
        Ok(reading) => {
            let seen = reading.get().look(known);
            (reading.leave(), seen)
        }
        Err(reader) => (reader, (known, None)),
    }
}
