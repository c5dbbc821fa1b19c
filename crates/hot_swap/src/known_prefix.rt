//! What is known of a published list: a prefix of it.

ghost use Rattle.std.specs.Prelude.{◌≡◌, ◌+◌, ◌-◌, ◌^◌, ◌<◌, ◌≤◌, [], ◌∷◌, ◌++◌};
ghost use Rattle.std.specs.Prelude.{◌⊎◌, length, MatchBool};
ghost use Rattle.std.specs.Arc.{arc_value};
ghost use mathlib.Core.List.{IsPrefix};
ghost use Rattle.hot_swap.specs.Book.{id_of};

use crate::book::{CountsRulesets, Enters, Nothing};
use crate::list_end::ListEnd;
use logbook::{Offer, Seen, Start, Word};
use ruleset::Ruleset;
use std::marker::Model;
use std::sync::Arc;

/// The number of a published ruleset. Rulesets are numbered from 1, in the order of their installs.
pub type Generation = u64;

/// A prefix of a published list. The list exists only in the proofs; its length is kept at run
/// time.
#[derive(Drop)]
pub(crate) struct KnownPrefix {
    generation: Generation,
    seen: Seen<Ruleset, u64, CountsRulesets>,
}

impl Model for KnownPrefix {
    ghost use Rattle.std.specs.Prelude.{◌≡◌, length};
    ghost use Rattle.hot_swap.specs.Book.{id_of};
    ghost use Rattle.hot_swap.specs.Published.{KnownPrefix};

    ghost Value = { KnownPrefix };

    ghost view = { λ k. record { publisher = id_of k.seen.book; rulesets = k.seen.log } };

    ghost invariant = { λ k. k.generation ≡ length k.seen.log };
}

impl KnownPrefix {
    /// The empty list of a new publisher, and its end.
    pub(crate) fn open() -> (KnownPrefix, ListEnd)
        ensures empty { result.0.rulesets ≡ [] }
        ensures publisher { id_of result.1.word.book ≡ result.0.publisher }
    {
        let (seen, mut first, _second) = Seen::open(Start::alone(), 0, 0);
        let end = ListEnd::new(Word::tracked(0, &mut first));
        let known = KnownPrefix {
            generation: 0,
            seen,
        };
        (known, end)
    }

    /// How many rulesets are known.
    pub(crate) fn generation(&self) -> Generation
        ensures { result ≡ length self.now.rulesets }
    {
        self.generation
    }

    /// A copy.
    pub(crate) fn copy(&self) -> KnownPrefix
        ensures { result ≡ self.now }
    {
        KnownPrefix {
            generation: self.generation,
            seen: self.seen.again(),
        }
    }

    /// Keeps the longer of the two lists.
    pub(crate) fn learn(&mut self, other: &KnownPrefix)
        requires { other.now.publisher ≡ self.old.publisher }
        ensures publisher { self.new.publisher ≡ self.old.publisher }
        ensures mine { IsPrefix self.old.rulesets self.new.rulesets }
        ensures its { IsPrefix other.now.rulesets self.new.rulesets }
        ensures one { (self.new ≡ self.old) ⊎ (self.new ≡ other.now) }
        ensures newer { length self.old.rulesets ≤ length other.now.rulesets
            → self.new ≡ other.now }
    {
        let mut both = self.seen.again();
        both.learn(&other.seen);
        if self.generation <= other.generation {
            *self = other.copy();
        }
    }

    /// Appends a ruleset to all that is known, and returns true; or appends nothing and returns
    /// false, if the list is longer than what is known.
    pub(crate) fn enter(&mut self, end: &ListEnd, rules: &Arc<Ruleset>) -> bool
        requires room { length self.old.rulesets < 2 ^ 64 - 1 }
        requires publisher { id_of end.now.word.book ≡ self.old.publisher }
        ensures publisher { self.new.publisher ≡ self.old.publisher }
        ensures entered { MatchBool result
            (self.new.rulesets ≡ self.old.rulesets ++ arc_value rules.now ∷ [])
            (IsPrefix self.old.rulesets self.new.rulesets) }
    {
        let mut offer: Offer<Ruleset, u64, CountsRulesets, Nothing> = self
            .seen
            .plain::<Nothing, Arc<Ruleset>, Enters>(rules);
        let mut pen = self.seen.no_pen();
        let last = self.generation;
        let found = end
            .word
            .compare_exchange::<Enters, Nothing>(
                last,
                last + 1,
                &mut self.seen,
                &mut offer,
                &mut pen,
            );
        self.generation = if found == last { last + 1 } else { found };
        found == last
    }
}
