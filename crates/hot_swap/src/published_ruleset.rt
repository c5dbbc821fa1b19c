//! What is published to watchers.

ghost use Rattle.std.specs.Prelude.{◌≡◌, ◌+◌, [], ◌∷◌, ◌++◌, length, IsTrue, IfSome};
ghost use Rattle.std.specs.Arc.{arc_value};
ghost use Rattle.hot_swap.specs.Published.{Extends, HasLast, IsLatest};

use crate::known_prefix::{Generation, KnownPrefix};
use ruleset::Ruleset;
use std::sync::Arc;

/// A ruleset with its generation. If it is in the published list, it comes with the list up to it.
#[derive(Drop)]
pub struct PublishedRuleset {
    pub(crate) generation: Generation,
    pub(crate) rules: Arc<Ruleset>,
    pub(crate) is_listed: bool,
    pub(crate) known: KnownPrefix,
    ghost latest: { IsTrue is_listed → IsLatest known generation (arc_value rules) },
}

impl PublishedRuleset {
    /// What is published before the first install: watchers don't take it.
    pub(crate) fn nothing(rules: Arc<Ruleset>, known: KnownPrefix) -> PublishedRuleset
        ensures { (result.generation ≡ 0) × (arc_value result.rules ≡ arc_value rules)
            × (result.known ≡ known) }
    {
        PublishedRuleset {
            generation: 0,
            rules,
            is_listed: false,
            known,
        }
    }

    /// The list up to it, which is all that was known and this ruleset; `None` if it isn't in the
    /// list.
    pub(crate) fn list_up_to(&self, mut known: KnownPrefix) -> Option<KnownPrefix>
        requires publisher { self.now.known.publisher ≡ known.publisher }
        requires next { self.now.generation ≡ length known.rulesets + 1 }
        ensures { IfSome result (λ grown. (grown.publisher ≡ known.publisher)
            × (grown.rulesets ≡ known.rulesets ++ arc_value self.now.rules ∷ [])) }
    {
        if !self.is_listed {
            return None;
        }
        known.learn(&self.known);
        Some(known)
    }

    /// What is known after a look at it, and another owner of its ruleset, if there can be one. A
    /// ruleset that isn't in the list, or is older than what was known, isn't taken.
    pub(crate) fn look(&self, mut known: KnownPrefix) -> (KnownPrefix, Option<Arc<Ruleset>>)
        requires { self.now.known.publisher ≡ known.publisher }
        ensures onwards { Extends known result.0 }
        ensures newest { IfSome result.1 (λ rules. HasLast result.0.rulesets (arc_value rules)) }
    {
        if !self.is_listed || self.generation < known.generation() {
            return (known, None);
        }
        known.learn(&self.known);
        let rules = Arc::try_clone(&self.rules).ok();
        (known, rules)
    }
}
