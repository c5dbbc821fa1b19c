//! The one operation on what is published: the next ruleset replaces it.

ghost use Rattle.std.specs.Prelude.{◌≡◌, ◌+◌, ◌-◌, ◌^◌, ◌<◌, length, IsTrue, IfOk};
ghost use Rattle.std.specs.Arc.{arc_value};
ghost use Rattle.hot_swap.specs.Book.{id_of};
ghost use Rattle.hot_swap.specs.Published.{IsLatest};

use crate::known_prefix::{Generation, KnownPrefix};
use crate::list_end::ListEnd;
use crate::published_ruleset::PublishedRuleset;
use crate::publisher_id::PublisherId;
use left_right::Absorb;
use ruleset::Ruleset;
use std::alloc::AllocError;
use std::sync::Arc;

/// One install: its ruleset, and the list that was known when it began.
#[derive(Drop)]
pub struct NextInstall {
    generation: Generation,
    install: u64,
    pub(crate) rules: Arc<Ruleset>,
    pub(crate) known: KnownPrefix,
    end: Arc<ListEnd>,
    ghost next: { generation ≡ length known.rulesets + 1 },
    ghost room: { length known.rulesets < 2 ^ 64 - 1 },
    ghost book: { id_of (arc_value end).word.book ≡ known.publisher },
}

impl NextInstall {
    /// The install of this ruleset; it becomes another owner of the ruleset.
    pub(crate) fn new(
        end: &Arc<ListEnd>,
        known: &KnownPrefix,
        rules: &Arc<Ruleset>,
    ) -> Result<NextInstall, AllocError>
        requires room { length known.now.rulesets < 2 ^ 64 - 1 }
        requires book { id_of (arc_value end.now).word.book ≡ known.now.publisher }
        ensures { IfOk result
            (λ n. (n.known ≡ known.now) × (arc_value n.rules ≡ arc_value rules.now)) }
    {
        let rules = Arc::try_clone(rules)?;
        let end = Arc::try_clone(end)?;
        let install = end.begin_install();
        Ok(NextInstall {
            generation: known.generation() + 1,
            install,
            rules,
            known: known.copy(),
            end,
        })
    }

    // What is known after the attempt to append the ruleset, and whether it was appended: if a
    // later install has begun, it isn't.
    fn entered(&self, rules: &Arc<Ruleset>) -> (KnownPrefix, bool)
        ensures publisher { result.0.publisher ≡ self.now.known.publisher }
        ensures listed { IsTrue result.1
            → IsLatest result.0 self.now.generation (arc_value rules.now) }
    {
        let mut known = self.known.copy();
        if !self.end.is_last(self.install) {
            return (known, false);
        }
        let entered = known.enter(&self.end, rules);
        (known, entered)
    }

    // What the first copy becomes, which is published. The Arc is copied, which may fail, before
    // the ruleset is appended.
    fn listed(&self) -> Result<PublishedRuleset, AllocError>
        ensures { IfOk result (λ x. (x.generation ≡ self.now.generation)
            × (arc_value x.rules ≡ arc_value self.now.rules)
            × (x.known.publisher ≡ self.now.known.publisher)) }
    {
        let rules = Arc::try_clone(&self.rules)?;
        let (known, is_listed) = self.entered(&rules);
        Ok(PublishedRuleset {
            generation: self.generation,
            rules,
            is_listed,
            known,
        })
    }

    // What the second copy becomes. It is never published, since the next operation replaces it
    // first.
    fn unlisted(self) -> PublishedRuleset
        ensures { (result.generation ≡ self.generation)
            × (arc_value result.rules ≡ arc_value self.rules)
            × (result.known.publisher ≡ self.known.publisher) }
    {
        let NextInstall {
            generation,
            install: _,
            rules,
            known,
            end: _,
        } = self;
        PublishedRuleset {
            generation,
            rules,
            is_listed: false,
            known,
        }
    }
}

/// What the two copies have in common. No value of it is made.
pub struct Stamp {
    pub generation: u64,
    pub rules: Ruleset,
    pub publisher: PublisherId,
}

impl Absorb<NextInstall> for PublishedRuleset {
    type State = Stamp;

    ghost state = { λ x. record {
      generation = x.generation;
      rules = arc_value x.rules;
      publisher = x.known.publisher;
    } };

    ghost applied = { λ _ x. record {
      generation = x.generation;
      rules = arc_value x.rules;
      publisher = x.known.publisher;
    } };

    fn absorb_first(
        &mut self,
        operation: &NextInstall,
        _other: &PublishedRuleset,
    ) -> Result<(), AllocError> {
        *self = operation.listed()?;
        Ok(())
    }

    fn absorb_second(
        &mut self,
        operation: NextInstall,
        _other: &PublishedRuleset,
    ) -> Result<(), NextInstall> {
        *self = operation.unlisted();
        Ok(())
    }
}
