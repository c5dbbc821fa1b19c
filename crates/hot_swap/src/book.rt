//! The rule of the book that lists what was installed, and the step that appends a ruleset. No
//! value of these types is made; they are names for definitions.

use logbook::{Gain, Plain, Play, Rule};
use ruleset::Ruleset;
use std::sync::Arc;

/// The rule: the book's word is the number of its rulesets.
pub(crate) struct CountsRulesets;

impl Rule<Ruleset, u64> for CountsRulesets {
    ghost use Rattle.std.specs.Prelude.{[]};
    ghost use base.Fml.{ftrue};
    ghost use Rattle.hot_swap.specs.Book.{IsCounted};

    ghost holds = { λ cells log. IsCounted cells log };

    ghost first = { [] };

    ghost hinted = { λ n log. Unit {0} };

    ghost shows = { λ log. [] };

    ghost keeps = { λ names log. ftrue };

    ghost moves = { λ ask before after answer. Unit {0} };
}

/// The step that appends a ruleset gives nothing but the longer list.
pub(crate) struct Nothing;

impl Gain<Ruleset, u64> for Nothing {
    ghost use base.Fml.{ftrue};

    ghost after = { λ names about answer. ftrue };
}

/// The step that appends a ruleset.
pub(crate) struct Enters;

impl Play<Ruleset, u64> for Enters {
    ghost use Rattle.hot_swap.specs.Book.{EntersOrFinds};

    ghost then = { EntersOrFinds };
}

impl Plain<Arc<Ruleset>, Ruleset, u64> for Enters {
    ghost use Rattle.std.specs.Prelude.{None};
    ghost use Rattle.std.specs.Arc.{arc_value};

    ghost ask = { λ rules. arc_value rules };

    ghost state = { λ rules. None };
}
