//! A law of published lists, by the definitions only.

ghost use Rattle.hot_swap.specs.Published.{HasOneRuleset, NeverGoesBack, ShorterBegins};

/// Law: in one published list generations never go back, and each has one ruleset. Of two prefixes
/// of the list, the shorter is a prefix of the longer.
pub fn generations_monotone()
    ensures back { NeverGoesBack }
    ensures one { HasOneRuleset }
    ensures begins { ShorterBegins }
{}
