//! A law of all lists of what was raised, by the definitions only.

ghost use Rattle.ceilings.specs.Rule.{CeilingsMonotone};

/// Law: the greatest number to which a counter's ceiling was raised doesn't fall.
pub fn ceilings_monotone()
    ensures { CeilingsMonotone }
{}
