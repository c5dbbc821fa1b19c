//! Why a rule isn't raised.

ghost use Rattle.stage_rules.specs.declared.raise_fault.RaiseFault.TheVariants.{Memory};
ghost use Rattle.std.specs.Prelude.{◌≡◌};

use rule_lang::RuleFault;
use std::alloc::AllocError;

/// Why the threshold of a rule isn't changed.
#[derive(Drop)]
pub enum RaiseFault {
    /// More than 10000 buckets.
    OutOfRange,
    /// L1 to L4: the text isn't a rule.
    NoRule(RuleFault),
    /// The rule hasn't a test `bucket < N` or `bucket(SALT) < N`.
    NoThreshold,
    /// It has more than one such test.
    SeveralThresholds,
    /// The number of the test is found only by hand: a comment is before it, or the new text is too
    /// long.
    NoDigits,
    /// An allocation failed.
    Memory,
}

impl From<AllocError> for RaiseFault {
    ghost from_gives = { λ _ fault. fault ≡ Memory };

    fn from(_: AllocError) -> Self {
        RaiseFault::Memory
    }
}
