//! Why a release isn't left out of a rule.

ghost use Rattle.stage_rules.specs.declared.without_fault.WithoutFault.TheVariants.{Memory};
ghost use Rattle.std.specs.Prelude.{◌≡◌};

use rule_lang::RuleFault;
use std::alloc::AllocError;

/// Why a rule isn't written without the statements that offer a version.
#[derive(Drop)]
pub enum WithoutFault {
    /// The app has no release of this version.
    NoRelease,
    /// L1 to L4: the text isn't a rule.
    NoRule(RuleFault),
    /// The statements are found only by hand: one of them is too long to be read separately.
    NotFound,
    /// An allocation failed.
    Memory,
}

impl From<AllocError> for WithoutFault {
    ghost from_gives = { λ _ fault. fault ≡ Memory };

    fn from(_: AllocError) -> Self {
        WithoutFault::Memory
    }
}
