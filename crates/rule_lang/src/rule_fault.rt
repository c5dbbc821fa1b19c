//! Why a text isn't a rule.

ghost use Rattle.std.specs.Prelude.{◌≡◌, Some};
ghost use Rattle.rule_lang.specs.Texts.{rule_kind_text, rule_fault_text};
ghost use Rattle.rule_lang.specs.declared.rule_fault.RuleFault.TheVariants.{Memory};

use std::alloc::AllocError;
use std::error::Error;
use std::fmt;

/// What is wrong with a line, with the printed numbers L1 to L4.
#[derive(Clone, Copy, PartialEq, Eq)]
pub enum RuleFaultKind {
    /// No token begins at this character.
    Token,
    /// A token with which no rule continues.
    Shape,
    /// An unknown array, flag or attribute, or an array with a quota in `count` or without one in
    /// `take`.
    Name,
    /// A number, an index, a release or a depth out of range, or a text over 65536 bytes.
    Range,
}

impl RuleFaultKind {
    /// The number and the name, as printed.
    pub fn name(self) -> &'static str
        ensures { result.now ≡ rule_kind_text self }
    {
        match self {
            RuleFaultKind::Token => "L1 Token",
            RuleFaultKind::Shape => "L2 Shape",
            RuleFaultKind::Name => "L3 Name",
            RuleFaultKind::Range => "L4 Range",
        }
    }
}

/// The fault of a text, or a failed allocation.
#[derive(Clone, Copy)]
pub enum RuleFault {
    /// The fault that counts, with its line from 1.
    At { line: usize, kind: RuleFaultKind },
    /// An allocation failed.
    Memory,
}

impl fmt::Display for RuleFault {
    ghost output = { λ fault. Some (rule_fault_text fault) };

    fn fmt<W: fmt::Write>(&self, f: &mut fmt::Formatter<W>) -> fmt::Result {
        match *self {
            RuleFault::At { line, kind } => {
                let name = kind.name();
                write!(f, "{name} at line {line}")
            }
            RuleFault::Memory => f.write_str("L5 Memory"),
        }
    }
}

impl fmt::Debug for RuleFault {
    fn fmt<W: fmt::Write>(&self, f: &mut fmt::Formatter<W>) -> fmt::Result {
        fmt::Display::fmt(self, f)
    }
}

impl Error for RuleFault {}

impl From<AllocError> for RuleFault {
    ghost from_gives = { λ _ fault. fault ≡ Memory };

    fn from(_: AllocError) -> Self {
        RuleFault::Memory
    }
}
