//! Why a program is refused: the rules with their printed codes, and the refusal itself.

ghost use Rattle.std.specs.Prelude.{◌≡◌, Some};
ghost use Rattle.bpf_checks.specs.Texts.{verifier_rule_text, verifier_refusal_text};
ghost use Rattle.bpf_checks.specs.declared.refusal.Refusal.TheVariants.{Memory};

use std::alloc::AllocError;
use std::error::Error;
use std::fmt;

/// A rule that an instruction breaks; the first, if it breaks several.
#[derive(Clone, Copy)]
pub enum VerifierRule {
    /// The instruction reads a register that may be unset or holds different kinds on different
    /// paths, or a byte of the stack that may be unset.
    Unusable,
    /// It writes R10, the top of the stack.
    WritesFrame,
    /// It computes with a pointer. Allowed are a 64-bit MOV, and a 64-bit ADD or SUB of a number to
    /// an address in the context or the stack.
    PointerArithmetic,
    /// It moves an address in the context or the stack so that it may be outside the region, or by
    /// a range if only a single number may move it.
    OffsetRange,
    /// It compares a pointer, except a lookup's result with 0.
    PointerCompare,
    /// The accessed bytes may be outside the context or the stack, or aren't a whole cell.
    Access,
    /// It stores a pointer, except to a whole slot of the stack.
    StoresPointer,
    /// It writes the context.
    WritesContext,
    /// It accesses memory through a number, a map, or a lookup's result that may be 0.
    NotAddress,
    /// It calls a helper that doesn't exist, or with arguments that the helper doesn't accept.
    Helper,
    /// It names an array or a cell that the shape doesn't have.
    MapIndex,
    /// It is an atomic operation on the stack.
    Kind,
    /// It ends the run, and R0 may be above the number of releases, or isn't a number.
    Result,
    /// It accesses a cell that has a quota, except by a load or a fetch-add of 1.
    QuotaCell,
}

impl VerifierRule {
    /// The code and the name, as printed.
    pub fn name(self) -> &'static str
        ensures { result.now ≡ verifier_rule_text self }
    {
        match self {
            VerifierRule::Unusable => "V1 Unusable",
            VerifierRule::WritesFrame => "V2 WritesFrame",
            VerifierRule::PointerArithmetic => "V3 PointerArithmetic",
            VerifierRule::OffsetRange => "V4 OffsetRange",
            VerifierRule::PointerCompare => "V5 PointerCompare",
            VerifierRule::Access => "V6 Access",
            VerifierRule::StoresPointer => "V7 StoresPointer",
            VerifierRule::WritesContext => "V8 WritesContext",
            VerifierRule::NotAddress => "V9 NotAddress",
            VerifierRule::Helper => "V10 Helper",
            VerifierRule::MapIndex => "V11 MapIndex",
            VerifierRule::Kind => "V12 Kind",
            VerifierRule::Result => "V13 Result",
            VerifierRule::QuotaCell => "V14 QuotaCell",
        }
    }
}

/// Why `verify` refuses a program.
#[derive(Clone, Copy, Drop)]
pub enum Refusal {
    /// The first slot at which an instruction breaks a rule, and the first rule that it breaks.
    Rule { slot: usize, rule: VerifierRule },
    /// An allocation failed.
    Memory,
}

impl fmt::Display for Refusal {
    ghost output = { λ refusal. Some (verifier_refusal_text refusal) };

    fn fmt<W: fmt::Write>(&self, f: &mut fmt::Formatter<W>) -> fmt::Result {
        match *self {
            Refusal::Rule { slot, rule } => {
                let name = rule.name();
                write!(f, "{name} at slot {slot}")
            }
            Refusal::Memory => f.write_str("V15 Memory"),
        }
    }
}

impl fmt::Debug for Refusal {
    fn fmt<W: fmt::Write>(&self, f: &mut fmt::Formatter<W>) -> fmt::Result {
        fmt::Display::fmt(self, f)
    }
}

impl Error for Refusal {}

impl From<AllocError> for Refusal {
    ghost from_gives = { λ _ refusal. refusal ≡ Memory };

    fn from(_: AllocError) -> Self {
        Refusal::Memory
    }
}
