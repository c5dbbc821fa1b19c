//! Why bytes are refused: a rule, and the slot that breaks it.

ghost use Rattle.std.specs.Prelude.{◌≡◌, Some};
ghost use Rattle.flow_check.specs.Texts.{flow_rule_text, flow_fault_text};
ghost use Rattle.flow_check.specs.declared.flow_fault.FlowFault.TheVariants.{Memory};

use bpf_insn::InsnFault;
use std::alloc::AllocError;
use std::error::Error;
use std::fmt;

/// The rules, in the order of their printed numbers F1 to F8.
#[derive(Clone, Copy)]
pub enum FlowRule {
    /// A jump leads to its own slot or below.
    BackJump,
    /// A jump leads to the end or past it.
    Outside,
    /// A jump leads to the second half of a wide instruction.
    InsideWide,
    /// The last instruction is neither EXIT nor JA.
    FallsOff,
    /// No path of edges leads from slot 0 to the instruction.
    Unreached,
    /// The program has no bytes.
    Empty,
    /// There are more than 32768 bytes, that is 4096 slots.
    TooLong,
    /// The bytes from the slot spell no instruction.
    Insn(InsnFault),
}

impl fmt::Display for FlowRule {
    ghost output = { λ rule. Some (flow_rule_text rule) };

    fn fmt<W: fmt::Write>(&self, f: &mut fmt::Formatter<W>) -> fmt::Result {
        match *self {
            FlowRule::BackJump => f.write_str("F1 BackJump"),
            FlowRule::Outside => f.write_str("F2 Outside"),
            FlowRule::InsideWide => f.write_str("F3 InsideWide"),
            FlowRule::FallsOff => f.write_str("F4 FallsOff"),
            FlowRule::Unreached => f.write_str("F5 Unreached"),
            FlowRule::Empty => f.write_str("F6 Empty"),
            FlowRule::TooLong => f.write_str("F7 TooLong"),
            FlowRule::Insn(fault) => write!(f, "F8 Insn {fault}"),
        }
    }
}

/// Why `Flow::check` refuses bytes.
#[derive(Drop)]
pub enum FlowFault {
    Rule { slot: usize, rule: FlowRule },
    /// F9: out of memory.
    Memory,
}

impl fmt::Display for FlowFault {
    ghost output = { λ fault. Some (flow_fault_text fault) };

    fn fmt<W: fmt::Write>(&self, f: &mut fmt::Formatter<W>) -> fmt::Result {
        match self {
            FlowFault::Rule { slot, rule } => write!(f, "{rule} at slot {slot}"),
            FlowFault::Memory => f.write_str("F9 Memory"),
        }
    }
}

impl fmt::Debug for FlowFault {
    fn fmt<W: fmt::Write>(&self, f: &mut fmt::Formatter<W>) -> fmt::Result {
        fmt::Display::fmt(self, f)
    }
}

impl Error for FlowFault {}

impl From<AllocError> for FlowFault {
    ghost from_gives = { λ _ fault. fault ≡ Memory };

    fn from(_: AllocError) -> Self {
        FlowFault::Memory
    }
}
