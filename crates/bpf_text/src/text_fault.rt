//! Why a text doesn't assemble, and why bytes have no listing.

ghost use Rattle.std.specs.Prelude.{◌≡◌, Some};
ghost use Rattle.bpf_text.specs.declared.text_fault.ListFault.{ListFault};
ghost use Rattle.bpf_text.specs.declared.text_fault.AsmFault.{AsmFault};
ghost use Rattle.bpf_text.specs.Faults.{kind_text, asm_fault_text, list_fault_text};

use bpf_insn::InsnFault;
use std::alloc::AllocError;
use std::fmt;

/// Why bytes have no listing.
#[derive(Clone, Copy, Debug)]
pub enum ListFault {
    /// No instruction begins at this slot.
    Insn { slot: usize, fault: InsnFault },
    /// An allocation of the text failed.
    Memory,
}

impl fmt::Display for ListFault {
    ghost output = { λ fault. Some (list_fault_text fault) };

    fn fmt<W: fmt::Write>(&self, f: &mut fmt::Formatter<W>) -> fmt::Result {
        match *self {
            ListFault::Insn { slot, fault } => write!(f, "{fault} at slot {slot}"),
            ListFault::Memory => f.write_str("Memory"),
        }
    }
}

impl std::error::Error for ListFault {}

impl From<AllocError> for ListFault {
    ghost from_gives = { λ _ fault. fault ≡ ListFault.Memory };

    fn from(_error: AllocError) -> ListFault {
        ListFault::Memory
    }
}

/// Why a text doesn't assemble.
#[derive(Clone, Copy)]
pub enum AsmFaultKind {
    /// A1: a character or a number that isn't a token.
    Token,
    /// A2: an unknown mnemonic.
    Mnemonic,
    /// A3: a wrong number or kind of operands.
    Operand,
    /// A4: an undefined label, or a duplicate one.
    Label,
    /// A5: a number outside its field.
    Range,
    /// A6: an instruction past slot 4096.
    TooLong,
}

/// The first fault of a text, or that an allocation failed (A7).
#[derive(Clone, Copy)]
pub enum AsmFault {
    /// The fault of a line, counted from 1. `Range` is always about a number in the text: a label
    /// can't be too far for a jump, since distances between slots are at most 4095.
    At { line: usize, kind: AsmFaultKind },
    /// A7: an allocation failed.
    Memory,
}

fn asm_fault_name(kind: AsmFaultKind) -> &'static str
    ensures { result.now ≡ kind_text kind }
{
    match kind {
        AsmFaultKind::Token => "A1 Token",
        AsmFaultKind::Mnemonic => "A2 Mnemonic",
        AsmFaultKind::Operand => "A3 Operand",
        AsmFaultKind::Label => "A4 Label",
        AsmFaultKind::Range => "A5 Range",
        AsmFaultKind::TooLong => "A6 TooLong",
    }
}

impl fmt::Display for AsmFault {
    ghost output = { λ fault. Some (asm_fault_text fault) };

    fn fmt<W: fmt::Write>(&self, f: &mut fmt::Formatter<W>) -> fmt::Result {
        match *self {
            AsmFault::At { line, kind } => {
                let name = asm_fault_name(kind);
                write!(f, "{name} at line {line}")
            }
            AsmFault::Memory => f.write_str("A7 Memory"),
        }
    }
}

impl fmt::Debug for AsmFault {
    fn fmt<W: fmt::Write>(&self, f: &mut fmt::Formatter<W>) -> fmt::Result {
        fmt::Display::fmt(self, f)
    }
}

impl std::error::Error for AsmFault {}

impl From<AllocError> for AsmFault {
    ghost from_gives = { λ _ fault. fault ≡ AsmFault.Memory };

    fn from(_error: AllocError) -> AsmFault {
        AsmFault::Memory
    }
}
