//! The fields of eight bytes, and the faults of bytes that spell no instruction.

ghost use Rattle.std.specs.Prelude.{Some};
ghost use Rattle.bpf_insn.specs.Faults.{fault_text};

use std::fmt;

/// The fields of an instruction's eight bytes, or of the second half of a wide instruction.
#[derive(Clone, Copy)]
pub struct Fields {
    pub opcode: u8,
    pub dst: u8,
    pub src: u8,
    pub offset: i16,
    pub imm: i32,
}

/// Why bytes spell no instruction; if there are several faults, the least is returned.
#[derive(Clone, Copy)]
pub enum InsnFault {
    /// I1: a half is incomplete.
    Truncated,
    /// I2: no row has the opcode.
    Opcode,
    /// I3: a register above 10, or src of CALL or of a wide load has a number that isn't allowed.
    Register,
    /// I4: a field that the row doesn't use isn't 0.
    UnusedField,
    /// I5: an imm that isn't allowed for END or an atomic operation.
    Imm,
    /// I6: an offset that isn't allowed for MOV, MOVSX, DIV or MOD.
    Offset,
    /// I7: the second half's first four bytes aren't 0, or its imm isn't 0 in a load of a map.
    SecondHalf,
}

impl fmt::Display for InsnFault {
    ghost output = { λ fault. Some (fault_text fault) };

    fn fmt<W: fmt::Write>(&self, f: &mut fmt::Formatter<W>) -> fmt::Result {
        f.write_str(match self {
            InsnFault::Truncated => "I1 Truncated",
            InsnFault::Opcode => "I2 Opcode",
            InsnFault::Register => "I3 Register",
            InsnFault::UnusedField => "I4 UnusedField",
            InsnFault::Imm => "I5 Imm",
            InsnFault::Offset => "I6 Offset",
            InsnFault::SecondHalf => "I7 SecondHalf",
        })
    }
}

impl fmt::Debug for InsnFault {
    fn fmt<W: fmt::Write>(&self, f: &mut fmt::Formatter<W>) -> fmt::Result {
        fmt::Display::fmt(self, f)
    }
}

impl std::error::Error for InsnFault {}
