//! The rules for a row's fields that don't depend on the instruction's parts. They say which
//! registers and other numbers the row allows in src, and that unused fields are 0.

ghost use Rattle.std.specs.Prelude.{◌≡◌, ◌↔◌, IsTrue};
ghost use Rattle.bpf_insn.specs.Faults.{Keeps, AllowsDst, AllowsSrc, LeavesUnused, IsSecondHalf};
ghost use Rattle.bpf_insn.specs.Faults.{uses_src, uses_offset, uses_imm};

use crate::fields::{Fields, InsnFault};
use crate::form::{ImmField, OffsetField, Row, SrcField};
use crate::lookup::wide_source_in;

impl SrcField {
    fn is_used(self) -> bool
        ensures { result ≡ uses_src self }
    {
        !matches!(self, SrcField::Unused)
    }

    fn allows(self, fields: Fields) -> bool
        ensures { IsTrue result ↔ AllowsSrc self fields.src }
    {
        match self {
            SrcField::Unused => true,
            SrcField::Register => fields.src <= 10,
            SrcField::Callee => fields.src == 0,
            SrcField::WideSource => wide_source_in(fields).is_some(),
        }
    }
}

impl OffsetField {
    fn is_used(self) -> bool
        ensures { result ≡ uses_offset self }
    {
        !matches!(self, OffsetField::Unused)
    }
}

impl ImmField {
    fn is_used(self) -> bool
        ensures { result ≡ uses_imm self }
    {
        !matches!(self, ImmField::Unused)
    }
}

impl Row {
    fn allows_dst(self, fields: Fields) -> bool
        ensures { IsTrue result ↔ AllowsDst self.uses_dst fields.dst }
    {
        !self.uses_dst || fields.dst <= 10
    }

    /// Whether no register is above 10, and src of CALL or of a wide load has an allowed number.
    pub fn allows_registers(self, fields: Fields) -> bool
        ensures { IsTrue result ↔ Keeps self fields InsnFault.Register }
    {
        self.allows_dst(fields) && self.src.allows(fields)
    }

    /// Whether all fields that the row doesn't use are 0.
    pub fn leaves_unused(self, fields: Fields) -> bool
        ensures { IsTrue result ↔ LeavesUnused self fields }
    {
        let dst = self.uses_dst || fields.dst == 0;
        let src = self.src.is_used() || fields.src == 0;
        let offset = self.offset.is_used() || fields.offset == 0;
        let imm = self.imm.is_used() || fields.imm == 0;
        dst && src && offset && imm
    }
}

/// Whether these are valid fields of a second half, after a first half with this src.
pub fn is_second_half(source: u8, fields: Fields) -> bool
    ensures { IsTrue result ↔ IsSecondHalf source fields }
{
    let zeroes = fields.opcode == 0 && fields.dst == 0 && fields.src == 0 && fields.offset == 0;
    zeroes && (source != 5 || fields.imm == 0)
}
