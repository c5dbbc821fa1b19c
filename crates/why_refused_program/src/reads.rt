//! The registers that an instruction reads, and the memory that it accesses.

ghost use Rattle.std.specs.Prelude.{◌≡◌};
ghost use Rattle.bpf_semantics.specs.Helpers.{called_prototype};
ghost use Rattle.why_refused_program.specs.Reads as specs;

use abs_value::AbsState;
use bpf_insn::{AtomicOp, Insn, Operand, Reg};
use bpf_semantics::helpers::Prototype;
use bpf_semantics::{atomic_count, byte_count, load_count};

/// The registers that an instruction reads, in order; at most three.
#[derive(Clone, Copy)]
pub struct ReadRegisters {
    pub first: Option<Reg>,
    pub second: Option<Reg>,
    pub third: Option<Reg>,
}

/// `count` bytes from an address on: that in a register, plus the offset.
#[derive(Clone, Copy)]
pub struct TouchedMemory {
    pub base: Reg,
    pub offset: i16,
    pub count: u16,
}

impl ReadRegisters {
    fn none() -> ReadRegisters
        ensures { result ≡ specs.no_register }
    {
        ReadRegisters {
            first: None,
            second: None,
            third: None,
        }
    }

    fn one(r: Reg) -> ReadRegisters
        ensures { result ≡ specs.one_register r }
    {
        ReadRegisters {
            first: Some(r),
            second: None,
            third: None,
        }
    }

    fn two(r: Reg, s: Reg) -> ReadRegisters
        ensures { result ≡ specs.two_registers r s }
    {
        ReadRegisters {
            first: Some(r),
            second: Some(s),
            third: None,
        }
    }

    fn three(r: Reg, s: Reg, t: Reg) -> ReadRegisters
        ensures { result ≡ specs.three_registers r s t }
    {
        ReadRegisters {
            first: Some(r),
            second: Some(s),
            third: Some(t),
        }
    }

    fn with_operand(r: Reg, operand: Operand) -> ReadRegisters
        ensures { result ≡ specs.with_operand r operand }
    {
        match operand {
            Operand::Imm(_) => ReadRegisters::one(r),
            Operand::Register(s) => ReadRegisters::two(r, s),
        }
    }

    fn of_operand(operand: Operand) -> ReadRegisters
        ensures { result ≡ specs.operand_registers operand }
    {
        match operand {
            Operand::Imm(_) => ReadRegisters::none(),
            Operand::Register(r) => ReadRegisters::one(r),
        }
    }

    fn of_helper(number: i32) -> ReadRegisters
        ensures { result ≡ specs.argument_registers (called_prototype number) }
    {
        match Prototype::called(number) {
            Some(Prototype::OfMap) => ReadRegisters::two(Reg::R1, Reg::R2),
            Some(Prototype::OfText) => ReadRegisters::three(Reg::R1, Reg::R2, Reg::R3),
            Some(Prototype::OfNumber { .. }) => ReadRegisters::one(Reg::R1),
            None => ReadRegisters::none(),
        }
    }

    fn of_atomic(op: AtomicOp, dst: Reg, src: Reg) -> ReadRegisters
        ensures { result ≡ specs.exchanged_registers op dst src }
    {
        match op {
            AtomicOp::CompareExchange => ReadRegisters::three(dst, src, Reg::R0),
            _ => ReadRegisters::two(dst, src),
        }
    }

    /// The registers that an instruction reads.
    pub fn of(insn: Insn) -> ReadRegisters
        ensures { result ≡ specs.read_registers insn }
    {
        match insn {
            Insn::Alu { dst, src, .. } => ReadRegisters::with_operand(dst, src),
            Insn::Mov { src, .. } => ReadRegisters::of_operand(src),
            Insn::MovSx { src, .. } => ReadRegisters::one(src),
            Insn::Neg { dst, .. } => ReadRegisters::one(dst),
            Insn::End { dst, .. } => ReadRegisters::one(dst),
            Insn::Jump { .. } => ReadRegisters::none(),
            Insn::JumpIf { left, right, .. } => ReadRegisters::with_operand(left, right),
            Insn::Call { helper } => ReadRegisters::of_helper(helper),
            Insn::Exit => ReadRegisters::one(Reg::R0),
            Insn::Load { src, .. } => ReadRegisters::one(src),
            Insn::StoreImm { dst, .. } => ReadRegisters::one(dst),
            Insn::Store { dst, src, .. } => ReadRegisters::two(dst, src),
            Insn::Atomic { op, dst, src, .. } => ReadRegisters::of_atomic(op, dst, src),
            Insn::Wide { .. } => ReadRegisters::none(),
        }
    }

    /// Whether a register is among these.
    pub fn has(&self, r: Reg) -> bool
        ensures { result ≡ specs.is_among r self.now }
    {
        is_register(r, self.first) || is_register(r, self.second) || is_register(r, self.third)
    }

    /// The first of these registers about which nothing is known.
    pub(crate) fn unusable(&self, e: &AbsState) -> Option<Reg> {
        for found in [self.first, self.second, self.third] {
            match found {
                Some(r) if e.value(r).is_unusable() => return Some(r),
                _ => {}
            }
        }
        None
    }

    /// The first of these registers that is a pointer.
    pub(crate) fn pointer(&self, e: &AbsState) -> Option<Reg> {
        for found in [self.first, self.second, self.third] {
            match found {
                Some(r) if e.value(r).is_pointer() => return Some(r),
                _ => {}
            }
        }
        None
    }
}

fn is_register(r: Reg, found: Option<Reg>) -> bool
    ensures { result ≡ specs.is_register r found }
{
    match found {
        Some(other) => other.index() == r.index(),
        None => false,
    }
}

/// The memory that an instruction accesses by an address.
pub(crate) fn touched(insn: Insn) -> Option<TouchedMemory> {
    let (base, offset, count) = match insn {
        Insn::Load {
            kind,
            src,
            offset,
            ..
        } => (src, offset, load_count(kind)),
        Insn::StoreImm {
            size,
            dst,
            offset,
            ..
        } => (dst, offset, byte_count(size)),
        Insn::Store {
            size,
            dst,
            offset,
            ..
        } => (dst, offset, byte_count(size)),
        Insn::Atomic {
            size,
            dst,
            offset,
            ..
        } => (dst, offset, atomic_count(size)),
        _ => return None,
    };
    Some(TouchedMemory {
        base,
        offset,
        count,
    })
}
