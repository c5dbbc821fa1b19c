//! An instruction by its form: RFC 9669's encoding, decoded.

use crate::operand::{
    AluOp, AtomicOp, AtomicSize, Bits, ByteOrder, Condition, Distance, EndSize, Extension,
    LoadKind, Operand, Size, WideValue,
};
use crate::reg::Reg;

/// One instruction of the conformance groups base32, base64, divmul32, divmul64, atomic32 and
/// atomic64.
#[derive(Clone, Copy)]
pub enum Insn {
    /// `dst = dst op src`.
    Alu {
        bits: Bits,
        op: AluOp,
        dst: Reg,
        src: Operand,
    },
    /// `dst = src`.
    Mov {
        bits: Bits,
        dst: Reg,
        src: Operand,
    },
    /// `dst = src`, with the low part of `src` sign-extended.
    MovSx {
        extension: Extension,
        dst: Reg,
        src: Reg,
    },
    /// `dst = -dst`.
    Neg {
        bits: Bits,
        dst: Reg,
    },
    /// The low bytes of `dst`, in the given order.
    End {
        order: ByteOrder,
        size: EndSize,
        dst: Reg,
    },
    /// JA: an unconditional jump.
    Jump {
        distance: Distance,
    },
    /// A jump that is taken if the condition holds for `left` and `right`.
    JumpIf {
        bits: Bits,
        condition: Condition,
        left: Reg,
        right: Operand,
        offset: i16,
    },
    /// CALL of a helper by its number.
    Call {
        helper: i32,
    },
    /// EXIT: the run ends with R0.
    Exit,
    /// `dst = *(src + offset)`.
    Load {
        kind: LoadKind,
        dst: Reg,
        src: Reg,
        offset: i16,
    },
    /// `*(dst + offset) = imm`.
    StoreImm {
        size: Size,
        dst: Reg,
        offset: i16,
        imm: i32,
    },
    /// `*(dst + offset) = src`.
    Store {
        size: Size,
        dst: Reg,
        src: Reg,
        offset: i16,
    },
    /// One atomic operation on `*(dst + offset)` with `src`.
    Atomic {
        op: AtomicOp,
        size: AtomicSize,
        dst: Reg,
        src: Reg,
        offset: i16,
    },
    /// A load of a 64-bit value, in two slots.
    Wide {
        dst: Reg,
        value: WideValue,
    },
}

/// The number of slots of eight bytes that an instruction takes.
#[derive(Clone, Copy, PartialEq, Eq)]
pub enum Width {
    One,
    Two,
}
