//! The parts of an instruction: operations, conditions, sizes and operands, each a small enum.

use crate::reg::Reg;

/// The width of an instruction: whole registers (classes ALU64 and JMP) or their low halves
/// (classes ALU and JMP32).
#[derive(Clone, Copy, PartialEq, Eq)]
pub enum Bits {
    Bits64,
    Bits32,
}

/// An arithmetic operation with two operands (RFC 9669, "Arithmetic Instructions"); `Sdiv` and
/// `Smod` are signed.
#[derive(Clone, Copy, PartialEq, Eq)]
pub enum AluOp {
    Add,
    Sub,
    Mul,
    Div,
    Sdiv,
    Or,
    And,
    Lsh,
    Rsh,
    Mod,
    Smod,
    Xor,
    Arsh,
}

/// The part of a register that MOVSX sign-extends, and the width to which it extends.
#[derive(Clone, Copy)]
pub enum Extension {
    Byte64,
    Half64,
    Word64,
    Byte32,
    Half32,
}

/// The byte order of END (RFC 9669, "Byte Swap Instructions"): from the machine's own order, which
/// is little-endian, to little-endian or big-endian, or always reversed.
#[derive(Clone, Copy)]
pub enum ByteOrder {
    Little,
    Big,
    Swap,
}

/// The number of low bytes that END keeps: 2, 4 or 8.
#[derive(Clone, Copy)]
pub enum EndSize {
    Half,
    Word,
    Double,
}

/// The condition of a jump (RFC 9669, "Jump Instructions"). Conditions with `S` compare signed
/// numbers, and `Set` tests for a common bit.
#[derive(Clone, Copy, PartialEq, Eq)]
pub enum Condition {
    Eq,
    Gt,
    Ge,
    Set,
    Ne,
    Sgt,
    Sge,
    Lt,
    Le,
    Slt,
    Sle,
}

/// The number of slots that JA moves from the instruction after it, from its offset or from its
/// imm.
#[derive(Clone, Copy)]
pub enum Distance {
    Short(i16),
    Long(i32),
}

/// The number of bytes of an access: 1, 2, 4 or 8.
#[derive(Clone, Copy)]
pub enum Size {
    Byte,
    Half,
    Word,
    Double,
}

/// The size of a load, and its extension to 64 bits: by zeroes (mode MEM) or by the sign (MEMSX).
#[derive(Clone, Copy, PartialEq, Eq)]
pub enum LoadKind {
    Byte,
    Half,
    Word,
    Double,
    SignedByte,
    SignedHalf,
    SignedWord,
}

/// The number of bytes of an atomic operation: 4 or 8.
#[derive(Clone, Copy)]
pub enum AtomicSize {
    Word,
    Double,
}

/// An atomic operation (RFC 9669, "Atomic Operations"). The operations with `Fetch`, the exchange
/// and the compare-and-exchange also return the old value.
#[derive(Clone, Copy, PartialEq, Eq)]
pub enum AtomicOp {
    Add,
    Or,
    And,
    Xor,
    FetchAdd,
    FetchOr,
    FetchAnd,
    FetchXor,
    Exchange,
    CompareExchange,
}

/// The second operand of arithmetic or of a jump: K, an imm, or X, a register.
#[derive(Clone, Copy)]
pub enum Operand {
    Imm(i32),
    Register(Reg),
}

/// The value of a wide load (RFC 9669, "64-bit Immediate Instructions"). It is a number (source 0),
/// a map by its index (source 5), or the address of a map's first value plus an offset (source 6).
/// The first value is here the first cell of an array of counters.
#[derive(Clone, Copy)]
pub enum WideValue {
    Number(u64),
    Map(i32),
    Cell { array: i32, offset: i32 },
}
