//! The table of opcodes. Each row has one opcode, and says for each field whether the row uses it
//! and which numbers it allows. The decoder and the encoder both read it.

use crate::operand::{AtomicSize, Bits, ByteOrder, Condition, LoadKind, Size};

// The eight bytes of an instruction (RFC 9669, "Basic Instruction Encoding"), little-endian:
//
//     byte    0        1          2 3      4 5 6 7
//          +--------+----+----+--------+------------+
//          | opcode | dst| src| offset |    imm     |
//          +--------+----+----+--------+------------+
//                     low  high  signed    signed
//
// and of the opcode (bits 7 to 0):
//
//     arithmetic and jumps   code code code code  s  class class class      s: 0 is K, 1 is X
//     loads and stores       mode mode mode size size class class class
//
// A wide instruction has a second half of eight bytes: four zeroes, and next_imm in place of imm.

/// The source of the second operand: K is imm, X is the register src.
#[derive(Clone, Copy)]
pub enum Source {
    K,
    X,
}

/// The code of an arithmetic row, the high half of its opcode. SDIV has the code of DIV, and SMOD
/// that of MOD; the offset distinguishes them.
#[derive(Clone, Copy)]
pub enum AluCode {
    Add,
    Sub,
    Mul,
    Div,
    Or,
    And,
    Lsh,
    Rsh,
    Mod,
    Xor,
    Arsh,
}

/// A row of the table of opcodes. `Mov` with X also has the opcode of MOVSX; the offset
/// distinguishes them.
#[derive(Clone, Copy)]
pub enum Form {
    Alu(Bits, AluCode, Source),
    Mov(Bits, Source),
    Neg(Bits),
    End(ByteOrder),
    Jump,
    JumpLong,
    JumpIf(Bits, Condition, Source),
    Call,
    Exit,
    Load(LoadKind),
    StoreImm(Size),
    Store(Size),
    Atomic(AtomicSize),
    Wide,
}

/// The meaning of src in a wide load: a number, a map by its index, or a cell of a map.
#[derive(Clone, Copy)]
pub enum WideSource {
    Number,
    Map,
    Cell,
}

/// What a row allows in src.
#[derive(Clone, Copy)]
pub enum SrcField {
    /// The row doesn't use it: 0.
    Unused,
    /// A register: 0 to 10.
    Register,
    /// The kind of a CALL: 0, a helper by its number.
    Callee,
    /// The kind of a wide load: 0, 5 or 6.
    WideSource,
}

/// What a row allows in offset.
#[derive(Clone, Copy)]
pub enum OffsetField {
    /// The row doesn't use it: 0.
    Unused,
    /// Any number.
    Any,
    /// 0 for DIV and MOD, 1 for SDIV and SMOD.
    Sign,
    /// 0 for MOV, or the number of bits that MOVSX extends: 8 or 16, and for 64 bits also 32.
    Extension(Bits),
}

/// What a row allows in imm.
#[derive(Clone, Copy)]
pub enum ImmField {
    /// The row doesn't use it: 0.
    Unused,
    /// Any number.
    Any,
    /// The number of bits that END keeps: 16, 32 or 64.
    EndBits,
    /// The code of an atomic operation.
    AtomicCode,
}

/// A row: its opcode, and what it allows in each field.
#[derive(Clone, Copy)]
pub struct Row {
    pub opcode: u8,
    pub uses_dst: bool,
    pub src: SrcField,
    pub offset: OffsetField,
    pub imm: ImmField,
}
