//! The instructions of compiled rules.

ghost use Rattle.std.specs.Prelude.{◌≡◌, ◌<◌, ◌≤◌, ◌^◌};
ghost use Rattle.rule_compile.specs.Instructions as insn;

use bpf_insn::{
    AluOp, AtomicOp, AtomicSize, Bits, Condition, Insn, LoadKind, Operand, Reg, Size, WideValue,
};

/// `mov r6, r1`.
pub fn keep_context() -> Insn
    ensures { result ≡ insn.keep_context }
{
    move_register(Reg::R6, Reg::R1)
}

/// `mov r0, r7`.
pub fn give_choice() -> Insn
    ensures { result ≡ insn.give_choice }
{
    move_register(Reg::R0, Reg::R7)
}

/// `mov r2, r10`.
pub fn copy_top() -> Insn
    ensures { result ≡ insn.copy_top }
{
    move_register(Reg::R2, Reg::R10)
}

fn move_register(dst: Reg, src: Reg) -> Insn
    ensures { result ≡ Insn.Mov Bits.Bits64 dst (Operand.Register src) }
{
    Insn::Mov {
        bits: Bits::Bits64,
        dst,
        src: Operand::Register(src),
    }
}

/// `mov r7, release`.
pub fn set_choice(release: u8) -> Insn
    ensures { result ≡ insn.set_choice release }
{
    set_argument(Reg::R7, release)
}

/// `mov dst, number`.
pub fn set_argument(dst: Reg, number: u8) -> Insn
    ensures { result ≡ insn.set_argument dst number }
{
    Insn::Mov {
        bits: Bits::Bits64,
        dst,
        src: Operand::Imm(number as i32),
    }
}

/// Loads the context's field at the offset into R2.
pub fn load_field(kind: LoadKind, offset: u8) -> Insn
    ensures { result ≡ insn.load_field kind offset }
{
    Insn::Load {
        kind,
        dst: Reg::R2,
        src: Reg::R6,
        offset: offset as i16,
    }
}

/// A jump over `slots` slots if the register's low half compares by `condition` with the number.
pub fn jump_if(condition: Condition, left: Reg, number: u32, slots: usize) -> Insn
    requires { slots ≤ 4096 }
    ensures { result ≡ insn.jump_if condition left number slots }
{
    Insn::JumpIf {
        bits: Bits::Bits32,
        condition,
        left,
        right: Operand::Imm(number.cast_signed()),
        offset: slots as i16,
    }
}

/// `and r2, mask`.
pub fn mask_field(mask: u8) -> Insn
    ensures { result ≡ insn.mask_field mask }
{
    Insn::Alu {
        bits: Bits::Bits64,
        op: AluOp::And,
        dst: Reg::R2,
        src: Operand::Imm(mask as i32),
    }
}

/// `mod32 dst, modulus`.
pub fn take_remainder(dst: Reg, modulus: u32) -> Insn
    ensures insn { result ≡ insn.take_remainder dst modulus }
    ensures range { modulus < 2 ^ 32 }
{
    Insn::Alu {
        bits: Bits::Bits32,
        op: AluOp::Mod,
        dst,
        src: Operand::Imm(modulus.cast_signed()),
    }
}

/// `lddw r1, salt`.
pub fn load_salt(salt: u64) -> Insn
    ensures insn { result ≡ insn.load_salt salt }
    ensures range { salt < 2 ^ 64 }
{
    Insn::Wide {
        dst: Reg::R1,
        value: WideValue::Number(salt),
    }
}

/// `call helper`.
pub fn call(helper: u8) -> Insn
    ensures { result ≡ insn.call helper }
{
    Insn::Call {
        helper: helper as i32,
    }
}

/// `stw [r10-1-left], word`.
pub fn store_word(left: u8, word: u32) -> Insn
    ensures { result ≡ insn.store_word left word }
{
    Insn::StoreImm {
        size: Size::Word,
        dst: Reg::R10,
        offset: -1 - left as i16,
        imm: word.cast_signed(),
    }
}

/// `add r2, -64`.
pub fn point_at_text() -> Insn
    ensures { result ≡ insn.point_at_text }
{
    Insn::Alu {
        bits: Bits::Bits64,
        op: AluOp::Add,
        dst: Reg::R2,
        src: Operand::Imm(-64),
    }
}

/// `ldcell r3, array, 8*index`.
pub fn load_cell(array: u32, index: u16) -> Insn
    requires { array < 2 ^ 31 }
    ensures { result ≡ insn.load_cell array index }
{
    Insn::Wide {
        dst: Reg::R3,
        value: WideValue::Cell {
            array: array as i32,
            offset: 8 * index as i32,
        },
    }
}

/// `aaddw [r3+0], r2` or `aadddw [r3+0], r2`.
pub fn add_to_cell(size: AtomicSize) -> Insn
    ensures { result ≡ insn.add_to_cell size }
{
    Insn::Atomic {
        op: AtomicOp::Add,
        size,
        dst: Reg::R3,
        src: Reg::R2,
        offset: 0,
    }
}

/// `fadddw [r3+0], r2`.
pub fn take_from_cell() -> Insn
    ensures { result ≡ insn.take_from_cell }
{
    Insn::Atomic {
        op: AtomicOp::FetchAdd,
        size: AtomicSize::Double,
        dst: Reg::R3,
        src: Reg::R2,
        offset: 0,
    }
}

/// `lddw r4, quota`.
pub fn load_quota(quota: u64) -> Insn
    ensures { result ≡ insn.load_quota quota }
{
    Insn::Wide {
        dst: Reg::R4,
        value: WideValue::Number(quota),
    }
}

/// `jlt r2, r4` or `jge r2, r4`, over `slots` slots.
pub fn jump_on_quota(sense: bool, slots: usize) -> Insn
    requires { slots ≤ 4096 }
    ensures { result ≡ insn.jump_on_quota sense slots }
{
    Insn::JumpIf {
        bits: Bits::Bits64,
        condition: if sense { Condition::Lt } else { Condition::Ge },
        left: Reg::R2,
        right: Operand::Register(Reg::R4),
        offset: slots as i16,
    }
}

/// The condition, or its opposite.
pub fn turned(sense: bool, condition: Condition) -> Condition
    ensures { result ≡ insn.turned sense condition }
{
    if sense {
        condition
    } else {
        opposite(condition)
    }
}

fn opposite(condition: Condition) -> Condition
    ensures { result ≡ insn.opposite condition }
{
    match condition {
        Condition::Eq => Condition::Ne,
        Condition::Ne => Condition::Eq,
        Condition::Lt => Condition::Ge,
        Condition::Ge => Condition::Lt,
        Condition::Le => Condition::Gt,
        Condition::Gt => Condition::Le,
        other => other,
    }
}
