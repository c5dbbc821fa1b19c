//! The instructions of a program: two that open it, then its blocks of four, then two that close
//! it.

ghost use Rattle.std.specs.Prelude.{◌≡◌, ◌<◌, ◌^◌};
ghost use Rattle.bench.specs.Patterns as patterns;

use crate::pattern::Pattern;
use attrs::Context;
use bpf_insn::{AluOp, Bits, Condition, Distance, Insn, LoadKind, Operand, Reg, Size};

/// `mov dst, imm`.
fn mov(dst: Reg, imm: u16) -> Insn
    ensures { result ≡ patterns.mov dst imm }
{
    Insn::Mov {
        bits: Bits::Bits64,
        dst,
        src: Operand::Imm(imm as i32),
    }
}

/// `and dst, imm`, of 64 or 32 bits.
fn and(bits: Bits, dst: Reg, imm: u16) -> Insn
    ensures { result ≡ patterns.and bits dst imm }
{
    Insn::Alu {
        bits,
        op: AluOp::And,
        dst,
        src: Operand::Imm(imm as i32),
    }
}

/// `add dst, src`, of 64 or 32 bits.
fn add(bits: Bits, dst: Reg, src: Reg) -> Insn
    ensures { result ≡ patterns.add bits dst src }
{
    Insn::Alu {
        bits,
        op: AluOp::Add,
        dst,
        src: Operand::Register(src),
    }
}

/// A load of the context at a place.
fn load(kind: LoadKind, dst: Reg, place: u16) -> Insn
    requires { place < 64 }
    ensures { result ≡ patterns.load kind dst place }
{
    Insn::Load {
        kind,
        dst,
        src: Reg::R1,
        offset: place as i16,
    }
}

/// A store to a slot of the stack; the highest is slot 0.
fn store(size: Size, slot: u16, src: Reg) -> Insn
    requires { slot < 64 }
    ensures { result ≡ patterns.store size slot src }
{
    Insn::Store {
        size,
        dst: Reg::R10,
        src,
        offset: slot_offset(slot),
    }
}

/// A load of all of a slot of the stack.
fn load_slot(dst: Reg, slot: u16) -> Insn
    requires { slot < 64 }
    ensures { result ≡ patterns.load_slot dst slot }
{
    Insn::Load {
        kind: LoadKind::Double,
        dst,
        src: Reg::R10,
        offset: slot_offset(slot),
    }
}

/// The offset of a slot of the stack from the top.
fn slot_offset(slot: u16) -> i16
    requires { slot < 64 }
    ensures { result ≡ patterns.slot_offset slot }
{
    -8 * slot as i16 - 8
}

/// `jge R2, imm`, over `slots` slots.
fn jump_from(imm: u16, slots: u16) -> Insn
    requires { slots < 2 ^ 15 }
    ensures { result ≡ patterns.jump_from imm slots }
{
    Insn::JumpIf {
        bits: Bits::Bits64,
        condition: Condition::Ge,
        left: Reg::R2,
        right: Operand::Imm(imm as i32),
        offset: slots as i16,
    }
}

/// `ja`, over one slot.
fn skip() -> Insn
    ensures { result ≡ patterns.skip }
{
    Insn::Jump {
        distance: Distance::Short(1),
    }
}

/// The first two instructions: R2 is the bucket, and R0 is 0.
pub fn opening() -> [Insn; 2]
    ensures { result ≡ patterns.opening }
{
    [
        load(LoadKind::Half, Reg::R2, Context::BUCKET_OFFSET as u16),
        mov(Reg::R0, 0),
    ]
}

/// The last two: the choice is the low six bits of R0.
pub fn closing() -> [Insn; 2]
    ensures { result ≡ patterns.closing }
{
    [and(Bits::Bits64, Reg::R0, 63), Insn::Exit]
}

fn straight_block(bits: Bits) -> [Insn; 4]
    ensures { result ≡ patterns.straight_block bits }
{
    [
        add(bits, Reg::R0, Reg::R2),
        and(bits, Reg::R2, 0x7fff),
        add(bits, Reg::R2, Reg::R0),
        and(bits, Reg::R0, 0xffff),
    ]
}

fn one_target_block(count: u16, k: u16) -> [Insn; 4]
    requires at { k < count }
    requires short { count < 1024 }
    ensures { result ≡ patterns.one_target_block count k }
{
    let imm = 0xffff - 4 * k;
    let slots = 4 * (count - k);
    [
        jump_from(imm, slots - 1),
        jump_from(imm - 1, slots - 2),
        jump_from(imm - 2, slots - 3),
        jump_from(imm - 3, slots - 4),
    ]
}

fn diamond(k: u16) -> [Insn; 4]
    ensures { result ≡ patterns.diamond k }
{
    [
        jump_from(1000 * (k % 10 + 1), 2),
        add(Bits::Bits64, Reg::R0, Reg::R2),
        skip(),
        and(Bits::Bits64, Reg::R0, 0x7fff),
    ]
}

/// Stores the bucket to four slots of the stack.
fn filling(k: u16) -> [Insn; 4]
    requires { k < 16 }
    ensures { result ≡ patterns.filling k }
{
    [
        store(Size::Double, 4 * k, Reg::R2),
        store(Size::Double, 4 * k + 1, Reg::R2),
        store(Size::Double, 4 * k + 2, Reg::R2),
        store(Size::Double, 4 * k + 3, Reg::R2),
    ]
}

fn full_stack_block(k: u16) -> [Insn; 4]
    ensures { result ≡ patterns.full_stack_block k }
{
    if k < 16 { filling(k) } else { diamond(k) }
}

fn load_block(k: u16) -> [Insn; 4]
    ensures { result ≡ patterns.load_block k }
{
    [
        load(LoadKind::Byte, Reg::R3, k % 32),
        load(LoadKind::Half, Reg::R4, k % 16 * 2),
        load(LoadKind::Double, Reg::R5, k % 5 * 8),
        add(Bits::Bits64, Reg::R0, Reg::R5),
    ]
}

fn store_block(k: u16) -> [Insn; 4]
    ensures { result ≡ patterns.store_block k }
{
    [
        store(Size::Double, k % 64, Reg::R2),
        load_slot(Reg::R3, k % 64),
        store(Size::Word, k % 64, Reg::R0),
        add(Bits::Bits64, Reg::R0, Reg::R3),
    ]
}

/// The four instructions of block `k` of `count`.
pub fn block(pattern: Pattern, count: u16, k: u16) -> [Insn; 4]
    requires at { k < count }
    requires short { count < 1024 }
    ensures { result ≡ patterns.block pattern count k }
{
    match pattern {
        Pattern::Straight => straight_block(Bits::Bits64),
        Pattern::Straight32 => straight_block(Bits::Bits32),
        Pattern::OneTarget => one_target_block(count, k),
        Pattern::Diamonds => diamond(k),
        Pattern::FullStack => full_stack_block(k),
        Pattern::Loads => load_block(k),
        Pattern::Stores => store_block(k),
    }
}
