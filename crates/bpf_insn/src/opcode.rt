//! The rows by their opcodes. An opcode is split into class, code and source, and each part is
//! looked up separately (RFC 9669, "Instruction Encoding").

ghost use Rattle.std.specs.Prelude.{◌≡◌, ◌≢◌, ◌⊎◌, ◌/◌, ◌%◌, IfSome};
ghost use Rattle.bpf_insn.specs.declared.operand.Condition.{Condition};
ghost use Rattle.bpf_insn.specs.declared.operand.Size.{Size};
ghost use Rattle.bpf_insn.specs.declared.operand.LoadKind.{LoadKind};
ghost use Rattle.bpf_insn.specs.declared.form.AluCode.{AluCode};
ghost use Rattle.bpf_insn.specs.declared.form.Form.{Form};
ghost use Rattle.bpf_insn.specs.Table.{opcode_of, code_number, condition_code, size_code};
ghost use Rattle.bpf_insn.specs.Table.{load_code, source_bit, alu_class, jump_class};

use crate::form::{AluCode, Form, Source};
use crate::operand::{AtomicSize, Bits, ByteOrder, Condition, LoadKind, Size};

/// The code of an operation with two operands, by its number.
fn alu_code_at(number: u8) -> Option<AluCode>
    ensures some { IfSome result (λ code. code_number code ≡ number) }
    ensures only { (c : AluCode) → code_number c ≡ number → result ≡ Some c }
{
    match number {
        0x0 => Some(AluCode::Add),
        0x1 => Some(AluCode::Sub),
        0x2 => Some(AluCode::Mul),
        0x3 => Some(AluCode::Div),
        0x4 => Some(AluCode::Or),
        0x5 => Some(AluCode::And),
        0x6 => Some(AluCode::Lsh),
        0x7 => Some(AluCode::Rsh),
        0x9 => Some(AluCode::Mod),
        0xa => Some(AluCode::Xor),
        0xc => Some(AluCode::Arsh),
        _ => None,
    }
}

/// The condition with this code.
fn condition_at(code: u8) -> Option<Condition>
    ensures some { IfSome result (λ condition. condition_code condition ≡ code) }
    ensures only { (c : Condition) → condition_code c ≡ code → result ≡ Some c }
{
    match code {
        0x1 => Some(Condition::Eq),
        0x2 => Some(Condition::Gt),
        0x3 => Some(Condition::Ge),
        0x4 => Some(Condition::Set),
        0x5 => Some(Condition::Ne),
        0x6 => Some(Condition::Sgt),
        0x7 => Some(Condition::Sge),
        0xa => Some(Condition::Lt),
        0xb => Some(Condition::Le),
        0xc => Some(Condition::Slt),
        0xd => Some(Condition::Sle),
        _ => None,
    }
}

/// The size with this code.
fn size_at(code: u8) -> Option<Size>
    ensures some { IfSome result (λ size. size_code size ≡ code) }
    ensures only { (size : Size) → size_code size ≡ code → result ≡ Some size }
{
    match code {
        0 => Some(Size::Word),
        1 => Some(Size::Half),
        2 => Some(Size::Byte),
        3 => Some(Size::Double),
        _ => None,
    }
}

/// The load with this mode and size.
fn load_at(code: u8) -> Option<LoadKind>
    ensures some { IfSome result (λ kind. load_code kind ≡ code) }
    ensures only { (kind : LoadKind) → load_code kind ≡ code → result ≡ Some kind }
{
    match code {
        12 => Some(LoadKind::Word),
        13 => Some(LoadKind::Half),
        14 => Some(LoadKind::Byte),
        15 => Some(LoadKind::Double),
        16 => Some(LoadKind::SignedWord),
        17 => Some(LoadKind::SignedHalf),
        18 => Some(LoadKind::SignedByte),
        _ => None,
    }
}

/// The source in an opcode of arithmetic or of a jump.
fn source_at(opcode: u8) -> Source
    ensures { source_bit result ≡ opcode / 8 % 2 }
{
    if opcode / 8 % 2 == 1 {
        Source::X
    } else {
        Source::K
    }
}

/// The rows of the classes ALU64 and ALU.
fn arithmetic_at(opcode: u8, bits: Bits, source: Source) -> Option<Form>
    requires class { opcode % 8 ≡ alu_class bits }
    requires source { source_bit source ≡ opcode / 8 % 2 }
    ensures some { IfSome result (λ form. opcode_of form ≡ opcode) }
    ensures only { (form : Form) → opcode_of form ≡ opcode → result ≡ Some form }
{
    match alu_code_at(opcode / 16) {
        Some(code) => Some(Form::Alu(bits, code, source)),
        None if opcode / 16 == 0xb => Some(Form::Mov(bits, source)),
        None => unary_at(opcode),
    }
}

/// The rows of the classes ALU64 and ALU with one operand.
fn unary_at(opcode: u8) -> Option<Form>
    requires code { (c : AluCode) → code_number c ≢ opcode / 16 }
    requires mov { opcode / 16 ≢ 0xb }
    requires class { (opcode % 8 ≡ 7) ⊎ (opcode % 8 ≡ 4) }
    ensures some { IfSome result (λ form. opcode_of form ≡ opcode) }
    ensures only { (form : Form) → opcode_of form ≡ opcode → result ≡ Some form }
{
    match opcode {
        0x84 => Some(Form::Neg(Bits::Bits32)),
        0x87 => Some(Form::Neg(Bits::Bits64)),
        0xd4 => Some(Form::End(ByteOrder::Little)),
        0xdc => Some(Form::End(ByteOrder::Big)),
        0xd7 => Some(Form::End(ByteOrder::Swap)),
        _ => None,
    }
}

/// The rows of the classes JMP and JMP32.
fn jump_at(opcode: u8, bits: Bits, source: Source) -> Option<Form>
    requires class { opcode % 8 ≡ jump_class bits }
    requires source { source_bit source ≡ opcode / 8 % 2 }
    ensures some { IfSome result (λ form. opcode_of form ≡ opcode) }
    ensures only { (form : Form) → opcode_of form ≡ opcode → result ≡ Some form }
{
    match opcode {
        0x05 => Some(Form::Jump),
        0x06 => Some(Form::JumpLong),
        0x85 => Some(Form::Call),
        0x95 => Some(Form::Exit),
        _ => match condition_at(opcode / 16) {
            Some(condition) => Some(Form::JumpIf(bits, condition, source)),
            None => None,
        },
    }
}

/// The atomic rows, of mode ATOMIC in class STX.
fn atomic_at(opcode: u8) -> Option<Form>
    requires mode { opcode / 32 ≡ 6 }
    requires class { (opcode % 8 ≡ 2) ⊎ (opcode % 8 ≡ 3) }
    ensures some { IfSome result (λ form. opcode_of form ≡ opcode) }
    ensures only { (form : Form) → opcode_of form ≡ opcode → result ≡ Some form }
{
    match opcode {
        0xc3 => Some(Form::Atomic(AtomicSize::Word)),
        0xdb => Some(Form::Atomic(AtomicSize::Double)),
        _ => None,
    }
}

/// The rows of the classes ST and STX.
fn store_at(opcode: u8) -> Option<Form>
    requires { (opcode % 8 ≡ 2) ⊎ (opcode % 8 ≡ 3) }
    ensures some { IfSome result (λ form. opcode_of form ≡ opcode) }
    ensures only { (form : Form) → opcode_of form ≡ opcode → result ≡ Some form }
{
    match (opcode / 32, size_at(opcode / 8 % 4)) {
        (3, Some(size)) if opcode % 8 == 2 => Some(Form::StoreImm(size)),
        (3, Some(size)) => Some(Form::Store(size)),
        (6, _) => atomic_at(opcode),
        _ => None,
    }
}

/// The row of an opcode.
pub fn form_at(opcode: u8) -> Option<Form>
    ensures some { IfSome result (λ form. opcode_of form ≡ opcode) }
    ensures only { (form : Form) → opcode_of form ≡ opcode → result ≡ Some form }
{
    let source = source_at(opcode);
    match opcode % 8 {
        0 if opcode == 0x18 => Some(Form::Wide),
        1 => match load_at(opcode / 8) {
            Some(kind) => Some(Form::Load(kind)),
            None => None,
        },
        2 | 3 => store_at(opcode),
        4 => arithmetic_at(opcode, Bits::Bits32, source),
        5 => jump_at(opcode, Bits::Bits64, source),
        6 => jump_at(opcode, Bits::Bits32, source),
        7 => arithmetic_at(opcode, Bits::Bits64, source),
        _ => None,
    }
}
