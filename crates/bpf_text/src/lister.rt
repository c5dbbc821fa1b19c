//! The listing: one line for each instruction, from the bytes' first slot to their end.

ghost use Rattle.std.specs.Prelude.{◌≡◌, ◌*◌, ◌<◌, length, OnOk, IfOk, IfErr};
ghost use Rattle.std.specs.String.{string_bytes};
ghost use Rattle.std.specs.Fmt.{decimal, signed_decimal};
ghost use Rattle.bpf_text.specs.Listing.{
  Appends,
  register_text,
  with_sign,
  argument_text,
  text_after,
  bare_line,
  line_of,
  Lists,
  IsListFault,
  IsNextLine,
  IsFaultAt,
};
ghost use Rattle.bpf_text.specs.Assembly.{AssemblesAgain};
ghost use Rattle.bpf_text.specs.Words.{word_of};

use crate::argument::{Argument, arguments_of, mnemonic_of};
use crate::mnemonic::Mnemonic;
use crate::text_fault::ListFault;
use bpf_insn::{Distance, Insn, Reg, Width, decode_at};
use std::alloc::{AllocError, Global};
use std::fmt::Write;

/// The name of a register, `r0` to `r10`.
pub fn register_name(register: Reg) -> &'static str
    ensures { result.now ≡ register_text register }
{
    match register {
        Reg::R0 => "r0",
        Reg::R1 => "r1",
        Reg::R2 => "r2",
        Reg::R3 => "r3",
        Reg::R4 => "r4",
        Reg::R5 => "r5",
        Reg::R6 => "r6",
        Reg::R7 => "r7",
        Reg::R8 => "r8",
        Reg::R9 => "r9",
        Reg::R10 => "r10",
    }
}

fn push_number(out: &mut String, n: u64) -> Result<(), AllocError>
    ensures { OnOk result (Appends out.old out.new (decimal n)) }
{
    write!(out, "{n}")
}

fn push_signed(out: &mut String, n: i32) -> Result<(), AllocError>
    ensures { OnOk result (Appends out.old out.new (signed_decimal n)) }
{
    write!(out, "{n}")
}

fn push_with_sign(out: &mut String, n: i32) -> Result<(), AllocError>
    ensures { OnOk result (Appends out.old out.new (with_sign n)) }
{
    if n >= 0 {
        out.push_str("+")?;
    }
    push_signed(out, n)
}

fn push_argument(out: &mut String, argument: Argument) -> Result<(), AllocError>
    ensures { OnOk result (Appends out.old out.new (argument_text argument)) }
{
    match argument {
        Argument::Register(r) => out.push_str(register_name(r)),
        Argument::Imm(k) => push_signed(out, k),
        Argument::Number(n) => push_number(out, n),
        Argument::Memory(r, k) => {
            out.push_str("[")?;
            out.push_str(register_name(r))?;
            push_with_sign(out, i32::from(k))?;
            out.push_str("]")
        }
        Argument::Distance(Distance::Short(k)) => push_with_sign(out, i32::from(k)),
        Argument::Distance(Distance::Long(k)) => push_with_sign(out, k),
    }
}

/// Writes the divider and the argument, if there is one.
fn push_behind(
    out: &mut String,
    divider: &str,
    argument: Option<Argument>,
) -> Result<(), AllocError>
    ensures { OnOk result (Appends out.old out.new (text_after divider.now argument)) }
{
    if let Some(argument) = argument {
        out.push_str(divider)?;
        push_argument(out, argument)?;
    }
    Ok(())
}

/// Writes a mnemonic.
fn push_word(out: &mut String, mnemonic: Mnemonic) -> Result<(), AllocError>
    ensures { OnOk result (Appends out.old out.new (word_of mnemonic)) }
{
    out.push_str(mnemonic.stem())?;
    out.push_str(mnemonic.suffix())
}

/// Writes the line of an instruction, without the LF that ends it.
// open: whether an allocation fails.
pub fn push_bare_line(out: &mut String, insn: Insn) -> Result<(), AllocError>
    ensures { OnOk result (Appends out.old out.new (bare_line insn)) }
{
    let arguments = arguments_of(insn);
    push_word(out, mnemonic_of(insn))?;
    push_behind(out, " ", arguments.first)?;
    push_behind(out, ", ", arguments.second)?;
    push_behind(out, ", ", arguments.third)
}

/// Writes the line of an instruction, ended by LF.
pub fn push_line(out: &mut String, insn: Insn) -> Result<(), AllocError>
    ensures { OnOk result (Appends out.old out.new (line_of insn)) }
{
    push_bare_line(out, insn)?;
    out.push_str("\n")
}

// Writes the line of the instruction at `slot`, and returns the slot after it.
fn push_next(out: &mut String, bytes: &[u8], slot: usize) -> Result<usize, ListFault>
    requires { 8 * slot < length bytes.now }
    ensures is { IfOk result
        (IsNextLine bytes.now slot (string_bytes out.old) (string_bytes out.new)) }
    ensures fault { IfErr result (IsFaultAt bytes.now slot) }
{
    match decode_at(bytes, slot) {
        Ok((insn, width)) => {
            push_line(out, insn)?;
            match width {
                Width::One => Ok(slot + 1),
                Width::Two => Ok(slot + 2),
            }
        }
        Err(fault) => Err(ListFault::Insn { slot, fault }),
    }
}

/// The listing of bytes: one line for each instruction, ended by LF. Numbers are decimal and
/// signed, except that of `lddw`, which is unsigned. Offsets and distances always have a sign.
///
/// The listing of at most 4096 slots assembles to the same bytes.
///
/// Returns the first slot at which no instruction begins, with its fault, or `Memory` if an
/// allocation fails.
// open: whether an allocation fails.
pub fn listing(alloc: Global, bytes: &[u8]) -> Result<String, ListFault>
    ensures text { IfOk result (λ text. Lists bytes.now (string_bytes text)) }
    ensures assembles { IfOk result (λ text. AssemblesAgain bytes.now (string_bytes text)) }
    ensures fault { IfErr result (λ e. IsListFault bytes.now e) }
{
    let mut out = String::new(alloc);
    let mut slot = 0;
    while 8 * slot < bytes.len() {
        slot = push_next(&mut out, bytes, slot)?;
    }
    Ok(out)
}
