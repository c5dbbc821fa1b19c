//! The comment's text on an instruction's registers, and on the stack slot that it reads.

ghost use Rattle.std.specs.Prelude.{◌≡◌, OnOk, true};
ghost use Rattle.bpf_text.specs.Listing.{Appends, with_sign};
ghost use Rattle.why_refused_program.specs.RegisterTexts as specs;

use crate::reads::ReadRegisters;
use crate::values::push_value;
use crate::way::Way;
use abs_value::{Abs, AbsState};
use bpf_checks::stack_place;
use bpf_insn::{Insn, LoadKind, Reg};
use bpf_semantics::load_count;
use bpf_text::REGISTERS;
use cells::Shape;
use std::alloc::AllocError;
use std::fmt::Write;

/// Writes the name of a register.
pub fn push_register(text: &mut String, r: Reg) -> Result<(), AllocError>
    ensures { OnOk result (Appends text.old text.new (specs.register_word r)) }
{
    let number = r.index();
    write!(text, "r{number}")
}

/// Writes a register and what is known about it.
fn push_part(text: &mut String, shape: &Shape, e: &AbsState, r: Reg) -> Result<(), AllocError>
    ensures { OnOk result (Appends text.old text.new (specs.register_part shape.now e.now r)) }
{
    push_register(text, r)?;
    text.push_str(" ")?;
    push_value(text, shape, e.value(r))
}

fn is_shown(reads: &ReadRegisters, way: &Way, r: Reg) -> bool
    ensures { result ≡ specs.is_shown reads.now way.now r }
{
    reads.has(r) || way.changes_on_way(r)
}

fn divider(first: bool) -> &'static str
    ensures { result.now ≡ specs.divider_of first }
{
    if first { " " } else { ", " }
}

fn push_if_shown(
    text: &mut String,
    shape: &Shape,
    e: &AbsState,
    reads: &ReadRegisters,
    way: &Way,
    first: bool,
    r: Reg,
) -> Result<(), AllocError>
    ensures { OnOk result (Appends text.old text.new
        (specs.register_if shape.now e.now reads.now way.now first r)) }
{
    if is_shown(reads, way, r) {
        text.push_str(divider(first))?;
        push_part(text, shape, e, r)?;
    }
    Ok(())
}

/// Writes the registers that are read, or that changed on the edge to the instruction.
#[tactic(auto, using(crate::proofs::Texts::further_text, crate::proofs::Texts::whole_text))]
pub fn push_registers(
    text: &mut String,
    shape: &Shape,
    e: &AbsState,
    reads: &ReadRegisters,
    way: &Way,
) -> Result<(), AllocError>
    ensures { OnOk result (Appends text.old text.new (specs.registers_text shape.now e.now
        reads.now way.now true specs.all_registers)) }
{
    let mut first = true;
    let mut left: &[Reg] = &REGISTERS;
    while let [r, rest @ ..] = left {
        push_if_shown(text, shape, e, reads, way, first, *r)?;
        first = first && !is_shown(reads, way, *r);
        left = rest;
    }
    Ok(())
}

fn push_signed(text: &mut String, offset: i16) -> Result<(), AllocError>
    ensures { OnOk result (Appends text.old text.new (with_sign offset)) }
{
    if offset >= 0 {
        text.push_str("+")?;
    }
    write!(text, "{offset}")
}

/// Writes memory in the instruction's form, `[r10-8]`.
pub fn push_memory(text: &mut String, base: Reg, offset: i16) -> Result<(), AllocError>
    ensures { OnOk result (Appends text.old text.new (specs.memory_text base offset)) }
{
    text.push_str("[")?;
    push_register(text, base)?;
    push_signed(text, offset)?;
    text.push_str("]")
}

fn push_slot_name(text: &mut String, src: Reg, offset: i16) -> Result<(), AllocError>
    ensures { OnOk result (Appends text.old text.new (specs.slot_name src offset)) }
{
    text.push_str(", ")?;
    push_memory(text, src, offset)?;
    text.push_str(" ")
}

fn push_slot(
    text: &mut String,
    shape: &Shape,
    src: Reg,
    offset: i16,
    value: Abs,
) -> Result<(), AllocError>
    ensures { OnOk result (Appends text.old text.new (specs.slot_part shape.now src offset value)) }
{
    push_slot_name(text, src, offset)?;
    push_value(text, shape, value)
}

fn push_loaded(
    text: &mut String,
    shape: &Shape,
    e: &AbsState,
    kind: LoadKind,
    src: Reg,
    offset: i16,
) -> Result<(), AllocError>
    ensures { OnOk result (Appends text.old text.new (specs.found_in_stack shape.now e.now kind
        src offset)) }
{
    match stack_place(e.value(src), offset, load_count(kind)) {
        Some(place) => push_slot(text, shape, src, offset, e.load(place, kind)),
        None => Ok(()),
    }
}

/// Writes what a load from the stack reads.
pub fn push_stack(
    text: &mut String,
    shape: &Shape,
    e: &AbsState,
    insn: Insn,
) -> Result<(), AllocError>
    ensures { OnOk result (Appends text.old text.new (specs.stack_text shape.now e.now insn)) }
{
    match insn {
        Insn::Load {
            kind,
            src,
            offset,
            ..
        } => push_loaded(text, shape, e, kind, src, offset),
        _ => Ok(()),
    }
}
