//! The assembler, from a text to its bytes. The first pass reads each line, and notes the slots of
//! labels and instructions. The second pass computes the distance of each jump, and writes the
//! encodings.

ghost use Rattle.std.specs.Prelude.{◌≡◌, ◌++◌, option_map, IfOk, IfErr, Ok, OnOk};
ghost use Rattle.bpf_insn.specs.Spelling.{encoding};
ghost use Rattle.bpf_text.specs.Assembly.{
  short_distance,
  slots_to,
  argument_at,
  argument_if,
  arguments_at,
  insn_at,
  assembly_of,
  Assembles,
  IsAsmFault,
};
ghost use Rattle.bpf_text.specs.Labels.{slot_at};
ghost use Rattle.bpf_text.specs.Names.{given_named, placed_named};
ghost use Rattle.bpf_text.specs.Reading.{
  bytes_read,
  IsByteFault,
  IsReadingFault,
  IsTableFault,
  IsWholeReading,
};
ghost use Rattle.bpf_text.specs.Tables.{tables};
ghost use Rattle.bpf_text.specs.Three.{map_three};

use crate::argument::Argument;
use crate::label::{Labels, label_slot};
use crate::line::{read_line, split_line};
use crate::operand::Given;
use crate::scan::{PlacedStatement, Reading, add_line};
use crate::statement::insn_of;
use crate::text_fault::{AsmFault, AsmFaultKind};
use crate::three::UpToThree;
use bpf_insn::{Distance, Insn, encode};
use std::alloc::{AllocError, Global};
use std::collections::BTreeMap;

fn short_distance(z: i32) -> Option<Argument>
    ensures { result ≡ short_distance z }
{
    if -0x8000 <= z && z < 0x8000 {
        Some(Argument::Distance(Distance::Short(z as i16)))
    } else {
        None
    }
}

// The distance from the instruction after `slot` to a label.
fn slots_to<'a>(labels: &Labels<'a>, slot: u16, name: &'a [u8]) -> Result<i32, AsmFaultKind>
    ensures { result ≡ slots_to (slot_at labels.now) slot name.now }
{
    let to = label_slot(labels, name).ok_or(AsmFaultKind::Label)?;
    Ok(i32::from(to) - (i32::from(slot) + 1))
}

fn argument_at<'a>(
    labels: &Labels<'a>,
    slot: u16,
    given: Given<&'a [u8]>,
) -> Result<Argument, AsmFaultKind>
    ensures { result ≡ argument_at (slot_at labels.now) slot (given_named given.entry) }
{
    match given {
        Given::Argument(argument) => Ok(argument),
        Given::ShortTo(name) => {
            let distance = slots_to(labels, slot, name)?;
            short_distance(distance).ok_or(AsmFaultKind::Range)
        }
        Given::LongTo(name) => {
            let distance = slots_to(labels, slot, name)?;
            Ok(Argument::Distance(Distance::Long(distance)))
        }
    }
}

fn argument_if<'a>(
    labels: &Labels<'a>,
    slot: u16,
    given: Option<Given<&'a [u8]>>,
) -> Result<Option<Argument>, AsmFaultKind>
    ensures { result ≡ argument_if (slot_at labels.now) slot (option_map given_named given.entry) }
{
    match given {
        Some(given) => Ok(Some(argument_at(labels, slot, given)?)),
        None => Ok(None),
    }
}

// The arguments, with each label replaced by its distance.
fn arguments_at<'a>(
    labels: &Labels<'a>,
    slot: u16,
    given: UpToThree<Given<&'a [u8]>>,
) -> Result<UpToThree<Argument>, AsmFaultKind>
    ensures { result ≡ arguments_at (slot_at labels.now) slot (map_three given_named given.entry) }
{
    let first = argument_if(labels, slot, given.first)?;
    let second = argument_if(labels, slot, given.second)?;
    let third = argument_if(labels, slot, given.third)?;
    Ok(UpToThree {
        first,
        second,
        third,
    })
}

fn insn_at<'a>(
    labels: &Labels<'a>,
    placed: &PlacedStatement<&'a [u8]>,
) -> Result<Insn, AsmFaultKind>
    ensures { result ≡ insn_at tables (slot_at labels.now) (placed_named placed.now) }
{
    let arguments = arguments_at(labels, placed.slot, placed.statement.arguments)?;
    insn_of(placed.statement.mnemonic, arguments).ok_or(AsmFaultKind::Operand)
}

// Appends one encoding.
fn push_encoding(out: &mut Vec<u8>, insn: &Insn) -> Result<(), AllocError>
    ensures { OnOk result (out.new.items ≡ out.old.items ++ encoding insn.now) }
{
    let (bytes, length) = encode(insn);
    out.extend_from_slice(&bytes[..length])?;
    Ok(())
}

// The encodings of the instructions, in order.
fn write_bytes<'a>(alloc: Global, reading: &Reading<'a>) -> Result<Vec<u8>, AsmFault>
    ensures bytes { IfOk result (λ v. bytes_read reading.now ≡ Ok v.items) }
    ensures fault { IfErr result (IsByteFault reading.now) }
{
    let mut out = Vec::with_capacity(alloc, 8 * usize::from(reading.slots))?;
    for placed in &reading.placed {
        match insn_at(&reading.labels, placed) {
            Ok(insn) => push_encoding(&mut out, &insn)?,
            Err(kind) => return Err(AsmFault::At {
                line: placed.line,
                kind,
            }),
        }
    }
    Ok(out)
}

// The first pass.
fn read_text<'a>(alloc: Global, text: &'a [u8]) -> Result<Reading<'a>, AsmFault>
    ensures whole { IfOk result (λ r. IsWholeReading text.now r) }
    ensures fault { IfErr result (IsReadingFault text.now) }
{
    let mut reading = Reading {
        lines: 0,
        slots: 0,
        labels: BTreeMap::new(alloc),
        placed: Vec::new(alloc),
    };
    let mut tokens = Vec::new(alloc);
    let mut rest = text;
    while !rest.is_empty() {
        let (line, behind) = split_line(rest);
        let line = read_line(&mut tokens, line)?;
        add_line(&mut reading, line)?;
        rest = behind;
    }
    Ok(reading)
}

// Assembles with the assembler's own tables.
#[tactic(auto, unfolding(crate::specs::Assembly::assembly_of))]
fn assembled(alloc: Global, text: &[u8]) -> Result<Vec<u8>, AsmFault>
    ensures bytes { IfOk result (λ v. assembly_of tables text.now ≡ Ok v.items) }
    ensures fault { IfErr result (IsTableFault text.now) }
{
    let reading = read_text(alloc, text)?;
    write_bytes(alloc, &reading)
}

/// The bytes of a text. A line has an optional label `name:` and an optional instruction, in the
/// syntax of the listing. LF or CR LF ends a line, spaces and tabs separate tokens, and `;` begins
/// a comment. A jump goes to a label, or by a distance with its sign. An imm is -2147483648 to
/// 4294967295, and the number of `lddw` is -2^63 to 2^64 - 1.
///
/// Returns the first line that has a fault of its own, with its lowest fault: `Token`, `Mnemonic`,
/// `Operand`, `Label`, `Range` or `TooLong`. `Label` here means a duplicate label, and `TooLong` an
/// instruction past slot 4096. If there is no such line, returns the first jump to an unknown
/// label. Returns `Memory` if an allocation fails.
// open: whether an allocation fails (A7).
pub fn assemble(alloc: Global, text: &str) -> Result<Vec<u8>, AsmFault>
    ensures bytes { IfOk result (λ v. Assembles text.now (Ok v.items)) }
    ensures fault { IfErr result (IsAsmFault text.now) }
{
    assembled(alloc, text.as_bytes())
}
