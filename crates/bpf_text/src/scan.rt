//! The first pass over a text: each line's own fault, and the slots of labels and instructions.

ghost use Rattle.std.specs.Prelude.{
  ◌≡◌,
  ◌≤◌,
  ◌<◌,
  ◌^◌,
  ◌+◌,
  ◌++◌,
  ℕ,
  List,
  map,
  IfOk,
  IfErr,
  OnOk,
};
ghost use Rattle.bpf_text.specs.Assembly.{
  fault_of_body,
  too_long,
  has_slot,
  slots_of_word,
  slots_of_body,
  placed_body,
};
ghost use Rattle.bpf_text.specs.Labels.{slot_at, AddsLabel};
ghost use Rattle.bpf_text.specs.Names.{name_of, body_named, line_named};
ghost use Rattle.bpf_text.specs.Reading.{AddsBody, ReadsOn, IsLineFault};

use crate::label::{Labels, add_label, label_slot};
use crate::line::{AsmStatement, Line};
use crate::mnemonic::Mnemonic;
use crate::text_fault::{AsmFault, AsmFaultKind};
use bpf_insn::MOST_SLOTS;
use std::alloc::AllocError;

/// A statement with its line, counted from 1, and its slot.
#[derive(Drop)]
pub struct PlacedStatement<N> {
    pub line: usize,
    pub slot: u16,
    pub statement: AsmStatement<N>,
}

/// The result of the first pass so far.
#[derive(Drop)]
pub struct Reading<'a> {
    pub lines: usize,
    pub slots: u16,
    pub labels: Labels<'a>,
    pub placed: Vec<PlacedStatement<&'a [u8]>>,
}

fn slots_of_word(mnemonic: Mnemonic) -> u16
    ensures is { result ≡ slots_of_word mnemonic }
    ensures small { result ≤ 2 }
{
    match mnemonic {
        Mnemonic::LoadNumber | Mnemonic::LoadMap | Mnemonic::LoadCell => 2,
        _ => 1,
    }
}

// Whether an earlier line has the label.
fn is_taken<'a>(labels: &Labels<'a>, label: Option<&'a [u8]>) -> bool
    ensures { result ≡ has_slot (slot_at labels.now) (name_of label.entry) }
{
    match label {
        Some(name) => label_slot(labels, name).is_some(),
        None => false,
    }
}

fn too_long(slots: u16) -> Option<AsmFaultKind>
    ensures { result ≡ too_long slots }
{
    if slots as usize > MOST_SLOTS {
        Some(AsmFaultKind::TooLong)
    } else {
        None
    }
}

fn fault_of_body(
    slots: u16,
    twice: bool,
    body: &Result<Option<AsmStatement<&[u8]>>, AsmFaultKind>,
) -> Option<AsmFaultKind>
    requires { slots ≤ 4096 }
    ensures { result ≡ fault_of_body slots twice (body_named body.now) }
{
    match body {
        Err(AsmFaultKind::Range) if twice => Some(AsmFaultKind::Label),
        Err(kind) => Some(*kind),
        Ok(_) if twice => Some(AsmFaultKind::Label),
        Ok(None) => None,
        Ok(Some(statement)) => too_long(slots + slots_of_word(statement.mnemonic)),
    }
}

fn note_label<'a>(
    labels: &mut Labels<'a>,
    label: Option<&'a [u8]>,
    slot: u16,
) -> Result<(), AllocError>
    ensures { OnOk result (AddsLabel labels.old labels.new (name_of label.entry) slot) }
{
    match label {
        Some(name) => add_label(labels, name, slot),
        None => Ok(()),
    }
}

// Notes the instruction of a line, if it has one, and returns the number of its slots.
fn place<'a>(
    placed: &mut Vec<PlacedStatement<&'a [u8]>>,
    line: usize,
    slot: u16,
    body: Result<Option<AsmStatement<&'a [u8]>>, AsmFaultKind>,
) -> Result<u16, AllocError>
    ensures slots { IfOk result (λ n. n ≡ slots_of_body (body_named body.entry)) }
    ensures small { IfOk result (λ n. n ≤ 2) }
    ensures placed { OnOk result (AddsBody placed.old.items placed.new.items line slot body.entry) }
{
    match body {
        Ok(Some(statement)) => {
            let slots = slots_of_word(statement.mnemonic);
            placed.push(PlacedStatement {
                line,
                slot,
                statement,
            })?;
            Ok(slots)
        }
        _ => Ok(0),
    }
}

/// Reads one more line: notes its label and its instruction, or returns its own fault.
pub fn add_line<'a>(reading: &mut Reading<'a>, line: Line<&'a [u8]>) -> Result<(), AsmFault>
    requires small { reading.old.slots ≤ 4096 }
    requires room { reading.old.lines + 1 < 2 ^ 64 }
    ensures on { OnOk result (ReadsOn reading.old reading.new (line_named line.entry)) }
    ensures fault { IfErr result (IsLineFault reading.old (line_named line.entry)) }
    ensures counted { OnOk result (reading.new.lines ≡ reading.old.lines + 1) }
    ensures short { OnOk result (reading.new.slots ≤ 4096) }
{
    let twice = is_taken(&reading.labels, line.label);
    let number = reading.lines + 1;
    let slot = reading.slots;
    if let Some(kind) = fault_of_body(slot, twice, &line.body) {
        return Err(AsmFault::At { line: number, kind });
    }
    note_label(&mut reading.labels, line.label, slot)?;
    let slots = place(&mut reading.placed, number, slot, line.body)?;
    reading.lines = number;
    reading.slots = slot + slots;
    Ok(())
}
