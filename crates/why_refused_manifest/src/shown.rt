//! The excerpt of an app's file: the place of its fault. No clause says the words; rows compare
//! them.

use bounded_files::KeptBytes;
use bpf_insn::decode_at;
use bpf_text::line_of;
use cells::Shape;
use flow_check::Flow;
use printing::PrintedLines;
use rule_lang::RuleFaultKind;
use std::alloc::Global;
use std::str;
use why_refused_program::refused_place;
use why_refused_rule::{line_text, rule_fault_message, rule_too_long};

/// A place in the file of an app.
#[derive(Clone, Copy)]
pub(crate) enum FaultPlace {
    /// The whole file.
    Whole,
    /// The instruction that begins at a slot; of an ELF object, the whole file.
    Slot(usize),
    /// The instruction that begins at a slot, which the verifier refuses.
    Refused(usize),
    /// A line of a rule's text, numbered from 1, with a fault of this kind.
    Rule(usize, RuleFaultKind),
}

/// The lines that show a place in an app's file, from what is kept of it; None if there is no such
/// place or an allocation fails.
pub(crate) fn show(
    alloc: Global,
    place: FaultPlace,
    shape: &Shape,
    kept: &Option<KeptBytes>,
) -> Option<String> {
    match kept {
        None => None,
        Some(KeptBytes::Whole(bytes)) => show_whole(alloc, place, shape, bytes.as_slice()),
        Some(
            KeptBytes::Longer {
                beginning,
                is_text,
                ..
            },
        ) => show_longer(alloc, place, beginning.as_slice(), *is_text),
    }
}

// For a file that is longer than it may be.
fn show_longer(
    alloc: Global,
    place: FaultPlace,
    beginning: &[u8],
    is_text: bool,
) -> Option<String> {
    match place {
        FaultPlace::Whole | FaultPlace::Refused(_) => None,
        FaultPlace::Slot(slot) => show_slot(alloc, slot, beginning),
        FaultPlace::Rule(_, _) if is_text => String::from_str(alloc, rule_too_long()).ok(),
        FaultPlace::Rule(_, _) => show_no_text(alloc),
    }
}

fn show_whole(alloc: Global, place: FaultPlace, shape: &Shape, bytes: &[u8]) -> Option<String> {
    match place {
        FaultPlace::Whole => None,
        FaultPlace::Slot(slot) => show_slot(alloc, slot, bytes),
        FaultPlace::Refused(slot) => show_refused(alloc, shape, slot, bytes),
        FaultPlace::Rule(line, kind) => match str::from_utf8(bytes) {
            Ok(text) => show_rule(alloc, shape, line, kind, text),
            Err(_) => show_no_text(alloc),
        },
    }
}

// That the file is an object of a compiler; or else the instruction.
fn show_slot(alloc: Global, slot: usize, bytes: &[u8]) -> Option<String> {
    if bytes.starts_with(b"\x7fELF") {
        let advice =
            "an ELF object; llvm-objcopy -O binary -j .text IN OUT makes a program of it\n";
        return String::from_str(alloc, advice).ok();
    }
    show_insn(alloc, slot, bytes)
}

fn show_insn(alloc: Global, slot: usize, bytes: &[u8]) -> Option<String> {
    let (insn, _) = decode_at(bytes, slot).ok()?;
    let line = line_of(alloc, insn).ok()?;
    format!(in alloc; "slot {slot}: {line}").ok()
}

// The instruction and why it is refused, or at least the instruction.
fn show_refused(alloc: Global, shape: &Shape, slot: usize, bytes: &[u8]) -> Option<String> {
    let insn = show_insn(alloc, slot, bytes)?;
    match with_sentence(alloc, shape, slot, bytes, insn.as_str()) {
        Some(text) => Some(text),
        None => Some(insn),
    }
}

// The verifier's walk gives the place and the reason of the refusal.
fn with_sentence(
    alloc: Global,
    shape: &Shape,
    slot: usize,
    bytes: &[u8],
    insn: &str,
) -> Option<String> {
    let flow = Flow::check(alloc, bytes).ok()?;
    let Ok(Some(place)) = refused_place(alloc, &flow, shape) else {
        return None;
    };
    if place.slot != slot {
        return None;
    }
    let sentence = place.sentence.as_str();
    format!(in alloc; "{insn}{sentence}\n").ok()
}

fn show_no_text(alloc: Global) -> Option<String> {
    String::from_str(alloc, "a rule is a text in UTF-8\n").ok()
}

// The explanation of a rule's fault, or at least its line.
fn show_rule(
    alloc: Global,
    shape: &Shape,
    number: usize,
    kind: RuleFaultKind,
    text: &str,
) -> Option<String> {
    if let Some(message) = rule_fault_message(alloc, text, shape, number, kind) {
        return Some(message);
    }
    let line = PrintedLines(line_text(number, text));
    format!(in alloc; "line {number}: {line}\n").ok()
}
