//! One line: an instruction, and what is known before it.

ghost use Rattle.std.specs.Prelude.{◌≡◌, ◌<◌, IfOk, OnOk, nat_le, option_copied, string_bytes};
ghost use Rattle.std.specs.List.{list_all};
ghost use Rattle.bpf_text.specs.Listing.{Appends};
ghost use Rattle.why_refused_program.specs.Lines as specs;

use crate::reads::ReadRegisters;
use crate::register_texts::{push_registers, push_stack};
use crate::sentence::cited_rule;
use crate::way::Way;
use abs_value::AbsState;
use bpf_checks::first_rule;
use bpf_insn::Insn;
use bpf_text::push_bare_line;
use cells::Shape;
use std::alloc::{AllocError, Global};
use std::fmt::Write;

/// The column of comments, in characters from the start of a line.
const COLUMN: usize = 22;

fn push_state(
    text: &mut String,
    shape: &Shape,
    e: &AbsState,
    insn: Insn,
    way: &Way,
) -> Result<(), AllocError>
    ensures { OnOk result (Appends text.old text.new
        (specs.state_text shape.now e.now insn way.now)) }
{
    push_registers(text, shape, e, &ReadRegisters::of(insn), way)?;
    push_stack(text, shape, e, insn)?;
    Ok(())
}

// What is known before an instruction, or the rule that it breaks.
fn comment_of(
    alloc: Global,
    shape: &Shape,
    slot: usize,
    entry: Option<&AbsState>,
    insn: &Insn,
    way: &Way,
) -> Result<String, AllocError>
    ensures { IfOk result (λ text. specs.HasComment shape.now slot (option_copied entry.entry)
        insn.now way.now (string_bytes text)) }
{
    let Some(e) = entry else {
        return String::from_str(alloc, "no run comes here");
    };
    let mut text = String::new(alloc);
    write!(text, "{slot}:")?;
    let Some(rule) = first_rule(shape, e, insn) else {
        push_state(&mut text, shape, e, *insn, way)?;
        return Ok(text);
    };
    let cited = cited_rule(alloc, shape, e, *insn, rule)?;
    text.push_str(" ")?;
    text.push_str(cited.as_str())?;
    Ok(text)
}

fn is_plain(text: &str) -> bool
    ensures { result ≡ list_all (λ c. nat_le 32 c) text.now }
{
    let mut left = text.as_bytes();
    while let [c, rest @ ..] = left {
        if *c < 32 {
            return false;
        }
        left = rest;
    }
    true
}

fn push_blanks(text: &mut String, width: usize) -> Result<(), AllocError>
    ensures { OnOk result (Appends text.old text.new (specs.pad_to_comment width)) }
{
    let mut left = COLUMN.saturating_sub(width).max(1);
    while left > 0 {
        text.push_str(" ")?;
        left -= 1;
    }
    Ok(())
}

fn push_padded(text: &mut String, insn: Insn) -> Result<(), AllocError>
    ensures { OnOk result (Appends text.old text.new (specs.padded_line insn)) }
{
    let before = text.len();
    push_bare_line(text, insn)?;
    let width = text.len().saturating_sub(before);
    push_blanks(text, width)?;
    Ok(())
}

/// Writes the line of an instruction, with a comment that says what is known before it. A comment
/// with a control character, which no name and no word has, counts as out of memory.
pub fn push_line(
    text: &mut String,
    shape: &Shape,
    slot: usize,
    entry: Option<&AbsState>,
    insn: &Insn,
    way: &Way,
) -> Result<(), AllocError>
    ensures { OnOk result (specs.AddsLine shape.now slot (option_copied entry.entry) insn.now
        way.now (string_bytes text.old) (string_bytes text.new)) }
{
    let comment = comment_of(*text.allocator(), shape, slot, entry, insn, way)?;
    if !is_plain(comment.as_str()) {
        return Err(AllocError);
    }
    push_padded(text, *insn)?;
    text.push_str("; ")?;
    text.push_str(comment.as_str())?;
    text.push_str("\n")?;
    Ok(())
}
