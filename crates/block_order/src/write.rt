//! The bytes of the lines: each jump gets the offset to the new slot of its target.

use crate::kept::place_of;
use crate::plan::{BlockPlan, PlannedLine};
use bpf_insn::{Distance, Insn, encode};
use std::alloc::{AllocError, Global};

/// The jump with another offset.
fn with_offset(jump: Insn, offset: i16) -> Insn {
    match jump {
        Insn::Jump { .. } => Insn::Jump {
            distance: Distance::Short(offset),
        },
        Insn::JumpIf {
            bits,
            condition,
            left,
            right,
            ..
        } => Insn::JumpIf {
            bits,
            condition,
            left,
            right,
            offset,
        },
        insn => insn,
    }
}

/// The instruction of a line at its slot; `None` if it jumps to a slot that isn't placed ahead.
fn resolved(line: PlannedLine, slot: usize, places: &[Option<usize>]) -> Option<Insn> {
    let Some(target) = line.target else {
        return Some(line.insn);
    };
    let place = place_of(places, target)?;
    let offset = place.checked_sub(slot.checked_add(1)?)?;
    if offset > 32767 {
        return None;
    }
    Some(with_offset(line.insn, offset as i16))
}

/// The bytes of the lines; `None` if a jump's target isn't placed ahead.
pub fn written(alloc: Global, plan: &BlockPlan) -> Result<Option<Vec<u8>>, AllocError> {
    let mut bytes = Vec::new(alloc);
    for (slot, place) in plan.lines.iter().enumerate() {
        if let Some(line) = *place {
            let Some(insn) = resolved(line, slot, &plan.places) else {
                return Ok(None);
            };
            let (encoding, count) = encode(&insn);
            bytes.extend_from_slice(&encoding[..count])?;
        }
    }
    Ok(Some(bytes))
}
