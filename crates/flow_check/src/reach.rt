//! The slots that are reached. Every edge leads forward, so one upward sweep finds them: when it
//! reaches a slot, it has passed all edges that lead there.

ghost use Rattle.std.specs.Prelude.{◌≡◌, true, false, ℕ, ◌<◌, ◌≤◌, ◌-◌, IfOk, IfSome};
ghost use Rattle.std.specs.Prelude.{All, Contains, length, replicate, slice_set};
ghost use Rattle.flow_check.specs.Edges.{successors};
ghost use Rattle.flow_check.specs.Flow.{LeadsAhead};
ghost use Rattle.flow_check.specs.Laid.{laid};
ghost use Rattle.flow_check.specs.Sweep.{IsMarked, IsMarkedTo};
ghost use Rattle.flow_check.specs.Sweep.{IsLowestUnreached, MarksOnly, marked};

use crate::edges::{jump_target, next_place};
use crate::slots::{insn_after, is_wide_at, slot_count};
use bpf_insn::Insn;
use std::alloc::{AllocError, Global};

/// Marks a slot, if there is one.
fn mark(marks: &mut [bool], place: Option<usize>)
    requires { IfSome place (λ t. t < length marks.old) }
    ensures { marks.new ≡ marked marks.old place }
{
    if let Some(place) = place {
        marks[place] = true;
    }
}

/// Marks the successors of an instruction.
fn mark_successors(marks: &mut [bool], slot: usize, insn: Insn)
    requires slot { slot < 4096 }
    requires within { All (λ t. t < length marks.old) (successors slot insn) }
    ensures kept { (m : ℕ) → IsMarked marks.old m → IsMarked marks.new m }
    ensures marked { (m : ℕ) → Contains (successors slot insn) m → IsMarked marks.new m }
    ensures only { MarksOnly marks.old marks.new (successors slot insn) }
{
    mark(marks, jump_target(slot, insn));
    mark(marks, next_place(slot, insn));
}

/// Sweeps upwards, and stops at the first slot whose instruction isn't reached.
fn sweep(marks: &mut [bool], code: &[Insn]) -> Option<usize>
    requires short { length (laid code.now) ≤ 4096 }
    requires ahead { LeadsAhead (laid code.now) }
    requires start { IsMarkedTo (laid code.now) 0 marks.old }
    ensures { IsLowestUnreached (laid code.now) result }
{
    let count = slot_count(code);
    let mut wide = false;
    for slot in 0..count {
        if let Some(insn) = insn_after(code, slot, wide) {
            if !marks[slot] {
                return Some(slot);
            }
            mark_successors(marks, slot, insn);
        }
        wide = is_wide_at(code, slot);
    }
    None
}

/// A mark for each slot; only the first is set.
fn opening(alloc: Global, count: usize) -> Result<Vec<bool>, AllocError>
    requires { 0 < count }
    ensures { IfOk result (λ v. v.items ≡ slice_set (replicate count false) 0 true) }
{
    let mut marks = vec![in alloc; false; count]?;
    marks[0] = true;
    Ok(marks)
}

/// The lowest slot whose instruction isn't reached.
pub fn first_unreached(alloc: Global, code: &[Insn]) -> Result<Option<usize>, AllocError>
    requires some { 0 < length (laid code.now) }
    requires short { length (laid code.now) ≤ 4096 }
    requires ahead { LeadsAhead (laid code.now) }
    ensures { IfOk result (λ place. IsLowestUnreached (laid code.now) place) }
{
    let mut marks = opening(alloc, slot_count(code))?;
    Ok(sweep(&mut marks, code))
}
