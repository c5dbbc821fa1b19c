//! The ordered program as lines, in which a jump names the old slot of its target. The plan is
//! built slot by slot. If an instruction continues at one that isn't next, a JA is inserted, and a
//! JA to the next line is left out.

ghost use Rattle.std.specs.Prelude.{◌≡◌, ◌<◌, ◌≤◌, IfOk, OnOk, length};

use crate::ready::{mark_entered, mark_heads, next_ready};
use bpf_insn::{Distance, Insn, Width};
use flow_check::{jump_target, next_place};
use std::alloc::{AllocError, Global};

/// An instruction of the ordered program, and the old slot that it jumps to, if it jumps.
#[derive(Clone, Copy)]
pub struct PlannedLine {
    pub insn: Insn,
    pub target: Option<usize>,
}

/// The lines so far, by their slots; the new slot of each old slot; and the old slot at which the
/// last line continues.
#[derive(Drop)]
pub struct BlockPlan {
    pub lines: Vec<Option<PlannedLine>>,
    pub places: Vec<Option<usize>>,
    pending: Option<usize>,
}

impl BlockPlan {
    /// A plan without lines, for a program of `count` slots.
    fn new(alloc: Global, count: usize) -> Result<BlockPlan, AllocError>
        ensures { IfOk result (λ p. length p.places.items ≡ count) }
    {
        let places = vec![in alloc; None; count]?;
        Ok(BlockPlan {
            lines: Vec::new(alloc),
            places,
            pending: None,
        })
    }

    /// Adds a JA to the slot at which the last line continues, unless the next line is that slot.
    fn lead_on(&mut self, next: Option<usize>) -> Result<(), AllocError>
        ensures { OnOk result (length self.new.places.items ≡ length self.old.places.items) }
    {
        if self.pending != next && self.pending.is_some() {
            let insn = Insn::Jump {
                distance: Distance::Short(0),
            };
            let target = self.pending;
            self.lines.push(Some(PlannedLine { insn, target }))?;
        }
        self.pending = None;
        Ok(())
    }

    /// Adds the line of the slot's instruction. A JA adds none; it is inserted when needed.
    fn place(&mut self, slot: usize, insn: Insn) -> Result<(), AllocError>
        requires short { slot < 4096 }
        requires within { slot < length self.old.places.items }
        ensures { OnOk result (length self.new.places.items ≡ length self.old.places.items) }
    {
        self.lead_on(Some(slot))?;
        self.places[slot] = Some(self.lines.len());
        let target = jump_target(slot, insn);
        if let Insn::Jump { .. } = insn {
            self.pending = target;
            return Ok(());
        }
        self.lines.push(Some(PlannedLine { insn, target }))?;
        if insn.width() == Width::Two {
            self.lines.push(None)?;
        }
        self.pending = next_place(slot, insn);
        Ok(())
    }
}

/// The lines of the reached slots, as far as they can be put in order.
pub fn planned(
    alloc: Global,
    code: &[Option<Insn>],
    reached: &[bool],
) -> Result<BlockPlan, AllocError>
    requires { length code.now ≤ 4096 }
    ensures { IfOk result (λ p. length p.places.items ≡ length code.now) }
{
    let mut heads = vec![in alloc; false; code.len()]?;
    mark_heads(&mut heads, code, reached);
    let mut entered = vec![in alloc; false; code.len()]?;
    let mut plan = BlockPlan::new(alloc, code.len())?;
    for _count in 0..code.len() {
        mark_entered(&mut entered, code, reached, &plan.places);
        let Some(slot) = next_ready(&heads, &entered, reached, &plan.places) else {
            break;
        };
        if let Some(insn) = code[slot] {
            plan.place(slot, insn)?;
        }
    }
    plan.lead_on(None)?;
    Ok(plan)
}
