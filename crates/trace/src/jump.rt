//! The jumps that a run takes.

ghost use Rattle.std.specs.Prelude.{◌≡◌};
ghost use Rattle.std.specs.Option.{option_or};
ghost use Rattle.reference.specs.Marks.{state_of};
ghost use Rattle.trace.specs.Jumps as specs;

use bpf_insn::Insn;
use reference::Interpreter;

/// A jump that was taken: the slot of its instruction, and the slot at which the run continued.
#[derive(Clone, Copy)]
pub struct Jump {
    pub from: usize,
    pub to: usize,
}

/// The last jump of a run after a step by the instruction at a slot; `before` is the last one
/// before that step. The run is in the state after it.
pub fn latest_jump(before: Option<Jump>, insn: Insn, slot: usize, run: &Interpreter) -> Option<Jump>
    ensures { result ≡ option_or (specs.jump_by insn slot (state_of run.now).slot) before }
{
    match jump_by(insn, slot, run.slot()) {
        Some(jump) => Some(jump),
        None => before,
    }
}

// The jump that an instruction takes if the run continues at slot `to`.
fn jump_by(insn: Insn, from: usize, to: usize) -> Option<Jump>
    ensures { result ≡ specs.jump_by insn from to }
{
    match insn {
        Insn::Jump { .. } => taken_jump(from, to),
        Insn::JumpIf { .. } => taken_jump(from, to),
        _ => None,
    }
}

// A jump to the next slot isn't taken.
fn taken_jump(from: usize, to: usize) -> Option<Jump>
    ensures { result ≡ specs.taken_jump from to }
{
    if to > 0 && to - 1 == from {
        None
    } else {
        Some(Jump { from, to })
    }
}
