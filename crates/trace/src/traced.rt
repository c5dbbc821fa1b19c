//! A whole run, step by step.

ghost use Rattle.std.specs.Prelude.{◌≡◌, ◌≤◌, IfOk, length};
ghost use Rattle.std.specs.Arc.{arc_value};
ghost use Rattle.bpf_semantics.specs.State.{opening};
ghost use Rattle.trace.specs.Trace.{IsTrace, IsTraced, IsTracedRun};

use crate::jump::{Jump, latest_jump};
use crate::step_line::push_step;
use attrs::Attrs;
use bpf_insn::Insn;
use bpf_semantics::counts_instructions;
use bpf_verify::Verified;
use cells::{PlainCells, PlainPass};
use flow_check::laid_out;
use reference::{Interpreter, Observed};
use std::alloc::{AllocError, Global};
use std::sync::Arc;

/// The result of a run: a line for each step, its choice, how many instructions it executed,
/// including EXIT, and the last jump that it took, if any.
#[derive(Drop)]
pub struct TracedRun {
    pub text: String,
    pub choice: u8,
    pub count: u32,
    pub last_jump: Option<Jump>,
}

/// The trace of a program's run for an app, on its own counters, which start at 0.
// open: whether an allocation fails, its only error; the lines: rows.
pub fn trace(alloc: Global, program: &Verified, attrs: Arc<Attrs>) -> Result<TracedRun, AllocError>
    ensures run { IfOk result (λ t. IsTracedRun program.now (arc_value attrs)
        t.choice t.count t.last_jump) }
    // The same for a caller that needs no jump.
    ensures trace { IfOk result (λ t. IsTrace program.now (arc_value attrs) t.choice t.count) }
    ensures release { IfOk result (λ t. t.choice ≤ program.now.shape.releases) }
{
    let Ok((_cells, mut counters)) = PlainCells::new(alloc) else {
        return Err(AllocError);
    };
    let run = trace_on(alloc, program, attrs, &mut counters)?;
    Ok(run)
}

/// The trace of a program's run for an app, on counters with these values, which its operations
/// change.
// open: whether an allocation fails, and the counters in that case; the lines: rows.
pub fn trace_on(
    alloc: Global,
    program: &Verified,
    attrs: Arc<Attrs>,
    counters: &mut PlainPass,
) -> Result<TracedRun, AllocError>
    ensures run { IfOk result (λ t. IsTraced program.now (opening (arc_value attrs))
        counters.old counters.new t.choice t.count t.last_jump) }
    ensures short { IfOk result (λ t. t.count ≤ length program.now.code) }
    ensures release { IfOk result (λ t. t.choice ≤ program.now.shape.releases) }
{
    program.invariant_law();
    let facts: &Attrs = &attrs;
    facts.invariant_law();
    counts_instructions();
    let code = slots_of(alloc, program)?;
    let shape = program.shape();
    let mut text = String::new(alloc);
    let mut last_jump = None;
    let mut run = Interpreter::start(attrs);
    'steps: loop {
        let slot = run.slot();
        let insn = *program.insn(slot);
        match run.step(&code, shape, &PlainCells, counters) {
            Observed::Going => {
                push_step(&mut text, shape, slot, insn, None, &run)?;
                last_jump = latest_jump(last_jump, insn, slot, &run);
            }
            Observed::Event(event) => {
                push_step(&mut text, shape, slot, insn, Some(event), &run)?;
                last_jump = latest_jump(last_jump, insn, slot, &run);
            }
            Observed::Done(choice) => {
                push_step(&mut text, shape, slot, insn, None, &run)?;
                return Ok(TracedRun {
                    text,
                    choice: choice as u8,
                    count: run.count() as u32 + 1,
                    last_jump,
                });
            }
            Observed::Trap => unreachable!(),
        }
    }
}

// The program, with an entry for each slot.
fn slots_of(alloc: Global, program: &Verified) -> Result<Vec<Option<Insn>>, AllocError>
    ensures { IfOk result (λ code. code.items ≡ program.now.code) }
{
    Ok(laid_out(alloc, program.code())?)
}
