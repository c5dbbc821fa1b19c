//! The program of a whole rule: its code is generated, and is accepted by proof.

ghost use Rattle.std.specs.Prelude.{◌≡◌, ◌<◌, length, IfOk, true};
ghost use Rattle.std.specs.List.{AllByRecursion};
ghost use Rattle.attrs.specs.Attributes.{Attributes};
ghost use Rattle.flow_check.specs.Flow.{IsFlow};
ghost use Rattle.flow_check.specs.Laid.{laid};
ghost use Rattle.rule_lang.specs.Fits.{fits};
ghost use Rattle.rule_lang.specs.Cost.{cost};
ghost use Rattle.rule_compile.specs.Code as code;
ghost use Rattle.rule_compile.specs.Means.{Means};
ghost use Rattle.rule_compile.specs.Writing.{CanEncode};

use crate::bytes::program_bytes;
use crate::compile_fault::CompileFault;
use crate::statements::emit;
use bpf_insn::Insn;
use bpf_verify::{Verified, table_is_enough};
use cells::Shape;
use flow_check::Flow;
use rule_lang::Rule;
use std::alloc::{AllocError, Global};

/// The program of slots that form a valid graph, with its bytes.
fn flow_of(alloc: Global, slots: Vec<Insn>) -> Result<Flow, AllocError>
    requires { AllByRecursion CanEncode (laid slots.items) → IsFlow (laid slots.items) }
    ensures { IfOk result (λ flow. flow ≡ laid slots.items) }
{
    let bytes = program_bytes(alloc, &slots)?;
    Ok(Flow::proved(bytes, slots))
}

/// The program of a rule that fits the shape, accepted under it. For any replies of cells, its run
/// makes the additions to cells that the rule means, and ends with the rule's choice.
///
/// Returns C1 only if the code would exceed 4096 slots; a rule with a cost of at most 4096 never
/// does. Returns C2 only if an allocation fails. (A shape with 2^31 arrays, which an instruction
/// can't number, counts as C2.) The bytes for a file are the program's `bytes`.
// open: whether an allocation fails (C2).
pub fn compile(alloc: Global, rule: &Rule, shape: &Shape) -> Result<Verified, CompileFault>
    requires { fits shape.now rule.now ≡ true }
    ensures code { IfOk result (λ v. v.code ≡ code.rule_code shape.now rule.now) }
    ensures shape { IfOk result (λ v. v.shape ≡ shape.now) }
    ensures meaning { IfOk result (λ v. (a : Attributes) → Means a rule.now v) }
    ensures slots { result ≡ Err CompileFault.TooLong
        → 4096 < length (code.rule_code shape.now rule.now) }
    ensures cost { result ≡ Err CompileFault.TooLong → 4096 < cost rule.now }
{
    shape.invariant_law();
    let code = emit(alloc, shape, rule.statements())?;
    code.invariant_law();
    let flow = flow_of(alloc, code.into_slots())?;
    table_is_enough();
    Ok(Verified::proved(alloc, flow, shape)?)
}
