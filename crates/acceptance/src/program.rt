//! From the bytes of a program to an accepted program.

ghost use Rattle.std.specs.Prelude.{◌≡◌, IfOk, IfErr};
ghost use Rattle.acceptance.specs.Program.{IsProgramOf, RefusesProgram};

use crate::program_fault::ProgramFault;
use bpf_verify::{Shape, Verified, verify};
use flow_check::{Flow, one_verdict};
use std::alloc::Global;

/// The program of these bytes, accepted under a shape, or the fault that counts: F1 to F9 of
/// `Flow::check`, and then V1 to V15 of `verify`. Bytes with an F fault are decoded once more,
/// since the law `one_verdict` says that they have no other fault.
// open: whether an allocation fails (F9, V15).
pub fn accept(alloc: Global, bytes: &[u8], shape: &Shape) -> Result<Verified, ProgramFault>
    ensures shape { IfOk result (λ program. program.shape ≡ shape.now) }
    ensures program { IfOk result (IsProgramOf bytes.now) }
    ensures fault { IfErr result (RefusesProgram bytes.now shape.now) }
{
    let flow = match Flow::check(alloc, bytes) {
        Ok(flow) => flow,
        Err(fault) => {
            one_verdict(bytes);
            return Err(ProgramFault::Flow(fault));
        }
    };
    flow.invariant_law();
    match verify(alloc, flow, shape) {
        Ok(program) => Ok(program),
        Err(refusal) => Err(ProgramFault::Verify(refusal)),
    }
}
