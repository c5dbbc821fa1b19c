//! Verifying a program over and over: the flow check of its bytes, and the verifier.

ghost use Rattle.std.specs.Prelude.{◌≡◌, ◌<◌, IfOk, IfErr, OnOk};
ghost use Rattle.acceptance.specs.Program.{IsProgramOf, RefusesProgram};
ghost use Rattle.bench.specs.Judged.{AreAccepted, bench_shape};

use acceptance::{ProgramFault, accept};
use bpf_verify::Verified;
use cells::Shape;
use std::alloc::Global;

// The shape of an app of 64 releases and no array.
#[tactic(auto, using(crate::proofs::Shapes::shape_is))]
fn bench_shape(alloc: Global) -> Shape
    ensures { result ≡ bench_shape }
{
    Shape::plain(alloc, 64)
}

/// The program of the bytes, if it is accepted for an app of 64 releases.
// open: whether an allocation fails.
pub fn verified(alloc: Global, bytes: &[u8]) -> Result<Verified, ProgramFault>
    ensures program { IfOk result (IsProgramOf bytes.now) }
    ensures shape { IfOk result (λ v. v.shape ≡ bench_shape) }
    ensures fault { IfErr result (RefusesProgram bytes.now bench_shape) }
{
    accept(alloc, bytes, &bench_shape(alloc))
}

/// Verifies the program of the bytes `times` times.
// open: whether an allocation fails.
pub fn verify_times(alloc: Global, bytes: &[u8], times: u32) -> Result<(), ProgramFault>
    ensures accepted { OnOk result (0 < times → AreAccepted bytes.now) }
    ensures fault { IfErr result (RefusesProgram bytes.now bench_shape) }
{
    for n in 0..times {
        drop(verified(alloc, bytes)?);
    }
    Ok(())
}
