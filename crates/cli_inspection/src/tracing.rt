//! `trace`: the run of a file's program for one app, step by step.

ghost use Rattle.std.specs.Prelude.{IfOk, IfErr};
ghost use Rattle.cli_base.specs.Apps.{app_attributes};
ghost use Rattle.cli_inspection.specs.Traces.{HasTraced};
ghost use Rattle.cli_programs.specs.Programs.{IsRunRefusal};
ghost use Rattle.trace.specs.Trace.{IsTrace};

use attrs::Bucket;
use bounded_files::{Disk, ResourceFault};
use bpf_verify::Verified;
use cli_base::{AppArgs, RunArgs};
use cli_programs::{ProgramToolFault, program_of_file, shared_attributes};
use std::alloc::{AllocError, Global};
use trace::{TracedRun, trace};

/// Runs a file's program like `run_file` of `cli_programs`, and writes a line for each instruction
/// of the run.
// open: whether an allocation fails (N3, F9, V15); what a device's files contain; the lines: rows.
pub fn trace_file<D: Disk>(
    alloc: Global,
    disk: &D,
    run: &RunArgs<'_>,
) -> Result<TracedRun, ProgramToolFault>
    ensures run { IfOk result (λ t.
        HasTraced (D.known disk.now) run.now t.choice t.count) }
    ensures fault { IfErr result
        (IsRunRefusal (D.known disk.now) run.now.path.now run.now.shape) }
{
    let program = match program_of_file(alloc, disk, run.path, &run.shape) {
        Ok(program) => program,
        Err(fault) => return Err(fault),
    };
    match traced(alloc, &program, &run.app, run.bucket) {
        Ok(traced) => Ok(traced),
        Err(_) => Err(ProgramToolFault::Resource(ResourceFault::Memory)),
    }
}

// The trace of the program's run for an app.
fn traced(
    alloc: Global,
    program: &Verified,
    app: &AppArgs<'_>,
    bucket: Option<Bucket>,
) -> Result<TracedRun, AllocError>
    ensures { IfOk result (λ t.
        IsTrace program.now (app_attributes app.now bucket) t.choice t.count) }
{
    let attrs = shared_attributes(alloc, app, bucket)?;
    trace(alloc, program, attrs)
}
