//! `run`: the choice of a file's program for one app.

ghost use Rattle.std.specs.Prelude.{◌≡◌, ◌≤◌, length, IfOk, IfErr};
ghost use Rattle.std.specs.Arc.{arc_value};
ghost use Rattle.cli_base.specs.Apps.{app_attributes};
ghost use Rattle.cli_programs.specs.Programs.{HasChosen, IsRunRefusal, RunsTo};

use crate::program::program_of_file;
use crate::program_tool_fault::ProgramToolFault;
use attrs::{Attrs, Bucket};
use bounded_files::{Disk, ResourceFault};
use bpf_machine::Run;
use bpf_verify::Verified;
use cells::{PlainCells, events_fit};
use cli_base::{AppArgs, RunArgs};
use std::alloc::{AllocError, Global};
use std::sync::Arc;

/// The choice of a file's program for an app, if the program is accepted, and the number of
/// executed instructions.
// open: whether an allocation fails (N3, F9, V15); what a device's files contain.
pub fn run_file<D: Disk>(
    alloc: Global,
    disk: &D,
    run: &RunArgs<'_>,
) -> Result<(u8, u32), ProgramToolFault>
    ensures run { IfOk result (λ c. HasChosen (D.known disk.now) run.now c.0 c.1) }
    ensures fault { IfErr result
        (IsRunRefusal (D.known disk.now) run.now.path.now run.now.shape) }
{
    let program = match program_of_file(alloc, disk, run.path, &run.shape) {
        Ok(program) => program,
        Err(fault) => return Err(fault),
    };
    match choose(alloc, program, &run.app, run.bucket) {
        Ok(chosen) => Ok(chosen),
        Err(_) => Err(ProgramToolFault::Resource(ResourceFault::Memory)),
    }
}

// The program's run for an app, on its own cells that start at 0: its choice and the number of
// executed instructions.
fn choose(
    alloc: Global,
    program: Verified,
    app: &AppArgs<'_>,
    bucket: Option<Bucket>,
) -> Result<(u8, u32), AllocError>
    ensures run { IfOk result (λ c. RunsTo program (app_attributes app.now bucket) c.0 c.1) }
    ensures release { IfOk result (λ c. c.0 ≤ program.shape.releases) }
    ensures ends { IfOk result (λ c. c.1 ≤ length program.code) }
{
    let attrs = shared_attributes(alloc, app, bucket)?;
    let Ok((cells, mut pass)) = PlainCells::new(alloc) else {
        return Err(AllocError);
    };
    let facts: &Attrs = &attrs;
    facts.invariant_law();
    program.invariant_law();
    pass.invariant_law();
    events_fit();
    let Ok(program) = Arc::new(alloc, program) else {
        return Err(AllocError);
    };
    Ok(Run::start(program, attrs).run(&cells, &mut pass))
}

/// The attributes of an app in a bucket.
// open: whether an allocation fails.
pub fn shared_attributes(
    alloc: Global,
    app: &AppArgs<'_>,
    bucket: Option<Bucket>,
) -> Result<Arc<Attrs>, AllocError>
    ensures { IfOk result (λ attrs. arc_value attrs ≡ app_attributes app.now bucket) }
{
    let attrs = app.attributes(alloc, bucket)?;
    match Arc::new(alloc, attrs) {
        Ok(attrs) => Ok(attrs),
        Err(_) => Err(AllocError),
    }
}
