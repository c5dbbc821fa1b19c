//! The runs of the clients of an app, in order.

ghost use Rattle.std.specs.Prelude.{◌≤◌, IfOk};
ghost use Rattle.std.specs.Arc.{arc_value};
ghost use Rattle.simulate.specs.Clients.{attributes, clients, IsSameButCohort};
ghost use Rattle.simulate.specs.Course.{Chooses, InTurn, bucket_count};

use crate::choices::Choices;
use crate::client::Client;
use attrs::Bucket;
use bpf_machine::Run;
use bpf_verify::Verified;
use cells::{PlainCells, PlainPass};
use std::alloc::{AllocError, Global};
use std::sync::Arc;

/// The choices of the clients of all buckets, in order.
pub(crate) fn run_all(
    alloc: Global,
    program: &Arc<Verified>,
    client: &mut Client,
    cells: &PlainCells,
    pass: &mut PlainPass,
) -> Result<Choices, AllocError>
    ensures choices { IfOk result (λ choices. InTurn (arc_value program.now) (clients client.old)
        pass.old bucket_count choices pass.new) }
    ensures client { IsSameButCohort client.old client.new }
{
    let mut choices = Vec::with_capacity(alloc, Bucket::COUNT as usize)?;
    let mut bucket = 0;
    while bucket < Bucket::COUNT {
        client.move_to(alloc, bucket)?;
        let choice = choose(alloc, program, client, cells, pass)?;
        choices.push(choice)?;
        bucket += 1;
    }
    Ok(Choices::new(choices))
}

// The choice of a client's run.
fn choose(
    alloc: Global,
    program: &Arc<Verified>,
    client: &Client,
    cells: &PlainCells,
    pass: &mut PlainPass,
) -> Result<u8, AllocError>
    ensures chooses { IfOk result (λ choice.
        Chooses (arc_value program.now) (attributes client.now) pass.old choice pass.new) }
    ensures release { IfOk result (λ choice. choice ≤ 64) }
{
    let attrs = client.attributes(alloc)?;
    let Ok(attrs) = Arc::new(alloc, attrs) else {
        return Err(AllocError);
    };
    let Ok(program) = Arc::try_clone(program) else {
        return Err(AllocError);
    };
    let accepted: &Verified = &program;
    accepted.invariant_law();
    let (choice, _count) = Run::start(program, attrs).run(cells, pass);
    Ok(choice)
}
