//! A run of the world: events, one after the other, with their results.

ghost use Rattle.std.specs.Prelude.{◌≡◌, IfOk, IfErr};
ghost use Rattle.world.specs.Headline.{ArePlayed, AllWorldsAreSafe, EachFinishIsOfItsRun};

use crate::event::{Effect, Event, WorldFault};
use crate::world::World;
use std::alloc::Global;

/// Plays the events, one after the other, and returns the result of each. Returns E6 if the list of
/// results can't be allocated: then nothing was played.
// open: whether an allocation fails (E6).
pub fn play(
    alloc: Global,
    world: &mut World,
    events: &[Event],
) -> Result<Vec<Result<Effect, WorldFault>>, WorldFault>
    // From every world that `world` represented, the events with their results are a run of the
    // world. In it each run takes exactly the machine's steps on the shared counters. And `world`
    // represents the world at the end.
    ensures run { IfOk result (λ answers. ArePlayed world.old events.now answers.items world.new) }
    // On the way no run traps, or takes more instructions than its program has slots,
    ensures safe { AllWorldsAreSafe world.old events.now }
    // and each chooses none or a release of its app, in the ruleset under which it started,
    // whatever swaps are between.
    ensures releases { EachFinishIsOfItsRun world.old events.now }
    ensures memory { IfErr result (λ e. e ≡ WorldFault.Memory) }
    ensures unplayed { IfErr result (λ e. world.new ≡ world.old) }
{
    world.invariant_law();
    let Ok(mut answers) = Vec::with_capacity(alloc, events.len()) else {
        return Err(WorldFault::Memory);
    };
    for event in events {
        let answer = world.apply(event);
        let Ok(()) = answers.push(answer) else {
            unreachable!();
        };
    }
    Ok(answers)
}
