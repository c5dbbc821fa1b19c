//! Laws: theorems about every run of the world, by its definitions only. The functions do nothing.

ghost use Rattle.world.specs.InTime.{TakesItsStep, EndsInTime};
ghost use Rattle.world.specs.OwnRun.{FinishesItsRun, FinishesStartedRun, ChoosesItsRelease};
ghost use Rattle.world.specs.Batches.{BatchesJoin, BatchesPart};
ghost use Rattle.world.specs.Course.{HasOneCourse, RulesetsPreserved};

use bpf_semantics::counts_instructions;
use cells::events_fit;

/// Law: a Step of a worker whose run isn't done isn't refused.
pub fn takes_its_step()
    ensures { TakesItsStep }
{}

/// Law: a run is done after as many Steps as its program has slots. One of these Steps ends it,
/// with the machine's result from the run's state.
pub fn ends_in_time()
    ensures { EndsInTime }
{
    counts_instructions();
    events_fit();
}

/// Law: a Finish returns the result of its worker's own run. That is the machine's result for the
/// attributes of the worker's latest Start and the replies that its own Steps got. Other workers
/// don't matter. So the choice is none or a release of its app.
pub fn finishes_its_run()
    // The run is that of the latest Start or, if none came before, the one that the worker had.
    ensures own { FinishesItsRun }
    // A worker that was idle had none.
    ensures started { FinishesStartedRun }
    ensures release { ChoosesItsRelease }
{
    counts_instructions();
    events_fit();
}

/// Law: events never change which ruleset a number refers to.
pub fn rulesets_preserved()
    ensures { RulesetsPreserved }
{}

/// Law: batches of events compose. Two runs of the world, one after the other, are one, and one run
/// can be cut after each event.
pub fn batches_compose()
    ensures join { BatchesJoin }
    ensures part { BatchesPart }
{}

/// Law: events with their results lead from a safe world to only one world. They determine the
/// programs and the replies.
pub fn one_course()
    ensures { HasOneCourse }
{
    counts_instructions();
    events_fit();
}
