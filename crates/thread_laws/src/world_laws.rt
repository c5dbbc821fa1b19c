//! The laws of one world, by the definitions only. The functions do nothing.

ghost use Rattle.shared_cells.specs.Loads.{LoadsCanGo, OthersAreKept};
ghost use Rattle.thread_laws.specs.Entries.{EntriesAreMade};
ghost use Rattle.thread_laws.specs.InTurn.{NoneAreOfRuns, OfRunsAppend, OfRunsStay};
ghost use Rattle.thread_laws.specs.OneWorld.{OneWorld, OpensSafely};
ghost use Rattle.thread_laws.specs.Passes.{NothingIsLeft, PassesAreOneWorld, PassesAreRuns};

use bpf_semantics::counts_instructions;
use shared_cells::loads_can_go;

/// Law: runs that shared the counters are runs of one world, done or not. The number of an event in
/// their history is the place of its run in the list of runs, and that of its worker.
pub fn one_world()
    // Take every published list of rulesets, every list of runs, and every legal history of their
    // events. Each run's program is the one that its ruleset of that list has for its app. A world
    // with a worker for each run starts each under its ruleset. It takes each to the same state, or
    // to its end with the same choice and count. Its events on counters are the history, in its
    // order and each by its run's worker, and it leaves the same values in the counters.
    ensures world { OneWorld }
    // The world opens safe.
    ensures safe { OpensSafely }
    // The events on counters with a worker's number are what that worker's Steps made.
    ensures made { EntriesAreMade }
    // A legal history stays legal without the Loads of one pass, and leaves the same values,
    ensures loads { LoadsCanGo }
    // each other pass keeps its events,
    ensures others { OthersAreKept }
    // and nothing is left of a pass that only made Loads.
    ensures nothing { NothingIsLeft }
    // A history of passes, each of which did its runs one after the other, is one of these runs,
    // with each event by a run of its pass.
    ensures passes { PassesAreRuns }
{
    counts_instructions();
    loads_can_go();
}

/// Law: what threads did is what one world does. Each pass made the events of runs, except one that
/// only read the counters. The close of shared cells gives a history of the passes
/// (`SharedCells::close`, `history`). Apart from these reads, it is that of a world that does these
/// runs.
// open: that passes did runs: the contracts of the calls that make them say it.
pub fn threads_are_one_world()
    ensures { PassesAreOneWorld }
{
    one_world();
}

/// Law: the events of a thread are those of a list of whole runs. This is true of no events, of
/// events after events, and under a longer list of rulesets.
pub fn runs_add_up()
    ensures none { NoneAreOfRuns }
    ensures append { OfRunsAppend }
    ensures stay { OfRunsStay }
{}
