//! What a worker's answers did to the counters, by the definitions only.

ghost use Rattle.workers.specs.Answers.{AnswersGoOnwards, AnswersStayInTurn};
ghost use Rattle.workers.specs.Runs.{AnswersAreOfRuns};

use thread_laws::runs_add_up;

/// Law. What a worker's answers did to the counters is what their runs did, one after the other.
/// Each run is of the program that the last ruleset known to the watcher then had for its app.
pub fn answers_are_runs()
    ensures runs { AnswersAreOfRuns }
    // The list known before answers is a prefix of the list known after them,
    ensures onwards { AnswersGoOnwards }
    // and they stay in turn when more is known.
    ensures stay { AnswersStayInTurn }
{
    runs_add_up();
}
