//! What many threads did on shared counters is what one world does, and threads only count on the
//! cell of a quota.
//!
//! See docs/SPECIFICATION.md, "The world"; docs/SPECIFICATION.md, "Counters".
#![tactic(auto)]

// One world. The work of each thread is known: it made its runs one after the other, each from its
// opening state by the steps of the machine, with the counters' replies. For the counters there is
// one legal history of all events, in which those of each thread are in their order (sequential
// consistency). A world is another thing: one list of events. In it each worker does one
// instruction at a time, and each reply is that of the one row of counters that all share.
// By this law the promises of every list of events of a world are promises of threads: such a list
// exists, and has the same results of runs and counters.
//
// It is made as follows. The world opens under the first ruleset, with an idle worker for each run.
// The runs of that ruleset start; the next ruleset is swapped in, and its runs start; and so on, to
// the last one. No counter is touched so far. Then the history is played, event after event. The
// worker of an event's run does Steps that touch no counter, until it reaches the one with this
// event. Since the history is legal, the counter of the world replies as the event says, and has
// the value after it. Finally each worker continues to where its run is, at its end or before it.
//
// Why each premise is needed:
//
// - Each entry of the published list keeps what the type `Ruleset` keeps (`IsRuleset`), since a
//   Swap takes no other. The list isn't empty: a world opens under its first ruleset.
// - Each run's program is the one that its ruleset has for attribute 0 of the run, since a Start
//   looks up no other appid. A run comes from the opening state, since a Start begins there.
// - The history is legal from the values with which the world opens. The events of a run occur in
//   it in the run's order, since its worker makes them in no other.
//
// A thread that only reads the counters does no run, and no worker of a world can do the same. So
// its Loads are removed from the history, which stays legal. The rest of the history is that of the
// world: each event has the number of its run there and not of its pass, and nothing else differs.
//
// Quotas. A quota's cell has 64 bits. If the only operations on it are loads and fewer than 2^64
// additions of 1, the quota is granted exactly (`shared_cells`, at the close of the cells). A run
// does nothing else because its program was accepted. On a cell of its arrays with a quota it makes
// no other step (V14), and it doesn't touch a cell outside its arrays. One law says this of all
// that threads did under any number of rulesets, if their runs are those of one world. Its premise
// is about their programs.
//
// The other law needs no premise about programs. A ruleset keeps that its programs were accepted
// (`IsRuleset`), and each load takes their arrays from the server's directory, which only grows. So
// at the end all are arrays of one directory (`KnowsOnly`), in which no two share a cell. A program
// that has the cell of a quota has it in that very array.
//
// Unfinished runs also keep quotas. A reply fits its cell since it was given along a legal history;
// otherwise nothing would be known of a program's next step.

mod quota_laws;
mod world_laws;

pub use quota_laws::{threads_grant_quotas, threads_keep_quotas};
pub use world_laws::{one_world, runs_add_up, threads_are_one_world};
