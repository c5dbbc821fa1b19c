//! The events of a world, and their results.

ghost use Rattle.std.specs.Prelude.{Some};
ghost use Rattle.world.specs.Texts.{fault_text};

use attrs::Attrs;
use ruleset::Ruleset;
use std::fmt;
use std::sync::Arc;

/// One event of a world. Workers are numbered from 0.
#[derive(Drop)]
pub enum Event {
    /// The worker starts a run for the app of these attributes, under the newest ruleset.
    Start { worker: usize, attrs: Arc<Attrs> },
    /// The worker's run does one instruction.
    Step { worker: usize },
    /// The worker returns the choice of its run, and is idle.
    Finish { worker: usize },
    /// A ruleset is appended, and is the newest. Runs continue under their own rulesets.
    Swap { rules: Arc<Ruleset> },
}

/// The result of an event.
#[derive(Clone, Copy, PartialEq, Eq)]
pub enum Effect {
    Started,
    /// The run continues.
    Stepped,
    /// The run is done, with this choice: 0 for none, k for the app's k-th release.
    Ended {
        choice: u8,
    },
    /// The choice, how many instructions were done, and the number of the ruleset under which the
    /// run started.
    Finished {
        choice: u8,
        instructions: u32,
        ruleset: usize,
    },
    /// The number of the ruleset that is the newest now. The world's first one has number 1.
    Swapped {
        ruleset: usize,
    },
}

/// Why an event is refused; if there are several reasons, the lowest number.
#[derive(Clone, Copy, Debug)]
pub enum WorldFault {
    /// E1: the worker doesn't exist.
    NoWorker,
    /// E2: a Start, and the worker has a run.
    Busy,
    /// E3: a Step or a Finish, and the worker has no run; or a Step, and its run is done.
    Idle,
    /// E4: a Start, and the newest ruleset doesn't have the app.
    NoApp,
    /// E5: a Finish, and the run isn't done.
    NotDone,
    /// E6: an allocation failed in `World::new`, in `play` or in a Swap; or an `Arc` that a Start
    /// or a Swap copies can't have another owner.
    Memory,
}

impl fmt::Display for WorldFault {
    ghost output = { λ fault. Some (fault_text fault) };

    fn fmt<W: fmt::Write>(&self, f: &mut fmt::Formatter<W>) -> fmt::Result {
        f.write_str(match self {
            WorldFault::NoWorker => "E1 NoWorker",
            WorldFault::Busy => "E2 Busy",
            WorldFault::Idle => "E3 Idle",
            WorldFault::NoApp => "E4 NoApp",
            WorldFault::NotDone => "E5 NotDone",
            WorldFault::Memory => "E6 Memory",
        })
    }
}

impl std::error::Error for WorldFault {}
