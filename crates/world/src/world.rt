//! A world: the rulesets of a server and the seats of its workers. A `World` represents worlds of
//! the definitions, and the contract of each event is about all of them. The type's invariant: it
//! represents at least one, and each run's program is the one that the run's ruleset has for its
//! app.

ghost use Rattle.std.specs.Prelude.{◌≡◌, ◌<◌, ◌≤◌, slice_index};
ghost use Rattle.std.specs.Prelude.{List, All, IfOk, IfErr, Some};
ghost use Rattle.std.specs.Arc.{arc_value};
ghost use Rattle.cells.specs.Events.{limit};
ghost use Rattle.world.specs.Seats.{Opens};

use crate::event::{Effect, Event, WorldFault};
use crate::seat::Seat;
use attrs::Attrs;
use bpf_machine::Run;
use bpf_semantics::counts_instructions;
use cells::{CellNo, PlainCells, PlainPass, events_fit};
use ruleset::Ruleset;
use std::alloc::Global;
use std::marker::Model;
use std::sync::Arc;

/// All workers of a server, its rulesets, and the counters that all runs share.
#[derive(Drop)]
pub struct World {
    rulesets: Vec<Arc<Ruleset>>,
    cells: PlainCells,
    pass: PlainPass,
    seats: Vec<Seat>,
}

impl Model for World {
    ghost use Rattle.world.specs.Represents.{Parts, AreSoundParts, parts_of};

    ghost Value = { Parts };

    ghost view = { λ w. parts_of w.rulesets.items w.pass w.seats.items };

    ghost invariant = { λ w. AreSoundParts (parts_of w.rulesets.items w.pass w.seats.items) };
}

impl World {
    ghost use Rattle.ruleset.specs.Rules.{IsRuleset};
    ghost use Rattle.world.specs.World.{WorldState, ruleset_at, newest};
    ghost use Rattle.world.specs.Represents.{WorldRepresents, IsOpening};
    ghost use Rattle.world.specs.Headline.{IsApplied, AllWorldsAreSafe, EachFinishIsOfItsRun};
    ghost use Rattle.world.specs.declared.event.Event.{Event};

    /// A world with one ruleset, of number 1, all counters 0, and `workers` idle workers. Returns
    /// E6 if an allocation fails.
    // open: whether an allocation fails (E6).
    pub fn new(alloc: Global, workers: usize, first: Arc<Ruleset>) -> Result<World, WorldFault>
        requires at_least { 1 ≤ workers }
        requires at_most { workers ≤ 64 }
        ensures opening { IfOk result (λ w. IsOpening w (arc_value first) workers) }
        ensures memory { IfErr result (λ e. e ≡ WorldFault.Memory) }
    {
        let rules: &Ruleset = &first;
        rules.invariant_law();
        let mut rulesets = Vec::with_capacity(alloc, 1).map_err(|_| WorldFault::Memory)?;
        rulesets.push(first).map_err(|_| WorldFault::Memory)?;
        let mut seats = Vec::with_capacity(alloc, workers).map_err(|_| WorldFault::Memory)?;
        for _ in 0..workers {
            seats.push(Seat::Empty).map_err(|_| WorldFault::Memory)?;
        }
        let (cells, pass) = PlainCells::new(alloc).map_err(|_| WorldFault::Memory)?;
        Ok(World {
            rulesets,
            cells,
            pass,
            seats,
        })
    }

    /// Law: the type's invariant.
    pub fn invariant_law(&self)
        // It represents at least one world.
        ensures represents { (w : WorldState) × WorldRepresents self.now w }
        // In each of its rulesets an appid has one app, whose runs end with 0 or a release of it.
        ensures sound { All IsRuleset self.now.rulesets }
        // Whatever is played, each world on the way is safe,
        ensures safe { (events : List Event) → AllWorldsAreSafe self.now events }
        // and the result of a Finish is of its worker's run.
        ensures releases { (events : List Event) → EachFinishIsOfItsRun self.now events }
    {
        self.pass.invariant_law();
        counts_instructions();
        events_fit();
    }

    /// The value of a counter.
    pub fn cell(&self, cell: CellNo) -> u64
        ensures value { result ≡ slice_index self.now.cells cell.number }
        ensures fits { result < limit cell.number }
    {
        self.pass.value(cell)
    }

    /// One event. A refused event changes nothing.
    // open: whether an allocation fails (E6). So a Start of an idle worker for a known app has the
    // result Started or E6, and a Swap has Swapped or E6.
    pub fn apply(&mut self, event: &Event) -> Result<Effect, WorldFault>
        ensures happens { IsApplied self.old event.now result self.new }
        ensures same { IfErr result (λ e. self.new ≡ self.old) }
    {
        match event {
            Event::Start { worker, attrs } => self.start(*worker, attrs),
            Event::Step { worker } => self.step(*worker),
            Event::Finish { worker } => self.finish(*worker),
            Event::Swap { rules } => self.swap(rules),
        }
    }

    fn start(&mut self, worker: usize, attrs: &Arc<Attrs>) -> Result<Effect, WorldFault>
        ensures happens { IsApplied self.old (Event.Start worker attrs.now) result self.new }
        ensures same { IfErr result (λ e. self.new ≡ self.old) }
    {
        if worker >= self.seats.len() {
            return Err(WorldFault::NoWorker);
        }
        if self.seats[worker].is_taken() {
            return Err(WorldFault::Busy);
        }
        let run = open_run(self.newest(), attrs)?;
        let number = self.rulesets.len();
        self.seats[worker] = Seat::Taken {
            run,
            number,
            choice: None,
        };
        Ok(Effect::Started)
    }

    fn step(&mut self, worker: usize) -> Result<Effect, WorldFault>
        ensures happens { IsApplied self.old (Event.Step worker) result self.new }
        ensures same { IfErr result (λ e. self.new ≡ self.old) }
    {
        if worker >= self.seats.len() {
            return Err(WorldFault::NoWorker);
        }
        self.seats[worker].step(&self.cells, &mut self.pass)
    }

    fn finish(&mut self, worker: usize) -> Result<Effect, WorldFault>
        ensures happens { IsApplied self.old (Event.Finish worker) result self.new }
        ensures same { IfErr result (λ e. self.new ≡ self.old) }
    {
        if worker >= self.seats.len() {
            return Err(WorldFault::NoWorker);
        }
        self.seats[worker].finish()
    }

    fn swap(&mut self, rules: &Arc<Ruleset>) -> Result<Effect, WorldFault>
        ensures happens { IsApplied self.old (Event.Swap rules.now) result self.new }
        ensures same { IfErr result (λ e. self.new ≡ self.old) }
    {
        let sent: &Ruleset = rules;
        sent.invariant_law();
        let Ok(rules) = Arc::try_clone(rules) else {
            return Err(WorldFault::Memory);
        };
        let Ok(()) = self.rulesets.push(rules) else {
            return Err(WorldFault::Memory);
        };
        Ok(Effect::Swapped {
            ruleset: self.rulesets.len(),
        })
    }

    // The ruleset under which a run starts.
    fn newest(&self) -> &Ruleset
        ensures { ruleset_at self.now.rulesets (newest self.now.rulesets) ≡ Some result.now }
    {
        &self.rulesets[self.rulesets.len() - 1]
    }
}

// A run of the ruleset's program for the app, at its first instruction.
fn open_run(rules: &Ruleset, attrs: &Arc<Attrs>) -> Result<Run, WorldFault>
    ensures { Opens rules.now (arc_value attrs.now) result }
{
    let Some(app) = rules.find(attrs.text(0)) else {
        return Err(WorldFault::NoApp);
    };
    let Ok(program) = Arc::try_clone(app.program()) else {
        return Err(WorldFault::Memory);
    };
    let Ok(attrs) = Arc::try_clone(attrs) else {
        return Err(WorldFault::Memory);
    };
    let sent: &Attrs = &attrs;
    sent.invariant_law();
    let run = Run::start(program, attrs);
    run.invariant_law();
    Ok(run)
}
