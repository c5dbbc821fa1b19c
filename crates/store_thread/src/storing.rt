//! The thread that stores a server's counters in their file.

ghost use Rattle.std.specs.Prelude.{◌≡◌, IfOk, option_map};
ghost use Rattle.cells.specs.Events.{AreCells};

use crate::bell::StoreBell;
use crate::news::News;
use cells::CellNo;
use counter_store::CounterStore;
use counters_file::{CountersFault, KeptFile};
use kept_cells::KeptCells;
use server_log::{LogQueue, note_counters, seconds_from_now};
use std::alloc::{AllocError, Global};
use std::sync::Wait;
use std::thread;
use std::time::{Clock, Duration, Instant};

/// How old the counters in the file may be that no reply waits for.
const MOST_SECONDS: u64 = 60;

/// How long the thread waits after a commit that failed, so that a failing disk gets few writes.
const FAILED_MILLIS: u64 = 250;

/// What the thread does with its store.
#[derive(Drop)]
pub struct Storing<'b, 'c, 'l, F: Drop> {
    pub store: CounterStore<F>,
    bell: &'b StoreBell,
    cells: &'c KeptCells,
    log: Option<&'l LogQueue>,
    /// When all counters are stored next; at once if it isn't known.
    due: Option<Instant>,
    /// Whether the log has last said that the file can't be written.
    is_failing: bool,
}

/// What the thread of a store does, if there is a store.
pub fn storing_of<'b, 'c, 'l, F: KeptFile + Drop>(
    store: Option<CounterStore<F>>,
    bell: &'b StoreBell,
    cells: &'c KeptCells,
    log: Option<&'l LogQueue>,
) -> Option<Storing<'b, 'c, 'l, F>>
    ensures { option_map (λ s. s.store.ledger.ceilings) result
        ≡ option_map (λ s. s.ledger.ceilings) store }
{
    match store {
        Some(store) => Some(Storing {
            store,
            bell,
            cells,
            log,
            due: None,
            is_failing: false,
        }),
        None => None,
    }
}

impl<'b, 'c, 'l, F: KeptFile + Drop> Storing<'b, 'c, 'l, F> {
    /// Stores counters until its bell has rung for the end.
    // open: what is stored when: tests.
    pub fn run<H>(&mut self, rt: &H)
    where
        H: Wait + AllocGlobal + Clock,
    {
        for _ in rt.forever() {
            self.learn(rt);
            self.commit(rt);
            if self.bell.has_ended() {
                return;
            }
            self.bell.wait(rt);
        }
    }

    /// The file of a thread that has ended, for the last commit.
    // open: that it is the store's.
    pub fn into_file(self) -> F {
        let Storing {
            store,
            bell: _bell,
            cells: _cells,
            log: _log,
            due: _due,
            is_failing: _is_failing,
        } = self;
        store.into_file()
    }

    // Adopts the news. If an allocation fails they stay, unless there are newer ones.
    fn learn<H: Wait + AllocGlobal>(&mut self, rt: &H) {
        let Some(news) = self.bell.take(rt) else {
            return;
        };
        if !adopts(rt.alloc(), &mut self.store, &news) {
            self.bell.put_back(rt, news);
        }
    }

    // Commits what is wanted, and once a minute what has changed. A worker whose reply waits sees
    // that the commit failed.
    fn commit<H>(&mut self, rt: &H)
    where
        H: Wait + AllocGlobal + Clock,
    {
        let is_due = is_due(rt, self.due);
        if !is_due && !self.store.is_wanted() {
            self.store.forget_failure();
            self.note(rt, None);
            return;
        }
        match committed(rt.alloc(), &mut self.store, self.cells, is_due) {
            Ok(is_new) => {
                if is_new || is_due {
                    self.due = seconds_from_now(rt, MOST_SECONDS);
                }
                self.note(rt, None);
            }
            Err(fault) => {
                self.note(rt, Some(fault));
                thread::sleep(rt, Duration::from_millis(FAILED_MILLIS));
            }
        }
    }

    // Logs that the file can't be written from now on, or that it can be again. If an allocation
    // fails, the next commit logs it.
    fn note<H>(&mut self, rt: &H, fault: Option<CountersFault>)
    where
        H: Wait + AllocGlobal + Clock,
    {
        if fault.is_some() != self.is_failing && log_change(rt, self.log, fault) {
            self.is_failing = fault.is_some();
        }
    }
}

// Whether a moment is past. True if the clock can't be read.
fn is_due<H: Clock>(rt: &H, moment: Option<Instant>) -> bool {
    match (moment, Instant::now(rt)) {
        (Some(moment), Ok(now)) => moment <= now,
        _ => true,
    }
}

// Logs a change, if there is a log. False if an allocation fails.
fn log_change<H>(rt: &H, log: Option<&LogQueue>, fault: Option<CountersFault>) -> bool
where
    H: Wait + AllocGlobal + Clock,
{
    let Some(queue) = log else {
        return true;
    };
    let Some(fault) = fault else {
        note_counters(rt, queue, None);
        return true;
    };
    let Ok(text) = fault.to_string(rt.alloc()) else {
        return false;
    };
    note_counters(rt, queue, Some(text.as_str()));
    true
}

// Commits what is wanted with the present values of the other counters.
fn committed<F: KeptFile + Drop>(
    alloc: Global,
    store: &mut CounterStore<F>,
    cells: &KeptCells,
    is_due: bool,
) -> Result<bool, CountersFault> {
    let Ok(present) = present_values(alloc, cells) else {
        return Err(CountersFault::Memory);
    };
    store.commit(alloc, &present, is_due)
}

// The values of all cells, each at some moment.
fn present_values(alloc: Global, cells: &KeptCells) -> Result<Vec<u64>, AllocError>
    ensures { IfOk result (λ values. AreCells values.items) }
{
    let mut values = Vec::from_elem(alloc, 0, CellNo::COUNT as usize)?;
    cells.copy_values(values.as_mut_slice());
    Ok(values)
}

// Whether the store adopts the news.
fn adopts<F: KeptFile + Drop>(alloc: Global, store: &mut CounterStore<F>, news: &News) -> bool {
    match news.copy(alloc) {
        Ok(News { directory, halted }) => store.learn(alloc, halted, directory).is_ok(),
        Err(_) => false,
    }
}
