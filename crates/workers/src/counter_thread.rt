//! The thread that stores a server's counters. It has to run as long as a worker may wait for it,
//! so it is ended after all workers.

use crate::accept::Call;
use crate::clients::start_accepting;
use crate::serve_fault::ServeFault;
use crate::stopping::StopFlags;
use bounded_files::ResourceFault;
use crossbeam_channel::Sender;
use hot_swap::Generation;
use operator::Control;
use server_log::LogQueue;
use std::net::TcpListener;
use std::sync::Wait;
use std::thread::{JoinHandle, Scope, Threads};
use std::time::Clock;

/// What a thread that stores counters does.
pub trait CounterThread {
    /// Stores counters until its bell has rung for the end.
    fn run<H>(&mut self, rt: &H)
    where
        H: Wait + AllocGlobal + Clock;
}

/// What ties a thread that stores counters to the cover by which replies wait for it.
pub trait StoresFor<K> {
    /// Replies that this cover lets through wait for what the thread stores.
    ghost stores_for: { Self → K → Type 0 };
}

/// How a server's other threads call the one that stores its counters.
pub trait Bell {
    /// A ruleset was installed: arrays may be new, and other apps may be halted.
    fn note<H>(&self, rt: &H, control: &Control)
    where
        H: Wait + AllocGlobal;

    /// Whether the last note was lost, since an allocation failed.
    fn has_lost_note(&self) -> bool;

    /// All workers have ended.
    fn end(&self);
}

/// The bell of a server whose counters aren't stored, which wakes no thread.
#[derive(Clone, Copy)]
pub struct NoCounters;

impl Bell for NoCounters {
    fn note<H>(&self, _rt: &H, _control: &Control)
    where
        H: Wait + AllocGlobal,
    {}

    fn has_lost_note(&self) -> bool {
        false
    }

    fn end(&self) {}
}

/// Rings if another ruleset is installed than the one of this generation, or if the last note was
/// lost.
pub(crate) fn note_change<H, B>(rt: &H, bell: &B, before: Generation, control: &Control)
where
    H: Wait + AllocGlobal,
    B: Bell,
{
    if control.generation() != before || bell.has_lost_note() {
        bell.note(rt, control);
    }
}

/// Starts the thread that stores the counters, if they are stored, and then the one that accepts
/// connections. Returns B4 if one of them can't be started.
pub(crate) fn start_others<'s, E, H, B, T>(
    rt: &'s H,
    scope: &Scope<'s, E>,
    counters: Option<T>,
    bell: &B,
    listener: TcpListener,
    queue: Sender<Call>,
    ends: &'s StopFlags,
    log: Option<&'s LogQueue>,
) -> Result<Option<JoinHandle<T>>, ResourceFault>
where
    H: Wait + AllocGlobal + Clock + Sync,
    B: Bell,
    T: CounterThread + Send + Drop + 's,
{
    let Ok(storing) = start_counters(rt, scope, counters) else {
        return Err(ResourceFault::Memory);
    };
    match start_accepting(rt, scope, listener, queue, ends, log) {
        Ok(()) => Ok(storing),
        Err(_) => {
            bell.end();
            Err(ResourceFault::Memory)
        }
    }
}

// Starts the thread that stores the counters, if they are stored.
fn start_counters<'s, E, H, T>(
    rt: &'s H,
    scope: &Scope<'s, E>,
    counters: Option<T>,
) -> Result<Option<JoinHandle<T>>, ServeFault>
where
    H: Wait + AllocGlobal + Clock + Sync,
    T: CounterThread + Send + Drop + 's,
{
    let Some(counters) = counters else {
        return Ok(None);
    };
    match scope.spawn(move || run_to_end(rt, counters)) {
        Ok(thread) => Ok(Some(thread)),
        Err(_) => Err(ServeFault::Memory),
    }
}

// Stores counters to the end.
fn run_to_end<H, T>(rt: &H, mut counters: T) -> T
where
    H: Wait + AllocGlobal + Clock,
    T: CounterThread,
{
    counters.run(rt);
    counters
}

/// Ends the thread that stores the counters, after all workers, and returns what it ran.
pub(crate) fn ended_counters<H: Threads, B: Bell, T: Drop>(
    rt: &H,
    bell: &B,
    thread: Option<JoinHandle<T>>,
) -> Option<T> {
    bell.end();
    match thread {
        Some(thread) => Some(thread.join(rt)),
        None => None,
    }
}
