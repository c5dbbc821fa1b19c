//! What a server works with, and what its workers share.

ghost use Rattle.std.specs.Prelude.{◌≡◌};

use crate::gate::Gate;
use server_log::LogQueue;
use std::sync::atomic::{AtomicBool, AtomicU64, Ordering};
use std::time::Duration;

/// How a server serves: its time limit and its log.
#[derive(Clone, Copy)]
pub struct ServeOptions<'a> {
    /// How long a connection may last.
    pub timeout: Duration,
    /// The log, with a line for each connection, even if it couldn't be accepted, and for each
    /// load, halt and resume.
    /// If connections wait for a worker, their lines are queued together, late by at most a
    /// second and a connection's time.
    pub log: Option<&'a LogQueue>,
}

/// What a server works with: the loader of its rulesets, its counters, its time limit and its log.
#[derive(Drop)]
pub struct ServerParts<'a, L, C, K, B> {
    pub loader: &'a L,
    pub cells: &'a C,
    /// What replies wait for that depend on counters.
    pub cover: &'a K,
    /// How the thread is called that stores the counters.
    pub bell: &'a B,
    pub service: ServeOptions<'a>,
}

/// What the workers of a server share besides the counters.
#[derive(Drop)]
pub(crate) struct Crew<'a, G, K> {
    pub(crate) gate: &'a G,
    pub(crate) cover: &'a K,
    pub(crate) service: ServeOptions<'a>,
    /// How many workers haven't ended.
    running: AtomicU64,
    /// Whether all workers have ended.
    ended: &'a AtomicBool,
}

impl<'a, G: Gate, K> Crew<'a, G, K> {
    /// A crew of this number of workers. The last one that ends sets the flag.
    pub(crate) fn new(
        gate: &'a G,
        cover: &'a K,
        service: ServeOptions<'a>,
        workers: usize,
        ended: &'a AtomicBool,
    ) -> Crew<'a, G, K>
        ensures { result.cover.now ≡ cover.now }
    {
        Crew {
            gate,
            cover,
            service,
            running: AtomicU64::new(workers as u64),
            ended,
        }
    }

    /// Counts the end of a worker.
    pub(crate) fn leave(&self) {
        if self.running.fetch_sub(1, Ordering::SeqCst) == 1 {
            self.ended.store(true, Ordering::SeqCst);
        }
    }
}
