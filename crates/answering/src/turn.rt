//! A worker's turn: what one reply depends on, apart from the worker's own pass (a ghost token) and
//! watcher.

use attrs::Moment;
use std::alloc::Global;

/// What stays the same while a request is served.
#[derive(Drop)]
pub struct Turn<'a, C> {
    pub alloc: Global,
    /// The counters on which the runs act.
    pub cells: &'a C,
    /// When the request is served.
    pub moment: &'a Moment,
}
