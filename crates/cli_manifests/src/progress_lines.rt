//! The progress of a simulation, on standard error.

use simulate::Onlooker;
use std::time::{Clock, Instant};

/// Prints the progress of a simulation at most once a second. It prints nothing if the clock can't
/// be read.
#[derive(Drop)]
pub(crate) struct ProgressLines<'a, R> {
    rt: &'a R,
    printed_at: Option<Instant>,
}

impl<'a, R: Clock + Eprint> ProgressLines<'a, R> {
    /// For a simulation that starts at this moment.
    pub(crate) fn new(rt: &'a R) -> ProgressLines<'a, R> {
        ProgressLines {
            rt,
            printed_at: Instant::now(rt).ok(),
        }
    }
}

impl<'a, R: Clock + Eprint> Onlooker for ProgressLines<'a, R> {
    fn evaluated(&mut self, done: usize, all: usize) {
        let (Some(printed_at), Ok(now)) = (self.printed_at, Instant::now(self.rt)) else {
            return;
        };
        if now.saturating_duration_since(printed_at).as_secs() > 0 {
            self.printed_at = Some(now);
            let _printed = eprintln!(self.rt; "simulated {done} of {all} apps");
        }
    }
}
