//! The calls that a server makes around each of its answers.

/// The worker that makes an answer calls this before and after it. Calls are numbered from 1 in the
/// order in which their connections were accepted.
pub trait Gate {
    /// Called before the connection of this number is read.
    fn before(&self, call: u64);

    /// Called when its answer is written, or there is none.
    fn after(&self, call: u64);
}

/// The gate of a server with an operator, which does nothing.
#[derive(Clone, Copy)]
pub(crate) struct NoGate;

impl Gate for NoGate {
    fn before(&self, _call: u64) {}

    fn after(&self, _call: u64) {}
}
