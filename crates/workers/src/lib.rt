//! The threads of a server: those of its workers, and its operator's.
//!
//! One thread accepts the clients' connections and puts them into a queue, from which the worker
//! threads take them: that is `serve`. In `run` another thread also serves the operator's port, one
//! connection after another. The operator's `stop` ends both: a flag informs the clients' port, and
//! one more connection wakes it. Connections that the system had for it by then are also answered,
//! and the operator's port stays open until all clients are answered.
//!
//! What the threads do is logged (`server_log`).
//!
//! The answer to a connection is proved for `answer_in` in `answering` and `answer` in `operator`.
//! All threads return what they were given once the server ends. A worker gave its answers one
//! after the other, at most one a connection, under rulesets that never went back. Its pass, a
//! ghost token, made only the events of their runs. The operator's thread answered its lines one
//! after the other, at most one a connection. Only these lines loaded rulesets, and its pass only
//! read counters by them. A server prints that it serves once its threads exist. Nothing says which
//! bytes a socket carried, and nothing is proved about clocks. Nor is anything proved about a
//! server that gives up, since memory or a thread failed or its line couldn't be written.
//!
//! See docs/SPECIFICATION.md, "The server".
#![tactic(auto)]

mod accept;
mod clients;
mod clock;
mod counter_thread;
mod crew;
mod gate;
mod laws;
mod operating;
mod parts;
mod ports;
mod promise;
mod queue;
mod ready;
mod returned;
mod running;
mod serve_fault;
mod stopping;
mod wake;
mod worker;

pub use accept::OperatorEnd;
pub use clients::serve;
pub use counter_thread::{Bell, CounterThread, NoCounters, StoresFor};
pub use gate::Gate;
pub use laws::answers_are_runs;
pub use operating::operate;
pub use parts::{ServeOptions, ServerParts};
pub use ports::{Ports, bind};
pub use returned::Returned;
pub use running::run;
pub use serve_fault::ServeFault;
