//! What a command line requests.

ghost use Rattle.std.specs.Prelude.{◌≤◌};

use crate::task::Task;

/// A command of a command line.
#[derive(Drop)]
pub enum Command<'a> {
    /// Serve until the operator stops the server.
    Serve(ServeArgs<'a>),
    /// Print an output, and end.
    Task(Task<'a>),
}

/// The arguments of `serve`: a manifest, the file of the server's counters, if one is named, and
/// how the server serves.
#[derive(Drop)]
pub struct ServeArgs<'a> {
    pub manifest: &'a str,
    pub counters: Option<&'a str>,
    pub plan: ServePlan,
}

/// How a server serves: its two ports, the number of its workers, the time limit of a connection in
/// seconds, how many seconds it waits for the file of its counters, and whether it logs each
/// connection.
#[derive(Clone, Copy)]
pub struct ServePlan {
    pub port: u16,
    pub operator: u16,
    pub workers: u16,
    pub timeout: u16,
    pub wait: Option<u16>,
    pub log: bool,
    pub ghost some: { 1 ≤ workers },
    pub ghost few: { workers ≤ 64 },
}
