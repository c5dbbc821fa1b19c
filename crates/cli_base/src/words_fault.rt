//! Why the words of a command line make no command.

use crate::argument_fault::ArgumentFault;
use clap::Error;
use std::fmt;

/// Why the words don't make a command. `Display` writes the first three with their line feeds.
#[derive(Drop)]
pub enum WordsFault {
    /// The words request help: its page.
    Help(Error),
    /// A usage error: the words don't fit the grammar. It has the cause and the usage.
    Usage(Error),
    /// The words fit the grammar, but make no command: this argument is malformed or missing.
    Argument(ArgumentFault),
    /// Out of memory.
    Memory,
}

impl fmt::Display for WordsFault {
    fn fmt<W: fmt::Write>(&self, f: &mut fmt::Formatter<W>) -> fmt::Result {
        match self {
            WordsFault::Help(error) => write!(f, "{error}"),
            WordsFault::Usage(error) => write!(f, "{error}"),
            WordsFault::Argument(fault) => writeln!(f, "error: {fault}"),
            WordsFault::Memory => f.write_str("Memory"),
        }
    }
}
