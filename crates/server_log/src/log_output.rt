//! The output of a log.

use std::io::{self, Print};

/// A runtime with standard error, to which the lines of a log are written as bytes, unchanged.
pub trait LogOutput: Eprint {
    /// Writes all of these bytes, or fails.
    fn write_lines(&self, bytes: &[u8]) -> io::Result<()>;
}

impl LogOutput for HostRuntime {
    fn write_lines(&self, bytes: &[u8]) -> io::Result<()> {
        Print::write_all(&self.stderr(), bytes)
    }
}
