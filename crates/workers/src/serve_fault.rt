//! Why a server doesn't serve.

use bounded_files::ResourceFault;
use std::error::Error;
use std::fmt::{self, Display};

/// The fault of a server that doesn't serve.
#[derive(Clone, Copy, Debug, Drop)]
pub enum ServeFault {
    /// B4: an allocation, or a thread, failed.
    Memory,
}

impl Display for ServeFault {
    fn fmt<W: fmt::Write>(&self, f: &mut fmt::Formatter<W>) -> fmt::Result {
        match self {
            ServeFault::Memory => f.write_str(ResourceFault::Memory.name()),
        }
    }
}

impl Error for ServeFault {}
