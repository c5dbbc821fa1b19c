//! Why a file of a device can't be opened, read or replaced.

use crate::resource_fault::ResourceFault;
use std::io::{Error, ErrorKind};

/// What is wrong with a file.
#[derive(Clone, Copy)]
pub enum FileFault {
    /// A symbolic link leads to it, and links are refused.
    Link,
    /// It isn't a regular file: a folder, for instance, or a FIFO.
    NotRegular,
    /// It has more bytes than allowed.
    TooLong,
    /// The system's reason; `OutOfMemory` if an allocation failed.
    System(ErrorKind),
}

impl FileFault {
    /// What of the machine's resources is missing.
    pub(crate) fn resource(self) -> ResourceFault {
        match self {
            FileFault::System(ErrorKind::OutOfMemory) => ResourceFault::Memory,
            _ => ResourceFault::File,
        }
    }
}

impl From<Error> for FileFault {
    fn from(error: Error) -> Self {
        FileFault::System(error.kind())
    }
}
