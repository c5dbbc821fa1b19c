//! Why a file can't be read or written.

ghost use Rattle.std.specs.Prelude.{◌≡◌, Some};
ghost use Rattle.bounded_files.specs.Texts.{resource_text};

use std::fmt;

/// What the machine couldn't provide.
#[derive(Clone, Copy, Debug, Drop)]
pub enum ResourceFault {
    /// B3: a file can't be read or written.
    File,
    /// B4: out of memory.
    Memory,
}

impl ResourceFault {
    /// The code and the name, as printed.
    pub fn name(self) -> &'static str
        ensures { result.now ≡ resource_text self }
    {
        match self {
            ResourceFault::File => "B3 File",
            ResourceFault::Memory => "B4 Memory",
        }
    }
}

impl fmt::Display for ResourceFault {
    ghost output = { λ fault. Some (resource_text fault) };

    fn fmt<W: fmt::Write>(&self, f: &mut fmt::Formatter<W>) -> fmt::Result {
        f.write_str(self.name())
    }
}
