//! A file in memory, for tests.

ghost use Rattle.std.specs.Prelude.{◌≡◌, None};

use crate::counters_fault::CountersFault;
use crate::kept_file::KeptFile;
use std::alloc::Global;

/// A file in memory, if it was written.
#[derive(Drop)]
pub struct MemoryFile {
    alloc: Global,
    bytes: Option<Vec<u8>>,
}

impl MemoryFile {
    /// A file that isn't there yet. Its first `replace` makes it.
    pub fn none(alloc: Global) -> MemoryFile
        ensures { result.bytes ≡ None }
    {
        MemoryFile { alloc, bytes: None }
    }
}

impl KeptFile for MemoryFile {
    ghost use Rattle.std.specs.Prelude.{Some, option_map};

    ghost known = { λ file. Some (option_map (λ v. v.items) file.bytes) };

    fn read(&self, alloc: Global) -> Result<Option<Vec<u8>>, CountersFault> {
        match &self.bytes {
            Some(bytes) => match bytes.to_vec(alloc) {
                Ok(copy) => Ok(Some(copy)),
                Err(_) => Err(CountersFault::Memory),
            },
            None => Ok(None),
        }
    }

    fn replace(&mut self, bytes: &[u8]) -> Result<(), CountersFault> {
        match bytes.to_vec(self.alloc) {
            Ok(copy) => {
                self.bytes = Some(copy);
                Ok(())
            }
            Err(_) => Err(CountersFault::Memory),
        }
    }
}
