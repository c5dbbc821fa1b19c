//! A file that is replaced as a whole.

ghost use Rattle.std.specs.Prelude.{◌≡◌, ◌⊎◌, IfOk, IfSome, List, ℕ, OnErr, OnOk, Option, Some};
ghost use Rattle.std.specs.Prelude.{option_map};

use crate::counters_fault::CountersFault;
use std::alloc::Global;

/// A file that is replaced as a whole.
pub trait KeptFile {
    /// The bytes that a read gives, if there is a file. They are known for a file in memory, and
    /// unknown for one of a device.
    ghost known: { Self → Option (Option (List ℕ)) };

    /// The bytes of the file, at most 1 MiB; None if it doesn't exist. Returns K2 if it can't be
    /// read, and B4 if an allocation fails.
    fn read(&self, alloc: Global) -> Result<Option<Vec<u8>>, CountersFault>
        ensures { IfOk result (λ found. IfSome (known self.now)
            (λ held. option_map (λ v. v.items) found ≡ held)) };

    /// Replaces the file. Returns K4 if that fails: the file then has its old bytes, or all new
    /// ones. Returns B4 if an allocation fails.
    fn replace(&mut self, bytes: &[u8]) -> Result<(), CountersFault>
        ensures replaced { OnOk result
            (IfSome (known self.old) (λ _. known self.new ≡ Some (Some bytes.now))) }
        ensures whole { OnErr result (IfSome (known self.old)
            (λ held. (known self.new ≡ Some held) ⊎ (known self.new ≡ Some (Some bytes.now)))) };
}
