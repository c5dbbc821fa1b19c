//! Why a file of counters can't be opened or written.

ghost use Rattle.std.specs.Prelude.{Some};
ghost use Rattle.counters_file.specs.Faults.{fault_text};

use std::fmt;

/// The fault, with its code as it is printed.
#[derive(Clone, Copy, Debug, PartialEq, Eq)]
pub enum CountersFault {
    /// K1: another server has the file.
    InUse,
    /// K2: it can't be read, isn't a regular file, or has more than 1 MiB.
    File,
    /// K3: the line with this number, from 1, is the first that is wrong.
    Damaged { line: usize },
    /// K4: it can't be written, or it can't be locked.
    Store,
    /// B4: an allocation failed.
    Memory,
}

impl fmt::Display for CountersFault {
    ghost output = { λ fault. Some (fault_text fault) };

    fn fmt<W: fmt::Write>(&self, f: &mut fmt::Formatter<W>) -> fmt::Result {
        match self {
            CountersFault::InUse => f.write_str("K1 InUse"),
            CountersFault::File => f.write_str("K2 File"),
            CountersFault::Damaged { line } => write!(f, "K3 Damaged at line {line}"),
            CountersFault::Store => f.write_str("K4 Store"),
            CountersFault::Memory => f.write_str("B4 Memory"),
        }
    }
}
