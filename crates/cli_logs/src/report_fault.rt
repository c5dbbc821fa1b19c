//! Why a report with a state is refused.

ghost use Rattle.std.specs.Prelude.{◌≡◌, Some};
ghost use Rattle.cli_logs.specs.Faults.{report_fault_text};

use bounded_files::ResourceFault;
use std::fmt;

/// Why no report is made.
#[derive(Clone, Copy, Drop)]
pub enum ReportFault {
    /// B3: a log or the state can't be read, or the state can't be written. B4: out of memory.
    Resource(ResourceFault),
    /// B9: the state's file has other bytes than a report's state. It stays as it is.
    State,
    /// B10: another report on this state runs.
    Locked,
}

impl fmt::Display for ReportFault {
    ghost output = { λ fault. Some (report_fault_text fault) };

    fn fmt<W: fmt::Write>(&self, f: &mut fmt::Formatter<W>) -> fmt::Result {
        match self {
            ReportFault::Resource(fault) => write!(f, "{fault}"),
            ReportFault::State => f.write_str("B9 State"),
            ReportFault::Locked => f.write_str("B10 Locked"),
        }
    }
}
