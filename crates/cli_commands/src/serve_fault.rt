//! Why `serve` is refused.

ghost use Rattle.std.specs.Prelude.{◌≡◌, Some, option_copied};
ghost use Rattle.cli_commands.specs.Texts.{fault_cause, fault_text};

use counters_file::CountersFault;
use serving::ServingFault;
use std::fmt;

/// The reason, printed after `refused `.
#[derive(Drop)]
pub enum ServeRefusal {
    /// K1 to K4, B4: the file of a server's counters can't be opened or written.
    Counters(CountersFault),
    /// A server can't be made, or can't serve.
    Serving(ServingFault),
}

impl ServeRefusal {
    /// The cause that a server's log adds to the fault's text, if there is one.
    pub fn cause(&self) -> Option<&str>
        ensures { option_copied result ≡ fault_cause self.now }
    {
        match self {
            ServeRefusal::Counters(_) => None,
            ServeRefusal::Serving(fault) => fault.cause(),
        }
    }
}

impl fmt::Display for ServeRefusal {
    ghost output = { λ fault. Some (fault_text fault) };

    fn fmt<W: fmt::Write>(&self, f: &mut fmt::Formatter<W>) -> fmt::Result {
        match self {
            ServeRefusal::Counters(fault) => write!(f, "{fault}"),
            ServeRefusal::Serving(fault) => write!(f, "{fault}"),
        }
    }
}
