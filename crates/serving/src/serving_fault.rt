//! Why a server can't be made, or can't serve.

ghost use Rattle.std.specs.Prelude.{◌≡◌, ◌↔◌, IsTrue, Some, option_copied};
ghost use Rattle.serving.specs.Texts.{cause_of, serving_text};

use bounded_files::ResourceFault;
use hot_swap::SwapFault;
use load::LoadRefusal;
use shared_cells::SharedFault;
use std::error::Error;
use std::fmt::{self, Display};

/// The fault, which is shown as it is printed.
#[derive(Debug)]
pub enum ServingFault {
    /// B3, B4, M1 to M8: the manifest has no ruleset.
    Manifest(LoadRefusal),
    /// B6: a port can't be bound, or too few descriptors are left.
    Bind,
    /// S1: the counters can't be allocated.
    Cells(SharedFault),
    /// H1 or H2: the publisher of the rulesets, or a watcher of it, fails.
    Publisher(SwapFault),
    /// B4: another allocation, or a thread, fails. B3: the ready line can't be written.
    Resource(ResourceFault),
}

// Not derived: a crate that drops one would prove the drop of each of its parts anew.
impl Drop for ServingFault {
    fn drop(self) {
        match self {
            ServingFault::Manifest(refusal) => drop(refusal),
            ServingFault::Bind => {}
            ServingFault::Cells(_fault) => {}
            ServingFault::Publisher(_fault) => {}
            ServingFault::Resource(_fault) => {}
        }
    }
}

impl ServingFault {
    /// Whether it is the fault of a server that has served: its log already has it, with the
    /// counters.
    pub fn is_in_log(&self) -> bool
        ensures { IsTrue result ↔ (self.now ≡ ServingFault.Publisher SwapFault.NoPlace) }
    {
        matches!(self, ServingFault::Publisher(SwapFault::NoPlace))
    }

    /// The cause that a log has with the fault's text, if there is one: that of a manifest's fault.
    pub fn cause(&self) -> Option<&str>
        ensures { option_copied result ≡ cause_of self.now }
    {
        let ServingFault::Manifest(refusal) = self else {
            return None;
        };
        match &refusal.cause {
            Some(cause) => Some(cause.as_str()),
            None => None,
        }
    }
}

impl Display for ServingFault {
    ghost output = { λ fault. Some (serving_text fault) };

    fn fmt<W: fmt::Write>(&self, f: &mut fmt::Formatter<W>) -> fmt::Result {
        match self {
            ServingFault::Manifest(refusal) => write!(f, "{refusal}"),
            ServingFault::Bind => f.write_str("B6 Bind"),
            ServingFault::Cells(fault) => f.write_str(fault.name()),
            ServingFault::Publisher(fault) => f.write_str(fault.name()),
            ServingFault::Resource(fault) => f.write_str(fault.name()),
        }
    }
}

impl Error for ServingFault {}
