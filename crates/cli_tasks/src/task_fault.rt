//! Why a task is refused.

ghost use Rattle.std.specs.Prelude.{Some};
ghost use Rattle.cli_tasks.specs.Texts.{fault_text};

use bounded_files::ResourceFault;
use cli_programs::ProgramToolFault;
use operator::RequestFault;
use replay::ReplayFault;
use std::fmt;

/// The reason, printed after `refused `.
#[derive(Drop)]
pub enum TaskFault {
    /// B4: out of memory for the lines of `replay`.
    Resource(ResourceFault),
    /// `asm`, `list`, `compile`, `verify` or `run` is refused.
    Program(ProgramToolFault),
    /// B2 to B4, M1 to M8: a script, or a manifest of it, is refused.
    Replay(ReplayFault),
    /// B1, B4, B5: a request can't be sent to a server, or gets no reply; or the server's refusal.
    Ask(RequestFault),
}

impl fmt::Display for TaskFault {
    ghost output = { λ fault. Some (fault_text fault) };

    fn fmt<W: fmt::Write>(&self, f: &mut fmt::Formatter<W>) -> fmt::Result {
        match self {
            TaskFault::Resource(fault) => write!(f, "{fault}"),
            TaskFault::Program(fault) => write!(f, "{fault}"),
            TaskFault::Replay(fault) => write!(f, "{fault}"),
            TaskFault::Ask(fault) => write!(f, "{fault}"),
        }
    }
}
