//! The replies to an operator, as they are printed. The line of a refusal begins with `refused `,
//! followed by the number and name of the fault.

ghost use Rattle.operator.specs.Texts.{refusal_text, reply_text};

use crate::server_reply::WORD_NAME;
use bounded_files::ResourceFault;
use hot_swap::{Generation, SwapFault};
use std::fmt::{self, Display};

/// Why a request is refused.
#[derive(Debug, Drop)]
pub enum OperatorRefusal<F> {
    /// B1: the line isn't a request.
    Word,
    /// B4: an allocation of the request itself fails.
    Memory,
    /// The loader's fault.
    Load(F),
    /// H1 or H3: the ruleset isn't installed.
    Install(SwapFault),
    /// B8: no app has this appid; neither one of the last load, nor a halted one.
    App,
}

/// The reply to a request.
#[derive(Drop)]
pub enum OperatorReply<F> {
    /// This generation is served: a ruleset that was loaded, or the last one with a halt more or
    /// less; or what was served before, if the app was halted, or not halted, already.
    Loaded(Generation),
    /// The requested lines.
    Lines(String),
    /// The server ends.
    Stopping,
    /// Nothing was done.
    Refused(OperatorRefusal<F>),
}

impl<F: Display> Display for OperatorRefusal<F> {
    ghost output = { refusal_text F.output };

    fn fmt<W: fmt::Write>(&self, f: &mut fmt::Formatter<W>) -> fmt::Result {
        match self {
            OperatorRefusal::Word => f.write_str(WORD_NAME),
            OperatorRefusal::Memory => f.write_str(ResourceFault::Memory.name()),
            OperatorRefusal::Load(fault) => write!(f, "{fault}"),
            OperatorRefusal::Install(fault) => f.write_str(fault.name()),
            OperatorRefusal::App => f.write_str("B8 App"),
        }
    }
}

impl<F: Display> Display for OperatorReply<F> {
    ghost output = { reply_text F.output };

    fn fmt<W: fmt::Write>(&self, f: &mut fmt::Formatter<W>) -> fmt::Result {
        match self {
            OperatorReply::Loaded(generation) => writeln!(f, "generation {generation}"),
            OperatorReply::Lines(lines) => f.write_str(lines),
            OperatorReply::Stopping => f.write_str("stopping\n"),
            OperatorReply::Refused(refusal) => writeln!(f, "refused {refusal}"),
        }
    }
}
