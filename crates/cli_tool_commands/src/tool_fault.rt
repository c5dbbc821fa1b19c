//! Why a command is refused.

ghost use Rattle.std.specs.Prelude.{◌≡◌, Some};
ghost use Rattle.cli_tool_commands.specs.Texts.{fault_text, refusal_reason};

use bounded_files::ResourceFault;
use cli_inspection::RefusedProgram;
use cli_logs::ReportFault;
use cli_manifests::ManifestToolFault;
use cli_programs::ProgramToolFault;
use diff_manifests::DiffFault;
use dry_run::DryRunFault;
use operator::RequestFault;
use std::fmt;

/// The reason, printed after `refused `.
#[derive(Drop)]
pub(crate) enum Fault {
    /// B3: a log can't be read, or a picture can't be written. B4: out of memory.
    Resource(ResourceFault),
    /// `order` or `trace` is refused, or `explain`, except by a rule.
    Program(ProgramToolFault),
    /// V1 to V14, from `explain`: a rule refuses the program; the text has what is known about it.
    Explained {
        text: String,
        refused: RefusedProgram,
    },
    /// `check` or `simulate` is refused.
    Manifest(ManifestToolFault),
    /// B3, B4, B7, M1 to M8, O1 to O5, P5: a request gets no reply.
    DryRun(DryRunFault),
    /// B3, B4, B7, B8, M1 to M8: two manifests can't be compared.
    Diff(DiffFault),
    /// B3, B4, B9, B10: a report can't go on from a file of counts.
    Report(ReportFault),
    /// B4, B5, or a refusal in the server's words: a server's counters can't be had.
    Ask(RequestFault),
}

impl Fault {
    /// The lines after the refusal: the place and the reason of a manifest's refusal, and the
    /// reason of a program's in `explain`.
    pub(crate) fn reason(&self) -> &str
        ensures { result.now ≡ refusal_reason self.now }
    {
        match self {
            Fault::Explained { refused, .. } => refused.reason.as_str(),
            Fault::Manifest(ManifestToolFault::Diagnosed(refused)) => refused.reason.as_str(),
            _ => "",
        }
    }
}

impl fmt::Display for Fault {
    ghost output = { λ fault. Some (fault_text fault) };

    fn fmt<W: fmt::Write>(&self, f: &mut fmt::Formatter<W>) -> fmt::Result {
        match self {
            Fault::Resource(fault) => fmt::Display::fmt(fault, f),
            Fault::Program(fault) => fmt::Display::fmt(fault, f),
            Fault::Explained { refused, .. } => fmt::Display::fmt(&refused.refusal, f),
            Fault::Manifest(fault) => fmt::Display::fmt(fault, f),
            Fault::DryRun(fault) => fmt::Display::fmt(fault, f),
            Fault::Diff(fault) => fmt::Display::fmt(fault, f),
            Fault::Report(fault) => fmt::Display::fmt(fault, f),
            Fault::Ask(fault) => fmt::Display::fmt(fault, f),
        }
    }
}
