//! What a refusal is about, by its fault and the words of its command.

use crate::tool_fault::Fault;
use bounded_files::ResourceFault;
use cli_manifests::ManifestToolFault;
use cli_programs::ProgramToolFault;
use cli_tool_words::{AskArgs, DiffArgs, SimulateArgs, ToolCommand, WhyArgs};
use diff_manifests::DiffFault;
use dry_run::DryRunFault;
use load::{LoadFault, PathFault};
use operator::RequestFault;

/// What the words of a refused command name, where looking at it again may show the cause.
#[derive(Drop)]
pub(crate) enum Subject<'a> {
    Nothing,
    /// A manifest that isn't loaded.
    Manifest(Option<&'a str>),
    /// The manifests that lack an array, which may be the same.
    Arrays(&'a str, &'a str),
    /// The manifests that lack an app, which may be the same.
    Apps(&'a str, &'a str),
    /// The file of a program, and the one that it isn't written into.
    Program(&'a str, Option<&'a str>),
    /// The file of a request's body.
    Request(&'a str),
    /// A picture that isn't written.
    Picture(Option<&'a str>),
    /// The operator's port of a server that doesn't reply.
    Server(Option<u16>),
    /// The logs, of which one can't be read.
    Logs(&'a [&'a str]),
}

/// The subject of a refusal, except of a report.
pub(crate) fn subject_of<'x>(command: &'x ToolCommand<'x>, fault: &Fault) -> Subject<'x> {
    match command {
        ToolCommand::Ask(args) => ask_subject(args, fault),
        ToolCommand::Diff(args) => diff_subject(args, fault),
        ToolCommand::Explain { path, .. } => Subject::Program(*path, None),
        ToolCommand::Order { path, out } => match fault {
            Fault::Program(ProgramToolFault::Resource(ResourceFault::File)) => {
                Subject::Program(*path, Some(*out))
            }
            _ => Subject::Program(*path, None),
        },
        ToolCommand::Simulate(args) => simulate_subject(args, fault),
        ToolCommand::Trace(run) => Subject::Program(run.path, None),
        ToolCommand::Why(args) => why_subject(args, fault),
        _ => Subject::Nothing,
    }
}

// A manifest that gives no ruleset; nothing if memory ran out, of which it isn't the cause.
fn manifest<'x>(path: Option<&'x str>, fault: &PathFault) -> Subject<'x> {
    match fault {
        PathFault::Resource(ResourceFault::Memory) | PathFault::Load(LoadFault::Memory) => {
            Subject::Nothing
        }
        _ => Subject::Manifest(path),
    }
}

fn ask_subject<'x>(args: &'x AskArgs<'x>, fault: &Fault) -> Subject<'x> {
    match fault {
        Fault::DryRun(DryRunFault::Manifest(fault)) => manifest(Some(args.manifest), fault),
        Fault::DryRun(DryRunFault::Resource(_)) => Subject::Request(args.request),
        Fault::DryRun(DryRunFault::Cell) => Subject::Arrays(args.manifest, args.manifest),
        Fault::Ask(RequestFault::Connect) => Subject::Server(args.operator),
        _ => Subject::Nothing,
    }
}

fn why_subject<'x>(args: &'x WhyArgs<'x>, fault: &Fault) -> Subject<'x> {
    match fault {
        Fault::DryRun(DryRunFault::Manifest(fault)) => manifest(Some(args.manifest), fault),
        Fault::DryRun(DryRunFault::Cell) => Subject::Arrays(args.manifest, args.manifest),
        Fault::Resource(ResourceFault::File) => Subject::Logs(args.logs.as_slice()),
        Fault::Ask(RequestFault::Connect) => Subject::Server(args.operator),
        _ => Subject::Nothing,
    }
}

fn diff_subject<'x>(args: &'x DiffArgs<'x>, fault: &Fault) -> Subject<'x> {
    match fault {
        Fault::Diff(DiffFault::Old(fault)) => manifest(Some(args.old), fault),
        Fault::Diff(DiffFault::New(fault)) => manifest(Some(args.new), fault),
        Fault::Diff(DiffFault::Cell) => Subject::Arrays(args.old, args.new),
        Fault::Diff(DiffFault::NoApp) => Subject::Apps(args.old, args.new),
        Fault::Ask(RequestFault::Connect) => Subject::Server(args.operator),
        _ => Subject::Nothing,
    }
}

fn simulate_subject<'x>(args: &'x SimulateArgs<'x>, fault: &Fault) -> Subject<'x> {
    match fault {
        Fault::Manifest(ManifestToolFault::Load(fault)) => manifest(Some(args.manifest), fault),
        Fault::Manifest(ManifestToolFault::Against(fault)) => manifest(args.against, fault),
        Fault::Manifest(ManifestToolFault::NoApp) => Subject::Apps(args.manifest, args.manifest),
        Fault::Manifest(ManifestToolFault::Resource(ResourceFault::File)) => {
            Subject::Picture(args.picture)
        }
        _ => Subject::Nothing,
    }
}
