//! `check` and `report`: the outputs of commands that report on manifests and on logs.

ghost use Rattle.std.specs.Prelude.{◌≡◌, IfOk, IfErr, is_some};
ghost use Rattle.std.specs.String.{string_bytes};
ghost use Rattle.bounded_files.specs.Files.{KnownFiles};
ghost use Rattle.cli_tool_commands.specs.Outputs.{IsOutput, IsRefused};
ghost use Rattle.cli_tool_commands.specs.Servers.{HasServer};

use crate::found_server::{found_server, server_facts};
use crate::output::ToolOutput;
use crate::tool_fault::Fault;
use bounded_files::{Disk, ResourceFault};
use cli_logs::{NamedPage, ReportForm, report_logs, report_on_state};
use cli_manifests::check_files;
use cli_tool_words::{CheckArgs, ReportArgs, ToolCommand};
use folder_facts::folder_facts;
use report_page::FolderFacts;
use server_metrics::server_text;
use server_replies::ServerFacts;
use std::alloc::AllocError;
use std::fs::File;
use std::net::{Net, TcpStream};
use std::rt::Files;
use std::time::Clock;

/// The messages about the manifests.
pub(crate) fn checked<R, D>(rt: &R, disk: &D, args: &CheckArgs<'_>) -> Result<ToolOutput, Fault>
where
    R: Files + AllocGlobal,
    D: Disk,
    ensures output { IfOk result (IsOutput (D.known disk.now) (ToolCommand.Check args.now)) }
    ensures fault { IfErr result (IsRefused (D.known disk.now) (ToolCommand.Check args.now)) }
{
    let (manifests, allowed) = (args.manifests.as_slice(), args.allowed.as_slice());
    match check_files(rt, disk, manifests, args.strict, allowed, args.json) {
        Ok(output) => Ok(ToolOutput::Checked(output)),
        Err(fault) => Err(Fault::Manifest(fault)),
    }
}

/// The report on the logs; with a state, on the lines that it hasn't counted yet. What a server
/// says is requested before, if a port is given; and a folder is read, if one is named.
pub(crate) fn reported<R, D>(rt: &R, disk: &D, args: &ReportArgs<'_>) -> Result<ToolOutput, Fault>
where
    R: Files<File = File> + AllocGlobal + Clock + Eprint + Net<Stream = TcpStream>,
    D: Disk,
    ensures output { (known : KnownFiles)
        → IfOk result (IsOutput known (ToolCommand.Report args.now)) }
    ensures fault { (known : KnownFiles)
        → IfErr result (IsRefused known (ToolCommand.Report args.now)) }
{
    let found = match found_server(rt, args) {
        Ok(found) => found,
        Err(fault) => return Err(fault),
    };
    let facts = server_facts(&found);
    let Ok(server) = server_text(rt.alloc(), args.prometheus, args.heads, facts) else {
        return Err(Fault::Resource(ResourceFault::Memory));
    };
    let Ok(folder) = folder_of(rt, disk, args) else {
        return Err(Fault::Resource(ResourceFault::Memory));
    };
    report_with(rt, args, facts, folder.as_ref(), server)
}

// What the folder of a page has, if one is named.
fn folder_of<R, D>(
    rt: &R,
    disk: &D,
    args: &ReportArgs<'_>,
) -> Result<Option<FolderFacts>, AllocError>
where
    R: Files<File = File> + AllocGlobal,
    D: Disk,
{
    match args.folder {
        Some(folder) => Ok(Some(folder_facts(rt, disk, folder)?)),
        None => Ok(None),
    }
}

// The report, with what a server says and a folder has, and the text of what the server says.
fn report_with<R>(
    rt: &R,
    args: &ReportArgs<'_>,
    facts: Option<ServerFacts<'_>>,
    folder: Option<&FolderFacts>,
    server: String,
) -> Result<ToolOutput, Fault>
where
    R: Files<File = File> + AllocGlobal + Clock + Eprint,
    requires { HasServer args.now (string_bytes server) }
    ensures output { (known : KnownFiles)
        → IfOk result (IsOutput known (ToolCommand.Report args.now)) }
    ensures fault { (known : KnownFiles)
        → IfErr result (IsRefused known (ToolCommand.Report args.now)) }
{
    let (logs, page) = (args.logs.as_slice(), page_of(args, facts, folder));
    let form = ReportForm {
        prometheus: args.prometheus,
        heads: args.heads,
    };
    if let Some(state) = args.state {
        return match report_on_state(rt, logs, state, form, args.picture, page) {
            Ok(report) => Ok(ToolOutput::Continued { report, server }),
            Err(fault) => Err(Fault::Report(fault)),
        };
    }
    match report_logs(rt, logs, args.since, args.until, form, args.picture, page) {
        Ok(report) => Ok(ToolOutput::Reported { report, server }),
        Err(fault) => Err(Fault::Resource(fault)),
    }
}

// The page that is written, with what it shows besides the logs.
fn page_of<'a>(
    args: &ReportArgs<'a>,
    server: Option<ServerFacts<'a>>,
    folder: Option<&'a FolderFacts>,
) -> Option<NamedPage<'a>>
    ensures { is_some result ≡ is_some args.now.page }
{
    match args.page {
        Some(path) => Some(NamedPage {
            path,
            server,
            folder,
        }),
        None => None,
    }
}
