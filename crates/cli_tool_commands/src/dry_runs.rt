//! `ask`: the reply that a server would send.

ghost use Rattle.std.specs.Prelude.{IfOk, IfErr, IsSome};
ghost use Rattle.std.specs.String.{string_bytes};
ghost use Rattle.std.specs.Str.Lines.{lines};
ghost use Rattle.operator.specs.Done.{IsRequestRefusal};
ghost use Rattle.cell_assignments.specs.Assignments.{assignments_in};
ghost use Rattle.cli_tool_commands.specs.DryRuns as specs;
ghost use Rattle.cli_tool_commands.specs.Outputs.{IsOutput, IsRefused};

use crate::output::ToolOutput;
use crate::tool_fault::Fault;
use crate::whys::why_of;
use attrs::Moment;
use bounded_files::{Disk, ResourceFault};
use cell_assignments::read_assignments;
use cli_tool_words::{AskArgs, ToolCommand};
use dry_run::{OpenedFiles, open_files, reply_on_counters};
use operator::{RequestFault, ask_server};
use operator_request::OperatorRequest;
use std::net::{Net, TcpStream};
use std::time::{Clock, SystemTime, UNIX_EPOCH};

/// The body of the reply, or why each app gets what it gets. The files are opened first; then a
/// server's counters are requested, if a port is given.
// open: which counters a server has, and which second the clock gives: tests.
pub(crate) fn dry_run_of<R, D>(rt: &R, disk: &D, args: &AskArgs<'_>) -> Result<ToolOutput, Fault>
where
    R: AllocGlobal + Clock + Net<Stream = TcpStream>,
    D: Disk,
    ensures output { IfOk result (IsOutput (D.known disk.now) (ToolCommand.Ask args.now)) }
    ensures fault { IfErr result (IsRefused (D.known disk.now) (ToolCommand.Ask args.now)) }
{
    if args.why {
        return match why_of(rt, disk, args) {
            Ok(text) => Ok(ToolOutput::Why { text }),
            Err(fault) => Err(fault),
        };
    }
    match body_of(rt, disk, args) {
        Ok(body) => Ok(ToolOutput::Reply { body }),
        Err(fault) => Err(fault),
    }
}

// The body of the reply, from the files.
fn body_of<R, D>(rt: &R, disk: &D, args: &AskArgs<'_>) -> Result<Vec<u8>, Fault>
where
    R: AllocGlobal + Clock + Net<Stream = TcpStream>,
    D: Disk,
    ensures reply { IfOk result (λ body.
        specs.HasDryRun (D.known disk.now) args.now body.items) }
    ensures fault { IfErr result (specs.IsDryRunRefusal (D.known disk.now) args.now) }
{
    let opened = match open_files(rt.alloc(), disk, args.manifest, args.request) {
        Ok(opened) => opened,
        Err(fault) => return Err(Fault::DryRun(fault)),
    };
    let reply = reply_to(rt, &opened, args);
    drop(opened);
    match reply {
        Ok(body) => Ok(body),
        Err(fault) => Err(fault),
    }
}

// The body of the reply, from the opened files.
fn reply_to<R>(rt: &R, opened: &OpenedFiles, args: &AskArgs<'_>) -> Result<Vec<u8>, Fault>
where
    R: AllocGlobal + Clock + Net<Stream = TcpStream>,
    ensures reply { IfOk result (λ body. specs.IsReplyBy opened.now.rules opened.now.directory
        opened.now.body.items args.now body.items) }
    ensures fault { IfErr result (specs.IsReplyFault opened.now.directory opened.now.body.items
        args.now) }
{
    let reply = match served_reply(rt, args.operator) {
        Ok(reply) => reply,
        Err(fault) => return Err(Fault::Ask(fault)),
    };
    let Ok(served) = read_assignments(rt.alloc(), reply.as_str()) else {
        return Err(Fault::Resource(ResourceFault::Memory));
    };
    let moment = moment_of(rt, args.at);
    match reply_on_counters(rt.alloc(), opened, &moment, &served, &args.cells) {
        Ok(body) => Ok(body),
        Err(fault) => Err(Fault::DryRun(fault)),
    }
}

/// The lines of a server's counters; empty without a port.
pub(crate) fn served_reply<R>(rt: &R, port: Option<u16>) -> Result<String, RequestFault>
where
    R: AllocGlobal + Net<Stream = TcpStream>,
    ensures served { IfOk result
        (λ t. specs.AreServed port (assignments_in (lines (string_bytes t)))) }
    ensures fault { IfErr result
        (λ fault. IsSome port × IsRequestRefusal OperatorRequest.Cells fault) }
{
    match port {
        Some(port) => ask_server(rt, OperatorRequest::Cells, port),
        None => Ok(String::new(rt.alloc())),
    }
}

/// The given moment, or the clock's.
pub(crate) fn moment_of<R: Clock>(rt: &R, at: Option<Moment>) -> Moment
    ensures { specs.IsAt at result }
{
    match at {
        Some(moment) => moment,
        None => unix_second(rt),
    }
}

// The second by the clock; 0 if it can't be read, which counts as the first of 2007.
fn unix_second<R: Clock>(rt: &R) -> Moment {
    let Ok(now) = SystemTime::now(rt) else {
        return 0;
    };
    match now.duration_since(UNIX_EPOCH) {
        Ok(since) => i64::try_from(since.as_secs()).unwrap_or(0),
        Err(_) => 0,
    }
}
