//! `why`: why a machine got what it got, by the lines of logs, and the digest of the files that
//! give the reasons.

ghost use Rattle.std.specs.Prelude.{All, IfErr, IfOk, string_bytes};
ghost use Rattle.dry_run.specs.Meanings.{IsMeantApp};
ghost use Rattle.cli_tool_commands.specs.LoggedWhys as specs;
ghost use Rattle.cli_tool_commands.specs.Outputs.{IsOutput, IsRefused};

use crate::dry_runs::served_reply;
use crate::output::ToolOutput;
use crate::tool_fault::Fault;
use crate::whys::with_digest;
use bounded_files::{Disk, ResourceFault};
use cell_assignments::read_assignments;
use cli_tool_words::{ToolCommand, WhyArgs};
use dry_run::{DryRunFault, open_meant};
use load::JudgedManifest;
use std::net::{Net, TcpStream};
use std::rt::Files;
use why_log::{FoundLines, Machine, explain_found, find_lines};

/// How many requests are explained without `--all`.
const FEW: usize = 3;

/// Why a machine got what it got, and last the line `digest ..` that `check` prints for the
/// manifest. The manifest is opened first; then a server's counters are requested, if a port is
/// given; then the logs are read.
// open: which counters a server has, and what a device's logs contain: tests.
#[tactic(auto, using(crate::proofs::Unlogged::unlogged))]
pub(crate) fn logged_why_of<R, D>(rt: &R, disk: &D, args: &WhyArgs<'_>) -> Result<ToolOutput, Fault>
where
    R: Files + AllocGlobal + Net<Stream = TcpStream>,
    D: Disk,
    ensures output { IfOk result (IsOutput (D.known disk.now) (ToolCommand.Why args.now)) }
    ensures fault { IfErr result (IsRefused (D.known disk.now) (ToolCommand.Why args.now)) }
{
    let manifest = match open_meant(rt.alloc(), disk, args.manifest) {
        Ok(manifest) => manifest,
        Err(fault) => return Err(Fault::DryRun(DryRunFault::Manifest(fault))),
    };
    let text = logged_why_by(rt, &manifest, args);
    drop(manifest);
    match text {
        Ok(text) => Ok(ToolOutput::Why { text }),
        Err(fault) => Err(fault),
    }
}

// The same, by the opened manifest.
fn logged_why_by<R>(rt: &R, manifest: &JudgedManifest, args: &WhyArgs<'_>) -> Result<String, Fault>
where
    R: Files + AllocGlobal + Net<Stream = TcpStream>,
    requires { All IsMeantApp manifest.now.apps.items }
    ensures why { IfOk result (λ text.
        specs.IsLoggedWhyBy manifest.now args.now (string_bytes text)) }
    ensures fault { IfErr result (specs.IsLoggedFault manifest.now.directory args.now) }
{
    let reply = match served_reply(rt, args.operator) {
        Ok(reply) => reply,
        Err(fault) => return Err(Fault::Ask(fault)),
    };
    let Ok(served) = read_assignments(rt.alloc(), reply.as_str()) else {
        return Err(Fault::Resource(ResourceFault::Memory));
    };
    let found = match lines_of(rt, args) {
        Ok(found) => found,
        Err(fault) => return Err(Fault::Resource(fault)),
    };
    let explained = explain_found(rt.alloc(), manifest, &served, &args.cells, &found);
    drop(found);
    let lines = match explained {
        Ok(lines) => lines,
        Err(fault) => return Err(Fault::DryRun(fault)),
    };
    match with_digest(lines, manifest.digest) {
        Ok(text) => Ok(text),
        Err(_) => Err(Fault::Resource(ResourceFault::Memory)),
    }
}

// The machine's lines.
fn lines_of<R>(rt: &R, args: &WhyArgs<'_>) -> Result<FoundLines, ResourceFault>
where
    R: Files + AllocGlobal,
    ensures { IfOk result (specs.AreLinesOf args.now) }
{
    let machine = Machine {
        address: args.address,
        bucket: args.bucket,
        id: args.id,
    };
    let most = if args.all { usize::MAX } else { FEW };
    find_lines(rt, args.logs.as_slice(), &machine, most)
}
