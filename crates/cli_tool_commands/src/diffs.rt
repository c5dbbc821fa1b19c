//! `diff`: for whom a manifest changes what another one gives.

ghost use Rattle.std.specs.Prelude.{IfOk, IfErr};
ghost use Rattle.diff_manifests.specs.Opened.{AreKept};
ghost use Rattle.cli_tool_commands.specs.Diffs as specs;
ghost use Rattle.cli_tool_commands.specs.Outputs.{IsOutput, IsRefused};

use crate::dry_runs::served_reply;
use crate::output::ToolOutput;
use crate::tool_fault::Fault;
use bounded_files::{Disk, ResourceFault};
use cell_assignments::read_assignments;
use cli_tool_words::{DiffArgs, ToolCommand};
use diff_manifests::{DiffOptions, DiffOutput, OpenedBoth, diff_manifests, open_both};
use std::net::{Net, TcpStream};

/// The comparison of two manifests. They are opened first; then a server's counters are requested,
/// if a port is given.
// open: which counters a server has: tests.
pub(crate) fn diffed<R, D>(rt: &R, disk: &D, args: &DiffArgs<'_>) -> Result<ToolOutput, Fault>
where
    R: AllocGlobal + Net<Stream = TcpStream>,
    D: Disk,
    ensures output { IfOk result (IsOutput (D.known disk.now) (ToolCommand.Diff args.now)) }
    ensures fault { IfErr result (IsRefused (D.known disk.now) (ToolCommand.Diff args.now)) }
{
    match output_of(rt, disk, args) {
        Ok(output) => {
            let passes = !(args.fail_on_lost && output.loses);
            Ok(ToolOutput::Diffed { output, passes })
        }
        Err(fault) => Err(fault),
    }
}

#[tactic(auto, using(crate::proofs::Uncompared::uncompared))]
fn output_of<R, D>(rt: &R, disk: &D, args: &DiffArgs<'_>) -> Result<DiffOutput, Fault>
where
    R: AllocGlobal + Net<Stream = TcpStream>,
    D: Disk,
    ensures output { IfOk result (specs.HasDiffed (D.known disk.now) args.now) }
    ensures fault { IfErr result (specs.IsDiffRefusal (D.known disk.now) args.now) }
{
    let both = match open_both(rt.alloc(), disk, args.old, args.new) {
        Ok(both) => both,
        Err(fault) => return Err(Fault::Diff(fault)),
    };
    let output = output_from(rt, &both, args);
    drop(both);
    match output {
        Ok(output) => Ok(output),
        Err(fault) => Err(fault),
    }
}

// The comparison of opened manifests.
fn output_from<R>(rt: &R, both: &OpenedBoth, args: &DiffArgs<'_>) -> Result<DiffOutput, Fault>
where
    R: AllocGlobal + Net<Stream = TcpStream>,
    requires { AreKept both.now }
    ensures output { IfOk result (specs.IsDiffedBy both.now args.now) }
    ensures fault { IfErr result (specs.PreventsDiff both.now args.now) }
{
    let reply = match served_reply(rt, args.operator) {
        Ok(reply) => reply,
        Err(fault) => return Err(Fault::Ask(fault)),
    };
    let Ok(served) = read_assignments(rt.alloc(), reply.as_str()) else {
        return Err(Fault::Resource(ResourceFault::Memory));
    };
    let options = DiffOptions {
        only: args.appid,
        from_day: args.from,
        json: args.json,
    };
    match diff_manifests(rt.alloc(), both, &served, &args.cells, &options) {
        Ok(output) => Ok(output),
        Err(fault) => Err(Fault::Diff(fault)),
    }
}
