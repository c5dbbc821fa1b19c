//! `ask --why`: why each app of a request gets what it gets, and the digest of the files that give
//! the reasons.

ghost use Rattle.std.specs.Prelude.{◌≡◌, ◌++◌, All, IfOk, IfErr};
ghost use Rattle.std.specs.String.{string_bytes};
ghost use Rattle.cli_tool_commands.specs.DryRuns.{IsReplyFault};
ghost use Rattle.cli_tool_commands.specs.Whys as specs;
ghost use Rattle.dry_run.specs.Meanings.{IsMeantApp};
ghost use Rattle.cli_manifests.specs.Checks.{digest_line};

use crate::dry_runs::{moment_of, served_reply};
use crate::tool_fault::Fault;
use bounded_files::{Disk, ResourceFault};
use cell_assignments::read_assignments;
use cli_manifests::push_digest;
use cli_tool_words::AskArgs;
use dry_run::{OpenedWhy, open_why, why_on_counters};
use std::alloc::AllocError;
use std::net::{Net, TcpStream};
use std::time::Clock;

/// Why each app gets what it gets, and last the line `digest ..` that `check` prints for the
/// manifest. The files are opened first; then a server's counters are requested, if a port is
/// given.
// open: which counters a server has, and which second the clock gives: tests.
#[tactic(auto, using(crate::proofs::Unanswered::unanswered))]
pub(crate) fn why_of<R, D>(rt: &R, disk: &D, args: &AskArgs<'_>) -> Result<String, Fault>
where
    R: AllocGlobal + Clock + Net<Stream = TcpStream>,
    D: Disk,
    ensures why { IfOk result (λ text.
        specs.HasWhy (D.known disk.now) args.now (string_bytes text)) }
    ensures fault { IfErr result (specs.IsWhyRefusal (D.known disk.now) args.now) }
{
    let opened = match open_why(rt.alloc(), disk, args.manifest, args.request) {
        Ok(opened) => opened,
        Err(fault) => return Err(Fault::DryRun(fault)),
    };
    let why = why_from(rt, &opened, args);
    drop(opened);
    match why {
        Ok(text) => Ok(text),
        Err(fault) => Err(fault),
    }
}

// Why each app gets what it gets, from the opened files.
fn why_from<R>(rt: &R, opened: &OpenedWhy, args: &AskArgs<'_>) -> Result<String, Fault>
where
    R: AllocGlobal + Clock + Net<Stream = TcpStream>,
    requires { All IsMeantApp opened.now.manifest.apps.items }
    ensures why { IfOk result (λ text.
        specs.IsWhyBy opened.now args.now (string_bytes text)) }
    ensures fault { IfErr result
        (IsReplyFault opened.now.manifest.directory opened.now.body.items args.now) }
{
    let reply = match served_reply(rt, args.operator) {
        Ok(reply) => reply,
        Err(fault) => return Err(Fault::Ask(fault)),
    };
    let Ok(served) = read_assignments(rt.alloc(), reply.as_str()) else {
        return Err(Fault::Resource(ResourceFault::Memory));
    };
    let moment = moment_of(rt, args.at);
    let lines = match why_on_counters(rt.alloc(), opened, &moment, &served, &args.cells) {
        Ok(lines) => lines,
        Err(fault) => return Err(Fault::DryRun(fault)),
    };
    match with_digest(lines, opened.manifest.digest) {
        Ok(text) => Ok(text),
        Err(_) => Err(Fault::Resource(ResourceFault::Memory)),
    }
}

/// The lines, followed by that of the digest.
pub(crate) fn with_digest(lines: String, digest: [u8; 32]) -> Result<String, AllocError>
    ensures { IfOk result (λ text. string_bytes text ≡ string_bytes lines ++ digest_line digest) }
{
    let mut text = lines;
    push_digest(&mut text, digest)?;
    Ok(text)
}
