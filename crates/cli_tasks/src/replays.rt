//! `replay`: the events of a script and their results.

ghost use Rattle.std.specs.Prelude.{◌≡◌, IfOk, IfErr};
ghost use Rattle.std.specs.List.{flat_map};
ghost use Rattle.std.specs.String.{string_bytes};
ghost use Rattle.cli_tasks.specs.Replays.{HasReplayed, IsReplayRefusal, reply_line};

use crate::task_fault::TaskFault;
use bounded_files::{Disk, ResourceFault};
use replay::{Reply, replay_files};
use std::alloc::{AllocError, Global};
use std::fmt::Write;

/// The lines of a script's events, in a world whose first ruleset is the manifest's.
// open: what `replay_files` leaves open.
pub fn replay_script<D: Disk>(
    alloc: Global,
    disk: &D,
    manifest: &str,
    script: &str,
) -> Result<String, TaskFault>
    ensures text { IfOk result
        (λ text. HasReplayed (D.known disk.now) manifest.now script.now (string_bytes text)) }
    ensures fault { IfErr result
        (IsReplayRefusal (D.known disk.now) manifest.now script.now) }
{
    let replies = match replay_files(alloc, disk, manifest, script) {
        Ok(replies) => replies,
        Err(fault) => return Err(TaskFault::Replay(fault)),
    };
    match lines_of(alloc, replies.as_slice()) {
        Ok(text) => Ok(text),
        Err(_) => Err(TaskFault::Resource(ResourceFault::Memory)),
    }
}

// A line for each reply.
fn lines_of(alloc: Global, replies: &[Reply]) -> Result<String, AllocError>
    ensures { IfOk result (λ text. string_bytes text ≡ flat_map reply_line replies.now) }
{
    let mut text = String::new(alloc);
    for reply in replies {
        writeln!(text, "{reply}")?;
    }
    Ok(text)
}
