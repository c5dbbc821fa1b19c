//! A whole replay, from two paths.

ghost use Rattle.std.specs.Prelude.{IfOk, IfErr};
ghost use Rattle.std.specs.Arc.{arc_value};
ghost use Rattle.world.specs.World.{opening_world};
ghost use Rattle.replay.specs.Played.{AreRepliesTo};
ghost use Rattle.replay.specs.Replays.{AreLinesOf, RefusesScript, IsReplay, IsReplayFault};

use crate::line_events::events_of;
use crate::loaded::load_rules;
use crate::played::play_lines;
use crate::replay_fault::ReplayFault;
use crate::reply::Reply;
use bounded_files::{Disk, MOST_BYTES, ResourceFault, read_within};
use cells::Directory;
use event_script::{EventLine, ScriptFault, read_script};
use ruleset::Ruleset;
use std::alloc::{AllocError, Global};
use std::sync::Arc;
use world::{Event, World};

/// The replies to the lines of a script, in order, in a world of 64 workers whose first ruleset is
/// the manifest's. Both are paths, as is the manifest of a swap line; relative paths are relative
/// to the working folder, and the files that a manifest names are relative to that manifest's
/// folder.
///
/// Returns the first fault in this order:
///
/// - B3 of a script that can't be read, or is longer than 16 MiB;
/// - B2 of its first malformed line;
/// - B3 of the manifest, or M1 to M7 of its load;
/// - the same for the manifests of the swap lines, one by one.
///
/// After a fault no line was played. Returns B4, or M8 in a load, if an allocation fails.
// open: whether an allocation fails; what a device's files contain.
pub fn replay_files<D: Disk>(
    alloc: Global,
    disk: &D,
    manifest: &str,
    script: &str,
) -> Result<Vec<Reply>, ReplayFault>
    ensures replies { IfOk result (λ replies.
        IsReplay (D.known disk.now) manifest.now script.now replies.items) }
    ensures fault { IfErr result (IsReplayFault (D.known disk.now) manifest.now script.now) }
{
    let lines = read_lines(alloc, disk, script)?;
    let mut directory = Directory::new(alloc);
    let first = load_rules(alloc, disk, manifest, &mut directory)?;
    let events = events_of(alloc, disk, &lines, &mut directory)?;
    match play_from(alloc, first, &lines, &events) {
        Ok(replies) => Ok(replies),
        Err(_) => Err(ReplayFault::Resource(ResourceFault::Memory)),
    }
}

// The lines of the script at a path.
fn read_lines<D: Disk>(alloc: Global, disk: &D, path: &str) -> Result<Vec<EventLine>, ReplayFault>
    ensures lines { IfOk result (λ lines. AreLinesOf (D.known disk.now) path.now lines.items) }
    ensures fault { IfErr result (RefusesScript (D.known disk.now) path.now) }
{
    let bytes = match read_within(disk, path, MOST_BYTES) {
        Ok(bytes) => bytes,
        Err(fault) => return Err(ReplayFault::Resource(fault)),
    };
    match read_script(alloc, &bytes) {
        Ok(lines) => Ok(lines),
        Err(ScriptFault::Memory) => Err(ReplayFault::Resource(ResourceFault::Memory)),
        Err(fault) => Err(ReplayFault::Script(fault)),
    }
}

// The replies to the lines, from the initial state of a server with 64 workers.
fn play_from(
    alloc: Global,
    first: Arc<Ruleset>,
    lines: &[EventLine],
    events: &[Event],
) -> Result<Vec<Reply>, AllocError>
    ensures { IfOk result (λ replies.
        AreRepliesTo (opening_world (arc_value first) 64) lines.now events.now replies.items) }
{
    let Ok(mut world) = World::new(alloc, 64, first) else {
        return Err(AllocError);
    };
    match play_lines(alloc, &mut world, lines, events) {
        Ok(replies) => Ok(replies),
        Err(_) => Err(AllocError),
    }
}
