//! The events that the lines of a script request, in order: that of a swap line has the ruleset of
//! its manifest.

ghost use Rattle.std.specs.Prelude.{◌≡◌, IfOk, IfErr, OnOk};
ghost use Rattle.std.specs.Arc.{arc_value};
ghost use Rattle.attrs.specs.Attributes.{plain};
ghost use Rattle.replay.specs.LineEvents.{AreEventsOf, IsEventOf, RefusesLine, RefusesLines};
ghost use Rattle.replay.specs.Loaded.{AreShared};

use crate::replay_fault::ReplayFault;
use crate::shared::SharedLoads;
use attrs::{Attrs, Bucket, Text};
use bounded_files::ResourceFault;
use cells::Directory;
use event_script::EventLine;
use load::Disk;
use std::alloc::{AllocError, Global};
use std::sync::Arc;
use world::Event;

/// The events of all lines, in order, one for each line.
pub(crate) fn events_of<D: Disk>(
    alloc: Global,
    disk: &D,
    lines: &[EventLine],
    directory: &mut Directory,
) -> Result<Vec<Event>, ReplayFault>
    ensures events { IfOk result (λ events.
        AreEventsOf (D.known disk.now) lines.now directory.old events.items directory.new) }
    ensures fault { IfErr result (RefusesLines (D.known disk.now) lines.now directory.old) }
{
    let mut events = Vec::new(alloc);
    let mut shared = SharedLoads::new(alloc);
    for line in lines {
        let event = event_of(alloc, disk, line, &mut shared, directory)?;
        let Ok(()) = events.push(event) else {
            return Err(ReplayFault::Resource(ResourceFault::Memory));
        };
    }
    Ok(events)
}

// The event of a line. An app has its appid, bucket and version, and no other attribute; a swap has
// the ruleset of its manifest, whose arrays are declared in the directory.
fn event_of<D: Disk>(
    alloc: Global,
    disk: &D,
    line: &EventLine,
    shared: &mut SharedLoads,
    directory: &mut Directory,
) -> Result<Event, ReplayFault>
    requires { AreShared (D.known disk.now) directory.old shared.old.loads.items }
    ensures event { IfOk result (λ event.
        IsEventOf (D.known disk.now) line.now directory.old event directory.new) }
    ensures fault { IfErr result (RefusesLine (D.known disk.now) line.now directory.old) }
    ensures shared { OnOk result
        (AreShared (D.known disk.now) directory.new shared.new.loads.items) }
{
    match line {
        EventLine::Start {
            worker,
            appid,
            bucket,
            version,
        } => match plain_attrs(alloc, appid, version, *bucket) {
            Ok(attrs) => Ok(Event::Start {
                worker: *worker as usize,
                attrs,
            }),
            Err(_) => Err(ReplayFault::Resource(ResourceFault::Memory)),
        },
        EventLine::Step { worker, .. } => Ok(Event::Step {
            worker: *worker as usize,
        }),
        EventLine::Finish { worker } => Ok(Event::Finish {
            worker: *worker as usize,
        }),
        EventLine::Swap { manifest } => {
            let rules = shared.rules_of(alloc, disk, manifest.as_str(), directory)?;
            Ok(Event::Swap { rules })
        }
    }
}

// The attributes of an app.
fn plain_attrs(
    alloc: Global,
    appid: &Text,
    version: &Option<Text>,
    bucket: Bucket,
) -> Result<Arc<Attrs>, AllocError>
    ensures { IfOk result (λ a. arc_value a ≡ plain appid.now version.now bucket) }
{
    let version = match version {
        Some(text) => Some(text.as_str()),
        None => None,
    };
    let Ok(attrs) = Attrs::plain(alloc, appid.as_str(), version, bucket.number()) else {
        return Err(AllocError);
    };
    match Arc::new(alloc, attrs) {
        Ok(attrs) => Ok(attrs),
        Err(_) => Err(AllocError),
    }
}
