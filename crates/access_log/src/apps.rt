//! The apps of a request, as a line logs them: all if they fit, otherwise the first that fit
//! without their details. A part that doesn't fit is written, and the line is then cut back. So
//! that the buffer of a line stays small, only a few apps are written without measuring each.

ghost use Rattle.std.specs.Prelude.{◌≡◌, ◌≤◌, length, IfOk, OnOk};
ghost use Rattle.access_log.specs.Tokens.{AddsMembers, AddsElements};
ghost use Rattle.access_log.specs.Apps as specs;

use crate::app::{brief_size, write_app};
use crate::left_out::write_left_out;
use crate::line_buffer::LineBuffer;
use crate::logged_app::LoggedApp;
use crate::member::write_count;
use std::alloc::AllocError;

/// The most bytes of all apps of a line.
const APPS_LIMIT: usize = 3641;

/// The most apps that are written at once.
const FEW_APPS: usize = 16;

/// The most bytes of the member `apps` and what follows it, if no app is left out.
const ALL_LIMIT: usize = 3650;

// The first apps of a request, and the bytes for their details.
#[derive(Clone, Copy)]
struct Listed {
    count: usize,
    room: usize,
}

/// The member `apps`, if there is one, and what is left out of it.
#[tactic(auto, using(crate::proofs::Added::adds_nothing))]
pub fn write_apps(line: &mut LineBuffer, apps: &[LoggedApp<'_>]) -> Result<(), AllocError>
    ensures { OnOk result (AddsMembers line.old line.new (specs.apps_members apps.now)) }
{
    if apps.len() == 0 {
        return Ok(());
    }
    write_fitting(line, apps)
}

// All apps if they fit, otherwise as many as do.
fn write_fitting(line: &mut LineBuffer, apps: &[LoggedApp<'_>]) -> Result<(), AllocError>
    ensures { OnOk result (AddsMembers line.old line.new (specs.fitting_members apps.now)) }
{
    if apps.len() > FEW_APPS {
        return write_measured(line, apps);
    }
    let before = line.len();
    let all = Listed {
        count: apps.len(),
        room: APPS_LIMIT,
    };
    write_first(line, apps, all)?;
    if line.added_since(before) <= ALL_LIMIT {
        return Ok(());
    }
    line.cut_back(before);
    write_measured(line, apps)
}

// As many apps as fit.
fn write_measured(line: &mut LineBuffer, apps: &[LoggedApp<'_>]) -> Result<(), AllocError>
    ensures { OnOk result (AddsMembers line.old line.new
        (specs.first_apps (specs.fitting 0 3641 apps.now) apps.now)) }
{
    let listed = listed_apps(line, apps)?;
    write_first(line, apps, listed)
}

// The first apps that fit without their details. Leaves the line as it is.
fn listed_apps(line: &mut LineBuffer, apps: &[LoggedApp<'_>]) -> Result<Listed, AllocError>
    ensures line { OnOk result (line.new ≡ line.old) }
    ensures listed { IfOk result (λ listed. listed ≡ specs.fitting 0 3641 apps.now) }
    ensures within { IfOk result (λ listed. listed.count ≤ length apps.now) }
{
    let mut room = APPS_LIMIT;
    let mut count = 0;
    for app in apps {
        let size = brief_size(line, app)?;
        if room < size {
            return Ok(Listed { count, room });
        }
        room -= size;
        count += 1;
    }
    Ok(Listed { count, room })
}

// The first `listed.count` apps, and what is left out.
fn write_first(
    line: &mut LineBuffer,
    apps: &[LoggedApp<'_>],
    listed: Listed,
) -> Result<(), AllocError>
    requires { listed.count ≤ length apps.now }
    ensures { OnOk result (AddsMembers line.old line.new
        (specs.first_apps listed apps.now)) }
{
    let (first, others) = apps.split_at(listed.count);
    let more_left_out = write_list(line, first, listed.room)?;
    write_count(line, "more_left_out", more_left_out as u64)?;
    write_left_out(line, others)?;
    Ok(())
}

// Apps, with `room` bytes for their details. Returns how many lack their further members.
fn write_list(
    line: &mut LineBuffer,
    apps: &[LoggedApp<'_>],
    room: usize,
) -> Result<usize, AllocError>
    ensures text { OnOk result (AddsMembers line.old line.new (specs.list_of room apps.now)) }
    ensures more { IfOk result (λ count. count ≡ specs.more_left_out room apps.now) }
{
    line.put(b",\"apps\":[")?;
    let more_left_out = write_each(line, apps, room)?;
    line.put(b"]")?;
    Ok(more_left_out)
}

fn write_each(
    line: &mut LineBuffer,
    apps: &[LoggedApp<'_>],
    room: usize,
) -> Result<usize, AllocError>
    ensures text { OnOk result (AddsElements line.old line.new (specs.app_objects room apps.now)) }
    ensures more { IfOk result (λ count. count ≡ specs.more_left_out room apps.now) }
{
    let mut comma = false;
    let mut room = room;
    let mut more_left_out = 0;
    for app in apps {
        let left = write_app(line, comma, app, room)?;
        room = left.room;
        more_left_out += left.without_more;
        comma = true;
    }
    Ok(more_left_out)
}
