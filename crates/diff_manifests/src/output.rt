//! What the command `diff` prints of two manifests.

ghost use Rattle.std.specs.Prelude.{◌≡◌, IfOk, IfErr, option_copied};
ghost use Rattle.std.specs.String.{string_bytes};
ghost use Rattle.diff_manifests.specs.Counters as counters;
ghost use Rattle.diff_manifests.specs.Opened.{AreKept};
ghost use Rattle.diff_manifests.specs.Outputs as specs;

use crate::app_diff::{AppDiff, Within, diff_apps, have_app, some_lose};
use crate::arrays::{ArrayChange, array_changes};
use crate::counters::{add_declared, are_declared};
use crate::diff_fault::DiffFault;
use crate::lines::{is_same, push_diff};
use crate::objects::diff_object;
use crate::opened::OpenedBoth;
use bounded_files::ResourceFault;
use cell_assignments::CellAssignment;
use diff_space::CellBound;
use json_value::json_line;
use std::alloc::{AllocError, Global};

/// What is compared, and how it is printed: all apps or `only` one, requests from a day on, and
/// lines or a line of JSON.
#[derive(Clone, Copy)]
pub struct DiffOptions<'a> {
    pub only: Option<&'a str>,
    pub from_day: u32,
    pub json: bool,
}

/// The lines, each ended by LF, or the line of JSON; and whether a machine may lose a release.
#[derive(Drop)]
pub struct DiffOutput {
    pub text: String,
    pub loses: bool,
}

// The cells of a server, and then the given ones, as far as a manifest has them.
fn used_in(
    alloc: Global,
    both: &OpenedBoth,
    served: &[CellAssignment<'_>],
    given: &[CellAssignment<'_>],
) -> Result<Vec<CellBound>, AllocError>
    ensures { IfOk result (λ used. used.items
        ≡ counters.used_in both.now served.now given.now) }
{
    let mut used = Vec::new(alloc);
    let (old, new) = (&both.old.arrays, &both.new.arrays);
    add_declared(alloc, &mut used, old, new, served)?;
    add_declared(alloc, &mut used, old, new, given)?;
    Ok(used)
}

fn lacks_app(both: &OpenedBoth, only: Option<&str>) -> bool
    ensures { result ≡ specs.lacks_app both.now (option_copied only.entry) }
{
    match only {
        None => false,
        Some(appid) => !have_app(both, appid),
    }
}

// The line of JSON of a comparison, with the servers' names.
fn json_of(
    alloc: Global,
    old: &str,
    new: &str,
    changes: &[ArrayChange<'_>],
    diffs: &[AppDiff],
    loses: bool,
) -> Result<String, AllocError>
    ensures { IfOk result (λ text. string_bytes text ≡ specs.json_of old.now new.now changes.now
        diffs.now loses) }
{
    let same = is_same(old, new, changes, diffs);
    let value = diff_object(alloc, (old, new), changes, diffs, loses, same)?;
    let line = json_line(alloc, &value);
    drop(value);
    Ok(line?)
}

// The text of a comparison.
fn text_of(
    alloc: Global,
    both: &OpenedBoth,
    changes: &[ArrayChange<'_>],
    diffs: &[AppDiff],
    options: &DiffOptions<'_>,
    loses: bool,
) -> Result<String, AllocError>
    ensures { IfOk result (λ text. specs.IsTextOf options.now.json both.now.old.server
        both.now.new.server changes.now diffs.now loses (string_bytes text)) }
{
    let (old, new) = (both.old.server.as_str(), both.new.server.as_str());
    if options.json {
        return json_of(alloc, old, new, changes, diffs, loses);
    }
    let one = options.only.is_some();
    let mut text = String::new(alloc);
    push_diff(&mut text, (old, new), changes, one, diffs)?;
    Ok(text)
}

// The output, with these cells as bounds.
fn output_of(
    alloc: Global,
    both: &OpenedBoth,
    used: &[CellBound],
    options: &DiffOptions<'_>,
) -> Result<DiffOutput, AllocError>
    requires { AreKept both.now }
    ensures { IfOk result (specs.IsOutputOf both.now used.now options.now) }
{
    let changes = array_changes(alloc, &both.old.arrays, &both.new.arrays)?;
    let within = Within {
        from_day: options.from_day,
        used,
    };
    let diffs = diff_apps(alloc, both, &within, options.only)?;
    let loses = some_lose(&diffs) || !changes.is_empty();
    let text = text_of(alloc, both, &changes, &diffs, options, loses);
    drop(diffs);
    Ok(DiffOutput { text: text?, loses })
}

/// What is printed for two manifests. `served` are the cells of a server, and `given` those of the
/// command line; the last value of a cell counts.
///
/// Returns the first fault in this order:
///
/// - B8 if neither manifest has the app `only`;
/// - B7 if neither has one of the given cells.
///
/// Returns B4 if an allocation fails.
// open: whether an allocation fails; which apps aren't compared; the order of rows, and which days
// are named; how the lines look: rows.
pub fn diff_manifests(
    alloc: Global,
    both: &OpenedBoth,
    served: &[CellAssignment<'_>],
    given: &[CellAssignment<'_>],
    options: &DiffOptions<'_>,
) -> Result<DiffOutput, DiffFault>
    requires { AreKept both.now }
    ensures output { IfOk result
        (specs.IsDiffOutput both.now served.now given.now options.now) }
    ensures fault { IfErr result (specs.IsDiffFault both.now given.now options.now) }
{
    if lacks_app(both, options.only) {
        return Err(DiffFault::NoApp);
    }
    if !are_declared(&both.old.arrays, &both.new.arrays, given) {
        return Err(DiffFault::Cell);
    }
    let Ok(used) = used_in(alloc, both, served, given) else {
        return Err(DiffFault::Resource(ResourceFault::Memory));
    };
    match output_of(alloc, both, &used, options) {
        Ok(output) => Ok(output),
        Err(_) => Err(DiffFault::Resource(ResourceFault::Memory)),
    }
}
