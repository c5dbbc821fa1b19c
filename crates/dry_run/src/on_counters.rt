//! The reply to a body on counters with given values.

ghost use Rattle.std.specs.Prelude.{IfOk, IfErr};
ghost use Rattle.dry_run.specs.Counters.{AreAssigned};
ghost use Rattle.dry_run.specs.OnCounters as specs;

use crate::counters::{set_cells, set_declared, zero_counters};
use crate::dry_run_fault::DryRunFault;
use crate::files::OpenedFiles;
use crate::reply::find_reply;
use attrs::Moment;
use bounded_files::ResourceFault;
use cell_assignments::CellAssignment;
use cells::{CellArray, PlainPass};
use std::alloc::Global;

/// The text of the reply to a body at a moment. Counters are 0, except for those in `served` that
/// belong to arrays of the manifest, and then for those in `words`. Returns B7 if the manifest
/// lacks a cell of `words`, or a value doesn't fit; then O1 to O4. Returns B4 or O5 if an
/// allocation fails.
// open: whether an allocation fails (B4, O5).
pub fn reply_on_counters(
    alloc: Global,
    opened: &OpenedFiles,
    moment: &Moment,
    served: &[CellAssignment<'_>],
    words: &[CellAssignment<'_>],
) -> Result<Vec<u8>, DryRunFault>
    ensures replies { IfOk result (λ text. specs.RepliesOnCounters opened.now.rules
        opened.now.directory opened.now.body.items moment.now served.now words.now text.items) }
    ensures fault { IfErr result (specs.IsUnanswered opened.now.directory opened.now.body.items
        served.now words.now) }
{
    let mut counters = assigned_counters(alloc, opened.directory.arrays(), served, words)?;
    match find_reply(alloc, &opened.rules, moment, &opened.body, &mut counters) {
        Ok(text) => Ok(text),
        Err(fault) => Err(DryRunFault::Omaha(fault)),
    }
}

/// Counters that are 0, except for those in `served` that belong to the arrays, and then for those
/// in `words`. Returns B7 if the arrays lack a cell of `words`, or its value doesn't fit.
// open: whether an allocation fails (B4).
pub fn assigned_counters(
    alloc: Global,
    arrays: &[CellArray],
    served: &[CellAssignment<'_>],
    words: &[CellAssignment<'_>],
) -> Result<PlainPass, DryRunFault>
    ensures shown_text { IfOk result
        (λ counters. AreAssigned arrays.now served.now words.now counters) }
    ensures fault { IfErr result (specs.IsUnassignable arrays.now served.now words.now) }
{
    let Ok(mut counters) = zero_counters(alloc) else {
        return Err(DryRunFault::Resource(ResourceFault::Memory));
    };
    set_declared(arrays, &mut counters, served);
    if set_cells(arrays, &mut counters, words) {
        Ok(counters)
    } else {
        Err(DryRunFault::Cell)
    }
}
