//! `report --state`: a report that continues the last one.

ghost use Rattle.std.specs.Prelude.{IfOk, is_some, length};
ghost use Rattle.cli_logs.specs.Continued.{HasContinued};

use crate::drawing::Drawn;
use crate::further_counts::{Continued, continued_from};
use crate::named_page::{NamedPage, path_if};
use crate::page_file::require_page;
use crate::picture_file::{require_drawable, write_if};
use crate::report_fault::ReportFault;
use crate::report_form::ReportForm;
use crate::reporting::ReportOutput;
use crate::state_file::{begun_state, bytes_of, found_state, lock_state};
use std::fs::File;
use std::rt::Files;
use std::time::Clock;

/// The report on all lines of the logs that this call and those before it counted, in this form.
/// The file `state` says what was counted. It is replaced before the report is returned, unless
/// nothing is new. If it is empty or doesn't exist, the logs are read from their first line. If the
/// call is refused, the file stays as it is, or stays absent.
///
/// A log is known by its first 256 bytes, whatever its path is. The state also keeps the logs that
/// this call leaves out, up to 1000 in all, so a later call continues them. A last line without its
/// line feed is left for the next call, and so is a log with only the first lines of a known one.
///
/// The picture and the page are written before the state. They have the course that the state
/// keeps: at most 200 minutes and 200 hours. The first call that names a picture or a page begins
/// it, and each later one continues it.
///
/// Returns B3 if a log can't be read or isn't a regular file, if the state, the picture or the page
/// can't be read or written, and if the picture or the page would overwrite another kind of file;
/// B4 if an allocation fails; B9 if the file isn't a state; B10 if another call has it.
// open: whether an allocation fails; which part of each log is counted; that the files have the new
// state, the picture and the page: rows, and `bench/outside`.
#[tactic(auto, using(crate::proofs::Continued::has_continued))]
pub fn report_on_state<R>(
    rt: &R,
    logs: &[&str],
    state: &str,
    form: ReportForm,
    picture: Option<&str>,
    page: Option<NamedPage<'_>>,
) -> Result<ReportOutput, ReportFault>
where
    R: Files<File = File> + AllocGlobal + Clock + Eprint,
    ensures { IfOk result (HasContinued (length logs.now) form (is_some picture.entry)
        (is_some page.entry)) }
{
    let lock = lock_state(rt, state)?;
    let output = continue_state(rt, logs, state, form, picture, page);
    lock.release(rt, state, output.is_ok());
    output
}

// Continues the counts of a locked state.
#[tactic(auto, using(crate::proofs::Continued::has_continued))]
fn continue_state<R>(
    rt: &R,
    logs: &[&str],
    state: &str,
    form: ReportForm,
    picture: Option<&str>,
    page: Option<NamedPage<'_>>,
) -> Result<ReportOutput, ReportFault>
where
    R: Files<File = File> + AllocGlobal + Clock + Eprint,
    ensures { IfOk result (HasContinued (length logs.now) form (is_some picture.entry)
        (is_some page.entry)) }
{
    require_files(rt, logs, state, picture, path_if(page))?;
    let drawn = Drawn {
        picture: picture.is_some(),
        page: page.is_some(),
    };
    let found = found_state(rt, state)?;
    let known = bytes_of(&found);
    let begun = begun_state(rt.alloc(), known)?;
    let Continued { output, kept } = continued_from(rt, logs, form, drawn, page, known, begun)?;
    write_all(rt, state, &kept, picture, path_if(page), &output)?;
    Ok(output)
}

// Refuses a picture and a page that would overwrite another kind of file, or the state.
fn require_files<R: Files + AllocGlobal>(
    rt: &R,
    logs: &[&str],
    state: &str,
    picture: Option<&str>,
    page: Option<&str>,
) -> Result<(), ReportFault> {
    let states = [state];
    require_drawable(rt, &states, picture).map_err(ReportFault::Resource)?;
    require_page(rt, &states, page).map_err(ReportFault::Resource)?;
    require_drawable(rt, logs, picture).map_err(ReportFault::Resource)?;
    require_page(rt, logs, page).map_err(ReportFault::Resource)
}

// Writes the picture and the page, and then the state. If one can't be written, the state stays.
fn write_all<R: Files<File = File> + AllocGlobal>(
    rt: &R,
    state: &str,
    kept: &Option<String>,
    picture: Option<&str>,
    page: Option<&str>,
    output: &ReportOutput,
) -> Result<(), ReportFault> {
    write_if(rt, picture, &output.picture).map_err(ReportFault::Resource)?;
    write_if(rt, page, &output.page).map_err(ReportFault::Resource)?;
    write_if(rt, Some(state), kept).map_err(ReportFault::Resource)
}
