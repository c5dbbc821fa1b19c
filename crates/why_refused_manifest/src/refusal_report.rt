//! The report on a refused manifest.

ghost use Rattle.std.specs.Prelude.{◌≡◌, IfOk, IfSome};
ghost use Rattle.why_refused_manifest.specs.Further.{AreFurther};
ghost use Rattle.why_refused_manifest.specs.Reported.{ReportsFurther, ReportsOthers};
ghost use Rattle.why_refused_manifest.specs.Reported.{ReportsRefused};
ghost use Rattle.why_refused_manifest.specs.Reported.{faults_in};

use crate::later_faults::faults_after;
use crate::others::{other_duplicates, other_schema_errors};
use crate::reason::reason_of;
use crate::refused::{FaultReport, Refused};
use crate::undeclared::faults_after_array;
use declarations::ArrayDeclaration;
use load::{AppSources, LoadFault};
use manifest::{ManifestFault, Parsed};
use printing::TextBuffer;
use std::alloc::{AllocError, Global};

/// The most faults that are printed after the first.
const MOST_FURTHER: usize = 9;

/// The further faults that are printed, and how many more there are.
struct FurtherFaults {
    reported: Vec<FaultReport>,
    left_out: usize,
}

/// Where and why a manifest is refused, from what its bytes were parsed as and what was gathered,
/// and its further faults; either is left out if out of memory.
pub(crate) fn report_refused(
    alloc: Global,
    parsed: &Parsed,
    is_link: bool,
    arrays: &[ArrayDeclaration],
    apps: &[AppSources],
    unread: usize,
    fault: LoadFault,
) -> Refused
    ensures fault { result.fault ≡ fault }
    ensures reported { ReportsRefused parsed.now arrays.now apps.now unread result }
{
    let own = reason_of(alloc, parsed, is_link, arrays, apps, &fault);
    let FurtherFaults { reported, left_out } = report_others(
        alloc, parsed, is_link, arrays, apps, &fault,
    );
    let read = apps.len();
    let reason = lines_of(
        alloc,
        own.as_str(),
        reported.as_slice(),
        left_out,
        read,
        unread,
    );
    Refused {
        fault,
        reason,
        own,
        further: reported,
        left_out,
        read,
        unread,
    }
}

fn report_others(
    alloc: Global,
    parsed: &Parsed,
    is_link: bool,
    arrays: &[ArrayDeclaration],
    apps: &[AppSources],
    fault: &LoadFault,
) -> FurtherFaults
    ensures { ReportsOthers parsed.now arrays.now apps.now fault.now result.reported.items
        result.left_out }
{
    match report_further(alloc, parsed, is_link, arrays, apps, fault) {
        Ok(further) => further,
        Err(_) => FurtherFaults {
            reported: Vec::new(alloc),
            left_out: 0,
        },
    }
}

fn report_further(
    alloc: Global,
    parsed: &Parsed,
    is_link: bool,
    arrays: &[ArrayDeclaration],
    apps: &[AppSources],
    fault: &LoadFault,
) -> Result<FurtherFaults, AllocError>
    ensures { IfOk result (λ further. ReportsFurther parsed.now arrays.now apps.now fault.now
        further.reported.items further.left_out) }
{
    let Some(found) = further_faults(alloc, parsed, arrays, apps, fault) else {
        return Err(AllocError);
    };
    let mut faults = found;
    let left_out = faults.len().saturating_sub(MOST_FURTHER);
    faults.truncate(MOST_FURTHER);
    let reported = report_faults(alloc, parsed, is_link, arrays, apps, faults)?;
    Ok(FurtherFaults { reported, left_out })
}

// The faults after this one.
fn further_faults(
    alloc: Global,
    parsed: &Parsed,
    arrays: &[ArrayDeclaration],
    apps: &[AppSources],
    fault: &LoadFault,
) -> Option<Vec<LoadFault>>
    ensures { IfSome result (λ v. AreFurther parsed.now arrays.now apps.now fault.now v.items) }
{
    match fault {
        LoadFault::File { app } => faults_after(alloc, apps, *app),
        LoadFault::Program { app, .. } => faults_after(alloc, apps, *app),
        LoadFault::Rule { app, .. } => faults_after(alloc, apps, *app),
        LoadFault::Manifest(ManifestFault::Field(_)) => other_schema_errors(alloc, parsed),
        LoadFault::Manifest(ManifestFault::Duplicate(_)) => other_duplicates(alloc, parsed),
        LoadFault::Manifest(ManifestFault::Toml(_)) => Some(Vec::new(alloc)),
        LoadFault::Cells { array, .. } => faults_after_array(alloc, arrays, *array),
        LoadFault::Memory => Some(Vec::new(alloc)),
    }
}

fn report_faults(
    alloc: Global,
    parsed: &Parsed,
    is_link: bool,
    arrays: &[ArrayDeclaration],
    apps: &[AppSources],
    faults: Vec<LoadFault>,
) -> Result<Vec<FaultReport>, AllocError>
    ensures { IfOk result (λ v. faults_in v.items ≡ faults.items) }
{
    let mut all = Vec::new(alloc);
    for fault in faults {
        let reason = reason_of(alloc, parsed, is_link, arrays, apps, &fault);
        all.push(FaultReport { fault, reason })?;
    }
    Ok(all)
}

// A fault's own lines and those of the further faults, how many more there are, and after which app
// no file is read. If out of memory, only the fault's own lines, or none.
fn lines_of(
    alloc: Global,
    own: &str,
    further: &[FaultReport],
    left_out: usize,
    read: usize,
    unread: usize,
) -> String {
    let mut text = TextBuffer::new(alloc);
    text.push(own);
    for report in further {
        text.push("refused ");
        text.push_value(&report.fault);
        text.push("\n");
        text.push(report.reason.as_str());
    }
    if left_out > 0 {
        text.push_number("and ", left_out as u64, " more\n");
    }
    if unread > 0 {
        text.push_number("after app ", read as u64, " no file is read: ");
        text.push("those before that are too long have more than 64 MiB\n");
    }
    match text.finish() {
        Ok(text) => text,
        Err(_) => own_lines(alloc, own),
    }
}

fn own_lines(alloc: Global, own: &str) -> String {
    match String::from_str(alloc, own) {
        Ok(text) => text,
        Err(_) => String::new(alloc),
    }
}
