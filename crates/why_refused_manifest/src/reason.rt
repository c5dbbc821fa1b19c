//! Where and why a manifest is refused. No clause says the words; rows compare them.

use crate::advice::advice;
use crate::file::push_file_reason;
use crate::shown::FaultPlace;
use acceptance::{ProgramFault, RuleTextFault};
use bpf_verify::Refusal;
use cells::CellsFault;
use declarations::ArrayDeclaration;
use flow_check::FlowFault;
use load::{AppSources, LoadFault};
use manifest::{ManifestFault, Parsed, TomlFault};
use printing::{PrintedLines, TextBuffer};
use rule_lang::RuleFault;
use std::alloc::Global;

/// The lines that explain a refusal; none if an allocation for them fails.
pub(crate) fn reason_of(
    alloc: Global,
    parsed: &Parsed,
    is_link: bool,
    arrays: &[ArrayDeclaration],
    apps: &[AppSources],
    fault: &LoadFault,
) -> String {
    let mut text = TextBuffer::new(alloc);
    match fault {
        LoadFault::Manifest(fault) => push_manifest_reason(
            alloc, &mut text, parsed, is_link, fault,
        ),
        LoadFault::File { app } => push_file_reason(
            alloc,
            &mut text,
            apps,
            *app,
            FaultPlace::Whole,
        ),
        LoadFault::Program { app, fault } => {
            push_file_reason(alloc, &mut text, apps, *app, slot_of(fault))
        }
        LoadFault::Rule { app, fault } => {
            push_file_reason(alloc, &mut text, apps, *app, rule_place(fault))
        }
        LoadFault::Cells { array, fault } => push_cells_reason(&mut text, arrays, *array, *fault),
        LoadFault::Memory => {}
    }
    match text.finish() {
        Ok(text) => text,
        Err(_) => String::new(alloc),
    }
}

// What is wrong with a manifest itself.
fn push_manifest_reason(
    alloc: Global,
    text: &mut TextBuffer,
    parsed: &Parsed,
    is_link: bool,
    fault: &ManifestFault,
) {
    match fault {
        ManifestFault::Toml(TomlFault::TooLong) => text.push("more than 1048576 bytes\n"),
        ManifestFault::Toml(TomlFault::Text) => push_toml_reason(alloc, text, parsed, is_link),
        ManifestFault::Field(schema_error) => {
            text.push_value(schema_error);
            text.push("\n");
            text.push(advice(schema_error));
        }
        ManifestFault::Duplicate(duplicate) => {
            text.push_value(duplicate);
            text.push(" occurs twice\n");
        }
    }
}

// The error of the TOML reader, and how the tables of a manifest begin: for a list that begins
// otherwise, the reader mostly names another line. The error keeps its line ends and quotes the
// manifest: so its lines are printed as untrusted text, and none if the manifest is a symbolic
// link.
fn push_toml_reason(alloc: Global, text: &mut TextBuffer, parsed: &Parsed, is_link: bool) {
    if !is_link {
        let Parsed::Error(error) = parsed else {
            text.leave_out();
            return;
        };
        match format!(in alloc; "{error}") {
            Ok(error) => text.push_value(&PrintedLines(error.as_str())),
            Err(_) => text.leave_out(),
        }
    }
    text.push("tables begin with [[array]], [[app]], [[app.release]] or [[app.release.package]]\n");
}

fn slot_of(fault: &ProgramFault) -> FaultPlace {
    match fault {
        ProgramFault::Flow(FlowFault::Rule { slot, .. }) => FaultPlace::Slot(*slot),
        ProgramFault::Verify(Refusal::Rule { slot, .. }) => FaultPlace::Refused(*slot),
        _ => FaultPlace::Whole,
    }
}

fn rule_place(fault: &RuleTextFault) -> FaultPlace {
    match fault {
        RuleTextFault::Text(RuleFault::At { line, kind }) => FaultPlace::Rule(*line, *kind),
        _ => FaultPlace::Whole,
    }
}

// The array with this number, if too few cells are left for it; over no arrays, arrays have no
// other fault.
fn push_cells_reason(
    text: &mut TextBuffer,
    arrays: &[ArrayDeclaration],
    number: usize,
    fault: CellsFault,
) {
    match (fault, arrays.get(number.saturating_sub(1))) {
        (CellsFault::CellsFull, Some(array)) => {
            text.push_number("array[", number as u64, "].length: ");
            text.push(array.name());
            text.push(" passes the 4096 cells that all arrays of a width have\n");
        }
        _ => {}
    }
}
