//! The explanation of the lines that were found, as it is printed.

ghost use Rattle.std.specs.Prelude.{All, IfErr, IfOk, string_bytes};
ghost use Rattle.dry_run.specs.Meanings.{IsMeantApp};
ghost use Rattle.dry_run.specs.OnCounters.{IsUnassignable};
ghost use Rattle.printing.specs.Printed.{is_control_in_line};
ghost use Rattle.std.specs.Str.{NoCharPasses};
ghost use Rattle.why_log.specs.Explained as specs;

use crate::explained_line::explain_line;
use crate::finding::{FoundLine, FoundLines};
use bounded_files::ResourceFault;
use cell_assignments::CellAssignment;
use dry_run::{DryRunFault, assigned_counters};
use load::JudgedManifest;
use printing::{PrintedLines, no_control_is_printed};
use std::alloc::{AllocError, Global};
use std::fmt::Write;

/// Why the found requests got what they got, the oldest first. Each is explained by the manifest,
/// at the moment of its line, on the counters of `reply_on_counters`. If none was found, a line
/// says so. Returns B7 if the manifest lacks a cell of `words`, or a value doesn't fit; and B4 if
/// an allocation fails.
// open: whether an allocation fails (B4); the words around the lines of a rule: rows.
#[tactic(auto, using(crate::proofs::Whole::explanation_is))]
pub fn explain_found(
    alloc: Global,
    manifest: &JudgedManifest,
    served: &[CellAssignment<'_>],
    words: &[CellAssignment<'_>],
    found: &FoundLines,
) -> Result<String, DryRunFault>
    requires { All IsMeantApp manifest.now.apps.items }
    ensures lines { IfOk result (λ text. specs.IsExplanation manifest.now served.now words.now
        found.now.lines.items (string_bytes text)) }
    // No control character but tabs and line feeds.
    ensures plain { IfOk result (λ text. NoCharPasses is_control_in_line (string_bytes text)) }
    ensures fault { IfErr result
        (IsUnassignable manifest.now.directory served.now words.now) }
{
    no_control_is_printed();
    let _counters = assigned_counters(alloc, manifest.directory.arrays(), served, words)?;
    let Ok(digest) = hex::encode(alloc, manifest.digest) else {
        return Err(DryRunFault::Resource(ResourceFault::Memory));
    };
    let lines = found.lines.as_slice();
    let text = explain_lines(alloc, manifest, digest.as_str(), served, words, lines)?;
    match printed(alloc, first_line(lines), text.as_str()) {
        Ok(text) => Ok(text),
        Err(_) => Err(DryRunFault::Resource(ResourceFault::Memory)),
    }
}

fn first_line(lines: &[FoundLine]) -> &'static str {
    if lines.is_empty() {
        "no request of this machine is in the log\n"
    } else {
        ""
    }
}

// The lines of each, one after another.
fn explain_lines(
    alloc: Global,
    manifest: &JudgedManifest,
    digest: &str,
    served: &[CellAssignment<'_>],
    words: &[CellAssignment<'_>],
    lines: &[FoundLine],
) -> Result<String, DryRunFault>
    requires { All IsMeantApp manifest.now.apps.items }
    ensures lines { IfOk result (λ text. specs.ExplainsLines manifest.now served.now words.now
        lines.now (string_bytes text)) }
    ensures fault { IfErr result
        (IsUnassignable manifest.now.directory served.now words.now) }
{
    let mut text = String::new(alloc);
    let mut left = lines;
    while let [line, others @ ..] = left {
        let one = explain_line(alloc, manifest, digest, served, words, line)?;
        let Ok(()) = text.push_str(one.as_str()) else {
            return Err(DryRunFault::Resource(ResourceFault::Memory));
        };
        left = others;
    }
    Ok(text)
}

fn printed(alloc: Global, before: &str, text: &str) -> Result<String, AllocError>
    ensures { IfOk result (λ printed. specs.IsPrintedAfter before.now text.now
        (string_bytes printed)) }
{
    let mut all = String::from_str(alloc, before)?;
    all.push_str(text)?;
    let shown = PrintedLines(all.as_str());
    let mut out = String::new(alloc);
    write!(out, "{shown}")?;
    Ok(out)
}
