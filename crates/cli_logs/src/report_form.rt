//! How a report is printed.

ghost use Rattle.std.specs.Prelude.{IfOk};
ghost use Rattle.std.specs.String.{string_bytes};
ghost use Rattle.cli_logs.specs.Reports as specs;

use report::{MetricKind, Report, exposition_text, report_text};
use std::alloc::{AllocError, Global};

/// The form of a report.
#[derive(Clone, Copy)]
pub struct ReportForm {
    /// Whether it is in the format of Prometheus, instead of as a screen.
    pub prometheus: bool,
    /// Whether each group of a screen's rows has the heads of its columns.
    pub heads: bool,
}

/// The text of a report in this form.
pub(crate) fn text_by(
    alloc: Global,
    form: ReportForm,
    kind: MetricKind,
    report: &Report,
) -> Result<String, AllocError>
    ensures { IfOk result (λ text. specs.IsTextBy form kind report.now (string_bytes text)) }
{
    if form.prometheus {
        exposition_text(alloc, kind, report)
    } else {
        report_text(alloc, form.heads, report)
    }
}
