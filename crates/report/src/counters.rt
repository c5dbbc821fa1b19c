//! The counters of a server, printed after a report on its log.

ghost use Rattle.std.specs.Prelude.{◌≡◌, IfOk, OnOk, true};
ghost use Rattle.std.specs.String.{string_bytes};
ghost use Rattle.printing.specs.Pushed.{Puts};
ghost use Rattle.report.specs.Counters as specs;

use crate::labels::push_label;
use crate::metrics::{MetricKind, push_head, push_name};
use crate::rows::push_title;
use cell_assignments::CellAssignment;
use printing::TextBuffer;
use std::alloc::{AllocError, Global};
use std::fmt::Write;

/// The metric of the counters.
const METRIC: &str = "rollout_counter_value";

/// The text of a server's counters, in the text format of Prometheus or as a group of a screen's
/// rows, with the heads of its columns or without. It is empty without counters.
// open: whether an allocation fails, its only error; the rows of a screen: rows.
pub fn counters_text(
    alloc: Global,
    prometheus: bool,
    heads: bool,
    counters: &[CellAssignment<'_>],
) -> Result<String, AllocError>
    ensures { IfOk result (λ text. prometheus ≡ true
        → string_bytes text ≡ specs.counters_exposition counters.now) }
{
    if prometheus {
        exposition_of(alloc, counters)
    } else {
        screen_of(alloc, heads, counters)
    }
}

// The rows of a screen.
fn screen_of(
    alloc: Global,
    heads: bool,
    counters: &[CellAssignment<'_>],
) -> Result<String, AllocError> {
    let mut text = TextBuffer::new(alloc);
    if !counters.is_empty() {
        push_title(&mut text, heads, "counters", &["counter"]);
    }
    for counter in counters {
        text.push_number("", counter.value(), "\t");
        text.push(counter.array());
        text.push_number("[", counter.index() as u64, "]\n");
    }
    text.finish()
}

fn exposition_of(alloc: Global, counters: &[CellAssignment<'_>]) -> Result<String, AllocError>
    ensures { IfOk result (λ text. string_bytes text ≡ specs.counters_exposition counters.now) }
{
    let mut text = String::new(alloc);
    if counters.is_empty() {
        return Ok(text);
    }
    let help = "Values of the server's counters.";
    push_head(&mut text, MetricKind::Gauge, METRIC, help)?;
    push_samples(&mut text, counters)?;
    Ok(text)
}

#[tactic(auto, using(crate::proofs::Written::one_further, crate::proofs::Written::at_end))]
fn push_samples(text: &mut String, counters: &[CellAssignment<'_>]) -> Result<(), AllocError>
    ensures { OnOk result (Puts text.old text.new (specs.counter_samples counters.now)) }
{
    let mut rest = counters;
    while let [counter, more @ ..] = rest {
        push_sample(text, counter)?;
        rest = more;
    }
    Ok(())
}

fn push_sample(text: &mut String, counter: &CellAssignment<'_>) -> Result<(), AllocError>
    ensures { OnOk result (Puts text.old text.new (specs.counter_sample counter.now)) }
{
    push_name(text, MetricKind::Gauge, METRIC, "{")?;
    push_counter_labels(text, counter)?;
    let value = counter.value();
    write!(text, "}} {value}\n")
}

fn push_counter_labels(text: &mut String, counter: &CellAssignment<'_>) -> Result<(), AllocError>
    ensures { OnOk result (Puts text.old text.new (specs.counter_labels counter.now)) }
{
    push_label(text, "array", counter.array())?;
    let index = counter.index();
    write!(text, ",index=\"{index}\"")
}
