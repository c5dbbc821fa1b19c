//! A metric in the text format of Prometheus: its help, its type and its samples.

ghost use Rattle.std.specs.Prelude.{◌≡◌, ◌++◌, OnOk, map};
ghost use Rattle.report.specs.Exposition as specs;
ghost use Rattle.printing.specs.Pushed.{Puts};

use crate::labels::{push_label, push_labels};
use crate::question::Question;
use crate::tally::Tally;
use std::alloc::AllocError;
use std::collections::BTreeMap;
use std::fmt::Write;

/// What the counts of a report are to Prometheus.
#[derive(Clone, Copy)]
pub enum MetricKind {
    /// They only go up, since no line is left out. The name ends in `_total`.
    Counter,
    /// They go up and down, as those of a window of time.
    Gauge,
}

/// Appends a table's metric, if it has one, with a sample for each row.
#[tactic(auto, unfolding(crate::specs::Exposition::metric_text))]
pub(crate) fn push_metric(
    text: &mut String,
    kind: MetricKind,
    question: Question,
    tally: &Tally,
) -> Result<(), AllocError>
    ensures { OnOk result (Puts text.old text.new
        (specs.metric_text kind question tally.now)) }
{
    let metric = question.metric();
    if metric.is_empty() {
        return Ok(());
    }
    push_head(text, kind, metric, question.help())?;
    push_samples(text, kind, metric, question.labels(), &tally.rows)?;
    push_other_sample(text, kind, metric, tally.others)?;
    Ok(())
}

/// Appends a metric with one number.
#[tactic(auto, unfolding(crate::specs::Exposition::number_metric))]
pub(crate) fn push_number(
    text: &mut String,
    kind: MetricKind,
    metric: &str,
    help: &str,
    n: u64,
) -> Result<(), AllocError>
    ensures { OnOk result (Puts text.old text.new
        (specs.number_metric kind metric.now help.now n)) }
{
    push_head(text, kind, metric, help)?;
    push_name(text, kind, metric, " ")?;
    write!(text, "{n}\n")
}

/// Appends a metric in seconds with one number, which is given in microseconds.
#[tactic(auto, unfolding(crate::specs::Exposition::seconds_metric))]
pub(crate) fn push_seconds(
    text: &mut String,
    kind: MetricKind,
    metric: &str,
    help: &str,
    microseconds: u64,
) -> Result<(), AllocError>
    ensures { OnOk result (Puts text.old text.new
        (specs.seconds_metric kind metric.now help.now microseconds)) }
{
    push_head(text, kind, metric, help)?;
    push_name(text, kind, metric, " ")?;
    write!(text, "{microseconds}e-6\n")
}

/// Appends the name of a metric, and a text after it.
#[tactic(auto, unfolding(crate::specs::Exposition::metric_name))]
pub(crate) fn push_name(
    text: &mut String,
    kind: MetricKind,
    metric: &str,
    after: &str,
) -> Result<(), AllocError>
    ensures { OnOk result (Puts text.old text.new
        (specs.metric_name kind metric.now ++ after.now)) }
{
    let suffix = suffix_of(kind);
    write!(text, "{metric}{suffix}{after}")
}

fn suffix_of(kind: MetricKind) -> &'static str
    ensures { result.now ≡ specs.suffix_of kind }
{
    match kind {
        MetricKind::Counter => "_total",
        MetricKind::Gauge => "",
    }
}

fn type_of(kind: MetricKind) -> &'static str
    ensures { result.now ≡ specs.type_of kind }
{
    match kind {
        MetricKind::Counter => "counter",
        MetricKind::Gauge => "gauge",
    }
}

/// Appends the help and the type of a metric.
#[tactic(auto, unfolding(crate::specs::Exposition::metric_name))]
pub(crate) fn push_head(
    text: &mut String,
    kind: MetricKind,
    metric: &str,
    help: &str,
) -> Result<(), AllocError>
    ensures { OnOk result (Puts text.old text.new (specs.head kind metric.now help.now)) }
{
    let suffix = suffix_of(kind);
    let type_name = type_of(kind);
    write!(text, "# HELP {metric}{suffix} {help}\n")?;
    write!(text, "# TYPE {metric}{suffix} {type_name}\n")
}

#[tactic(auto, using(crate::proofs::Written::one_further, crate::proofs::Written::at_end))]
fn push_samples(
    text: &mut String,
    kind: MetricKind,
    metric: &str,
    labels: &[&str],
    rows: &BTreeMap<String, u64>,
) -> Result<(), AllocError>
    ensures { OnOk result (Puts text.old text.new
        (specs.samples kind metric.now (map (λ c. c.now) labels.now) rows.now.entries)) }
{
    for (name, n) in rows.iter() {
        push_sample(text, kind, metric, labels, name.as_str(), *n)?;
    }
    Ok(())
}

fn push_sample(
    text: &mut String,
    kind: MetricKind,
    metric: &str,
    labels: &[&str],
    name: &str,
    n: u64,
) -> Result<(), AllocError>
    ensures { OnOk result (Puts text.old text.new
        (specs.sample kind metric.now
        (specs.labels_text (map (λ c. c.now) labels.now) name.now) n)) }
{
    push_name(text, kind, metric, "{")?;
    push_labels(text, labels, name)?;
    write!(text, "}} {n}\n")
}

// The sample of the names without a row, if there are any.
fn push_other_sample(
    text: &mut String,
    kind: MetricKind,
    metric: &str,
    others: u64,
) -> Result<(), AllocError>
    ensures { OnOk result (Puts text.old text.new (specs.other_sample kind metric.now others)) }
{
    if others == 0 {
        return Ok(());
    }
    push_name(text, kind, metric, "{")?;
    push_label(text, "others", "true")?;
    write!(text, "}} {others}\n")
}
