//! A report in the text format of Prometheus.

ghost use Rattle.std.specs.Prelude.{◌≡◌, IfOk, OnOk};
ghost use Rattle.std.specs.String.{string_bytes};
ghost use Rattle.report.specs.Exposition as specs;
ghost use Rattle.printing.specs.Pushed.{Puts};

use crate::counting::Report;
use crate::metrics::{MetricKind, push_metric, push_number, push_seconds};
use crate::question::{LineQuestion, QUESTIONS, Question};
use crate::tally::Tally;
use std::alloc::{AllocError, Global};

/// The counts of a report in the text format of Prometheus, version 0.0.4, as metrics of this kind.
/// Hours, buckets and loads are left out.
pub fn exposition_text(
    alloc: Global,
    kind: MetricKind,
    report: &Report,
) -> Result<String, AllocError>
    ensures { IfOk result (λ s. string_bytes s ≡ specs.exposition kind report.now) }
{
    let mut text = String::new(alloc);
    push_metrics(
        &mut text,
        kind,
        report,
        &QUESTIONS,
        report.tallies.as_slice(),
    )?;
    Ok(text)
}

#[tactic(auto, using(crate::proofs::Written::one_further, crate::proofs::Written::at_end))]
fn push_metrics(
    text: &mut String,
    kind: MetricKind,
    report: &Report,
    questions: &[Question],
    tallies: &[Tally],
) -> Result<(), AllocError>
    ensures { OnOk result (Puts text.old text.new
        (specs.metrics kind report.now questions.now tallies.now)) }
{
    let mut asked = questions;
    let mut left = tallies;
    while let [question, more @ ..] = asked {
        let [tally, rest @ ..] = left else {
            return Ok(());
        };
        push_metric(text, kind, *question, tally)?;
        push_numbers_after(text, kind, *question, report)?;
        asked = more;
        left = rest;
    }
    Ok(())
}

// The numbers of lines come after the lines by kind, and the longest wait after the replies.
fn push_numbers_after(
    text: &mut String,
    kind: MetricKind,
    question: Question,
    report: &Report,
) -> Result<(), AllocError>
    ensures { OnOk result (Puts text.old text.new
        (specs.numbers_after kind question report.now)) }
{
    match question {
        Question::Line(LineQuestion::Kind) => push_numbers(text, kind, report),
        Question::Responses => push_longest_wait(text, report),
        _ => Ok(()),
    }
}

fn push_longest_wait(text: &mut String, report: &Report) -> Result<(), AllocError>
    ensures { OnOk result (Puts text.old text.new (specs.longest_wait report.now)) }
{
    push_seconds(
        text,
        MetricKind::Gauge,
        "rollout_longest_wait_seconds",
        "Longest wait of a client.",
        report.longest_wait,
    )
}

fn push_numbers(text: &mut String, kind: MetricKind, report: &Report) -> Result<(), AllocError>
    ensures { OnOk result (Puts text.old text.new (specs.numbers kind report.now)) }
{
    let help = "Lines not the server's.";
    push_number(
        text,
        kind,
        "rollout_log_foreign_lines",
        help,
        report.foreign,
    )?;
    let help = "Lines that the log lost.";
    push_number(text, kind, "rollout_log_lost_lines", help, report.lost)?;
    let help = "Apps that lines leave out.";
    push_number(text, kind, "rollout_apps_left_out", help, report.left_out)?;
    let help = "Offers among these.";
    push_number(
        text,
        kind,
        "rollout_offers_left_out",
        help,
        report.offers_left_out,
    )?;
    Ok(())
}
