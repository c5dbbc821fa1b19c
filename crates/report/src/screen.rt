//! The text of a report as a screen. No clause says how it looks; rows of `crates/rows` compare it.

use crate::counting::Report;
use crate::question::{AppQuestion, EventQuestion, QUESTIONS, Question};
use crate::rows::{
    push_bucket_rows, push_others, push_result_rows, push_row, push_rows, push_title,
};
use crate::tally::Tally;
use printing::TextBuffer;
use std::alloc::{AllocError, Global};
use std::collections::BTreeMap;

/// The text of a report, with a line for each number, and with the heads of the columns or without.
/// Control characters in a client's texts are escaped.
// open: whether an allocation fails, its only error; the lines: rows.
pub fn report_text(alloc: Global, heads: bool, report: &Report) -> Result<String, AllocError> {
    let mut text = TextBuffer::new(alloc);
    push_title(&mut text, heads, "lines", &["what"]);
    push_row(&mut text, report.lines, "counted");
    push_row(&mut text, report.foreign, "not the server's");
    push_row(&mut text, report.lost, "lost");
    push_row(&mut text, report.left_out, "apps left out");
    push_row(&mut text, report.offers_left_out, "offers left out");
    push_tables(alloc, &mut text, heads, report);
    text.finish()
}

fn push_tables(alloc: Global, text: &mut TextBuffer, heads: bool, report: &Report) {
    for question in QUESTIONS.iter() {
        if let Some(tally) = report.tally(*question) {
            push_table(alloc, text, heads, report, *question, tally);
        }
    }
}

// A table with its title, unless it is empty or has none.
fn push_table(
    alloc: Global,
    text: &mut TextBuffer,
    heads: bool,
    report: &Report,
    question: Question,
    tally: &Tally,
) {
    let title = question.title();
    if title.is_empty() || tally.rows.is_empty() {
        return;
    }
    push_title(text, heads, title, question.columns());
    push_rows_of(alloc, text, report, question, &tally.rows);
    push_others(text, tally.others);
}

fn push_rows_of(
    alloc: Global,
    text: &mut TextBuffer,
    report: &Report,
    question: Question,
    rows: &BTreeMap<String, u64>,
) {
    match question {
        Question::App(AppQuestion::Bucket) => {
            let update_checks = report.tally(Question::App(AppQuestion::UpdateCheck));
            push_bucket_rows(alloc, text, rows, update_checks)
        }
        Question::Event(EventQuestion::Result) => {
            let ended = report.tally(Question::Event(EventQuestion::Ended));
            push_result_rows(text, ended, rows)
        }
        _ => push_rows(text, rows),
    }
}
