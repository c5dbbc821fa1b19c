//! The sections of loads and of requests, and the whole report.

use crate::elements::{
    close_table, number_cell, open_table, put, put_as, put_time, put_wait, remark,
};
use crate::source::PageSource;
use markup::{Class, Document, Tag};
use report::{LineQuestion, Question, Report, report_text};
use std::alloc::{AllocError, Global};
use std::collections::BTreeMap;
use timeline::is_load_among;

/// Draws the loads. Those that no step explains are marked.
pub(crate) fn draw_loads(page: &mut Document, source: &PageSource<'_>) {
    page.open(Tag::Section);
    put(page, Tag::Heading, "Loads");
    page.line();
    match source.report.tally(Question::Line(LineQuestion::Load)) {
        Some(loads) if !loads.rows().is_empty() => {
            open_table(
                page,
                &["Time, in UTC", "Generation", "Manifest", "Number"],
                3,
            );
            for (name, n) in loads.rows().iter() {
                let is_marked = is_load_among(source.unexplained, name.as_str());
                draw_load(page, name.as_str(), *n, is_marked);
            }
            close_table(page);
            draw_others(page, loads.others());
        }
        _ => remark(page, "The log has no load."),
    }
    page.close();
    page.line();
}

// A load: its time, and then as it is.
fn draw_load(page: &mut Document, name: &str, n: u64, is_marked: bool) {
    page.open(Tag::TableRow);
    let (time, others) = name.split_once('\t').unwrap_or((name, ""));
    page.open(Tag::TableCell);
    put_time(page, time);
    page.close();
    let (generation, path) = others.split_once('\t').unwrap_or((others, ""));
    put(page, Tag::TableCell, generation);
    page.open(Tag::TableCell);
    page.text(path);
    if is_marked {
        page.text(" ");
        put_as(page, Tag::Bold, Class::Bad, "no step explains it");
    }
    page.close();
    number_cell(page, n);
    page.close();
    page.line();
}

/// Draws the numbers of lines and of requests.
pub(crate) fn draw_requests(page: &mut Document, report: &Report) {
    page.open(Tag::Section);
    put(page, Tag::Heading, "Requests");
    page.line();
    match report.tally(Question::Line(LineQuestion::Refusal)) {
        Some(refusals) if !refusals.rows().is_empty() => {
            open_table(page, &["Status", "Rule", "Number"], 2);
            draw_rows(page, refusals.rows());
            close_table(page);
            draw_others(page, refusals.others());
        }
        _ => remark(page, "No request was refused."),
    }
    draw_responses(page, report);
    open_table(page, &["Lines of the log", "Number"], 1);
    draw_number(page, "counted", report.lines);
    draw_number(page, "not the server's", report.foreign);
    draw_number(page, "lost", report.lost);
    draw_number(page, "apps left out", report.left_out);
    draw_number(page, "offers left out", report.offers_left_out);
    if let Some(kinds) = report.tally(Question::Line(LineQuestion::Kind)) {
        draw_rows(page, kinds.rows());
    }
    close_table(page);
    page.close();
    page.line();
}

// The replies by status, and how long a client waited at most, by the log's lines of totals.
fn draw_responses(page: &mut Document, report: &Report) {
    match report.tally(Question::Responses) {
        Some(responses) if !responses.rows().is_empty() => {
            open_table(page, &["Status of the reply", "Number"], 1);
            draw_rows(page, responses.rows());
            close_table(page);
        }
        _ => remark(
            page,
            "The log has no totals: a server writes them each minute.",
        ),
    }
    if report.longest_wait > 0 {
        page.open_as(Tag::Paragraph, Class::Muted);
        put_wait(page, report.longest_wait);
        page.text(" for a worker.");
        page.close();
        page.line();
    }
}

// A row; none for 0.
fn draw_number(page: &mut Document, what: &str, n: u64) {
    if n == 0 {
        return;
    }
    page.open(Tag::TableRow);
    put(page, Tag::TableCell, what);
    number_cell(page, n);
    page.close();
    page.line();
}

// A row for each name: its texts, and then its count.
fn draw_rows(page: &mut Document, rows: &BTreeMap<String, u64>) {
    for (name, n) in rows.iter() {
        page.open(Tag::TableRow);
        for text in name.as_str().split('\t') {
            put(page, Tag::TableCell, text);
        }
        number_cell(page, *n);
        page.close();
        page.line();
    }
}

fn draw_others(page: &mut Document, others: u64) {
    if others > 0 {
        remark(page, format_args!("{others} more have no row."));
    }
}

/// Draws the text of the report, folded.
pub(crate) fn draw_whole(
    alloc: Global,
    page: &mut Document,
    report: &Report,
) -> Result<(), AllocError> {
    let text = report_text(alloc, true, report)?;
    page.open(Tag::Section);
    page.open(Tag::Details);
    put(page, Tag::Summary, "The whole report");
    page.open(Tag::Preformatted);
    for line in text.as_str().lines() {
        draw_line(page, line);
    }
    page.close();
    page.close();
    page.close();
    page.line();
    Ok(())
}

// A line of the report; four spaces for each tab.
fn draw_line(page: &mut Document, line: &str) {
    let mut first = true;
    for text in line.split('\t') {
        if !first {
            page.text("    ");
        }
        page.text(text);
        first = false;
    }
    page.line();
}
