//! The top of a page: that no release fails, or what is wrong and what to do.

use crate::elements::{put, put_name, put_share};
use crate::finding_text::{draw_advice, draw_title};
use crate::findings::Finding;
use crate::source::PageSource;
use markup::{Class, Document, Tag};
use timeline::VersionCourse;

/// Draws the state, and then the other findings, a line each.
pub(crate) fn draw_state(page: &mut Document, source: &PageSource<'_>, findings: &[Finding<'_>]) {
    let [worst, others @ ..] = findings else {
        draw_calm(page, source);
        return;
    };
    open_band(page, class_of(*worst));
    page.open(Tag::MainHeading);
    draw_title(page, *worst);
    page.close();
    page.open(Tag::Paragraph);
    draw_advice(page, source, *worst);
    page.close();
    close_band(page);
    draw_others(page, source, others);
}

fn class_of(finding: Finding<'_>) -> Class {
    if finding.is_urgent() {
        Class::Act
    } else {
        Class::Look
    }
}

fn open_band(page: &mut Document, class: Class) {
    page.open_as(Tag::Division, class);
    page.open_as(Tag::Division, Class::Band);
    page.line();
}

fn close_band(page: &mut Document) {
    page.close();
    page.close();
}

fn draw_others(page: &mut Document, source: &PageSource<'_>, findings: &[Finding<'_>]) {
    if findings.is_empty() {
        return;
    }
    page.open_as(Tag::List, Class::Findings);
    for finding in findings {
        page.open_as(Tag::Item, class_of(*finding));
        page.open(Tag::Bold);
        draw_title(page, *finding);
        page.close();
        page.text(". ");
        draw_advice(page, source, *finding);
        page.close();
        page.line();
    }
    page.close();
    page.line();
}

// ---- nothing is wrong

fn draw_calm(page: &mut Document, source: &PageSource<'_>) {
    if source.report.lines == 0 {
        open_band(page, Class::Facts);
        put(page, Tag::MainHeading, "Nothing is counted yet");
    } else {
        open_band(page, Class::Well);
        put(page, Tag::MainHeading, "No release fails");
    }
    for app in source.apps {
        for version in app.versions.as_slice() {
            if version.counts.installs > 0 {
                draw_success(page, app.appid.as_str(), version);
            }
        }
    }
    close_band(page);
}

fn draw_success(page: &mut Document, appid: &str, version: &VersionCourse) {
    let failures = version.counts.failures;
    let installs = version.counts.installs;
    page.open(Tag::Paragraph);
    page.open(Tag::Bold);
    put_name(page, appid);
    page.text(" ");
    put_name(page, version.version.as_str());
    page.close();
    page.text(format_args!(": {failures} of {installs} installs failed, "));
    put_share(page, failures, installs);
    page.close();
    page.line();
}
