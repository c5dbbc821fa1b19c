//! What a folder's rule offers an app: its statements in words, and its quotas.

use crate::elements::{close_table, open_table, put, put_name, remark};
use crate::folder::{OfferedApp, OfferedQuota};
use crate::source::PageSource;
use markup::{Attribute, Class, Document, Tag};
use printing::Printed;

/// Draws that the server halts an app, if it does.
pub(crate) fn draw_halt(page: &mut Document, source: &PageSource<'_>, appid: &str) {
    if source.is_halted(appid) {
        page.open_as(Tag::Paragraph, Class::Muted);
        put_halt(page, source);
        page.close();
        page.line();
    }
}

/// Draws what an app is offered, if the folder has the app.
pub(crate) fn draw_offer(page: &mut Document, source: &PageSource<'_>, appid: &str) {
    if let Some(offered) = source.offer_to(appid) {
        put(
            page,
            Tag::Subheading,
            "Offered by the folder, once it is loaded",
        );
        page.line();
        draw_statements(page, offered);
        if !offered.quotas.is_empty() {
            draw_quotas(page, source, offered.quotas.as_slice());
        }
    }
}

/// Adds that the server halts an app.
pub(crate) fn put_halt(page: &mut Document, source: &PageSource<'_>) {
    if let Some(server) = source.facts.server {
        let port = server.port;
        page.text(format_args!("The server at {port} halts it, and offers it no release."));
    }
}

fn draw_statements(page: &mut Document, offered: &OfferedApp) {
    if offered.statements.is_empty() {
        remark(page, "Its file couldn't be read, or is no rule.");
        return;
    }
    page.open(Tag::List);
    for statement in offered.statements.as_slice() {
        put(page, Tag::Item, Printed(statement.as_str()));
        page.line();
    }
    page.close();
    page.line();
}

fn draw_quotas(page: &mut Document, source: &PageSource<'_>, quotas: &[OfferedQuota]) {
    open_table(page, &["Quota", "Granted by the server", "Share"], 2);
    for quota in quotas {
        page.open(Tag::TableRow);
        draw_quota(page, quota, source.granted(quota));
        page.close();
        page.line();
    }
    close_table(page);
}

// Such as `viewer51d[0]`, `417 of 1000`, and a bar.
fn draw_quota(page: &mut Document, quota: &OfferedQuota, granted: Option<u64>) {
    let limit = quota.limit;
    page.open(Tag::TableCell);
    put_quota(page, quota);
    page.close();
    match granted {
        Some(takes) => {
            // A counter also counts takes beyond its quota.
            let n = takes.min(limit);
            put(page, Tag::TableCell, format_args!("{n} of {limit}"));
            draw_bar(page, n, limit);
        }
        None => {
            put(page, Tag::TableCell, format_args!("at most {limit}"));
            put(page, Tag::TableCell, "");
        }
    }
}

/// Adds the name of a quota's counter.
pub(crate) fn put_quota(page: &mut Document, quota: &OfferedQuota) {
    put_name(page, quota.array.as_str());
    let index = quota.index;
    page.text(format_args!("[{index}]"));
}

// A cell with a bar, of which `n` of `limit` are coloured.
fn draw_bar(page: &mut Document, n: u64, limit: u64) {
    let part = if limit == 0 {
        1000
    } else {
        n as u128 * 1000 / limit as u128
    };
    page.open_as(Tag::TableCell, Class::Number);
    page.open_as(Tag::Svg, Class::Axis);
    page.attribute(Attribute::Xmlns, "http://www.w3.org/2000/svg");
    page.attribute(Attribute::ViewBox, "0 0 1000 1");
    page.attribute(Attribute::PreserveAspectRatio, "none");
    page.attribute(Attribute::AriaHidden, "true");
    draw_part(page, Class::Others, 1000);
    draw_part(page, Class::Version1, part);
    page.close();
    page.close();
}

fn draw_part(page: &mut Document, class: Class, width: u128) {
    page.open_as(Tag::Path, class);
    page.attribute(Attribute::D, format_args!("M0 0h{width}v1H0z"));
    page.close();
}
