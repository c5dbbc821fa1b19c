//! What is known of the page, of the log and of the server: a paragraph.

use crate::elements::{put_as, put_name, put_time};
use crate::facts::{LogsEnd, PageFacts};
use crate::log_age::age_of_log;
use crate::source::PageSource;
use markup::{Class, Document, Tag};
use server_replies::{ServerFacts, ServerReplies, first_after, path_of_load, time_of_load};

/// Draws the time of the page, that of the log's last line, and what a server serves. The style of
/// the paragraph also says when the page has been open for a minute.
pub(crate) fn draw_facts(page: &mut Document, source: &PageSource<'_>) {
    page.open_as(Tag::Paragraph, Class::Facts);
    if let Some(time) = source.facts.written {
        page.text("Page written at ");
        put_time(page, time);
        page.text(" UTC. ");
    }
    draw_end(page, source.facts);
    if let Some(server) = source.facts.server {
        draw_server(page, source, server);
    }
    page.close();
    page.line();
}

fn draw_end(page: &mut Document, facts: PageFacts<'_>) {
    match facts.end {
        LogsEnd::At(time) => {
            page.text("The log ends at ");
            put_time(page, time);
            if let Some(seconds) = age_of_log(facts) {
                page.text(format_args!(", {seconds} seconds before the page"));
            }
            page.text(". ");
        }
        LogsEnd::NoLine => page.text("The log's end has no line of a server. "),
        LogsEnd::Unknown => page.text("The log's end wasn't looked at. "),
    }
}

fn draw_server(page: &mut Document, source: &PageSource<'_>, server: ServerFacts<'_>) {
    let port = server.port;
    match server.replies {
        Some(ServerReplies { state: Some(_), .. }) => {
            page.text(format_args!("The server at {port} serves generation "));
            draw_load(page, source.state);
        }
        Some(_) => page.text(format_args!(
            "The server at {port} is an older one, and says only its counters. "
        )),
        None => page.text(format_args!("The server at {port} doesn't reply. ")),
    }
}

// The generation, the time and the path of its load, and the digest.
fn draw_load(page: &mut Document, state: &[&str]) {
    put_name(page, first_after("generation", state).unwrap_or(""));
    if let Some(loaded) = first_after("loaded", state) {
        page.text(". Its last load was at ");
        put_time(page, time_of_load(loaded));
        page.text(" from ");
        put_name(page, path_of_load(loaded));
    }
    let digest = first_after("digest", state).unwrap_or("");
    page.text(", with a digest that begins with ");
    put_as(
        page,
        Tag::Span,
        Class::Name,
        digest.get(0..8).unwrap_or(digest),
    );
    page.text(". ");
}
