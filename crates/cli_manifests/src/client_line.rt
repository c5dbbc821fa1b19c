//! Which clients a simulation is of, as a line. No clause says which words; rows compare them.

use attrs::{Elapsed, Text};
use printing::TextBuffer;
use simulate::Client;
use std::alloc::{AllocError, Global};

/// The version, the day and the attributes that all clients send, as a line.
pub(crate) fn client_line(alloc: Global, client: &Client) -> Result<String, AllocError> {
    let day = Elapsed::at(client.moment).days;
    let mut text = TextBuffer::new(alloc);
    match &client.app.version {
        Some(version) => text.push_printed("for version ", version.as_str(), ""),
        None => text.push("for no version"),
    }
    text.push_number(" on day ", day as u64, "");
    push_attribute(&mut text, ", brand ", &client.app.brand);
    push_attribute(&mut text, ", ap ", &client.app.ap);
    push_attribute(&mut text, ", lang ", &client.app.lang);
    push_attribute(&mut text, ", platform ", &client.request.platform);
    if let Some(day) = client.app.installdate {
        text.push_number(", installed on day ", day, "");
    }
    if client.app.ping {
        text.push(", ping");
    }
    if client.app.event {
        text.push(", event");
    }
    text.push("\n");
    text.finish()
}

fn push_attribute(text: &mut TextBuffer, before: &str, value: &Option<Text>) {
    if let Some(value) = value {
        text.push_printed(before, value.as_str(), "");
    }
}
