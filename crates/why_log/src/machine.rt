//! Which lines of a log are requests of a machine.

ghost use Rattle.std.specs.Prelude.{◌≡◌};
ghost use Rattle.std.specs.Option.{option_copied};
ghost use Rattle.serde_json.specs.View.{items_view, view};
ghost use Rattle.why_log.specs.Machine as specs;

use crate::line_request::moment_in;
use report::{list_in, number_in, text_in};
use serde_json::Value;

/// A machine, by what a log has of it. Without any, it is every machine.
#[derive(Clone, Copy)]
pub struct Machine<'a> {
    /// The address that the proxy named, or without one that of the connection, as a log has it.
    pub address: Option<&'a str>,
    /// The bucket of one of its apps.
    pub bucket: Option<u16>,
    /// The id of a request or of its session, or the first characters of it.
    pub id: Option<&'a str>,
}

impl<'a> Machine<'a> {
    /// Whether a line is a connection of this machine, with a time.
    pub(crate) fn sent(&self, line: &Value) -> bool
        ensures { result ≡ specs.is_of self.now (view line.now) }
    {
        is_connection(line)
            && moment_in(line).is_some()
            && has_address(self.address, line)
            && has_bucket(self.bucket, line)
            && has_id(self.id, line)
    }
}

fn is_connection(line: &Value) -> bool
    ensures { result ≡ specs.is_connection (view line.now) }
{
    match text_in(line, "kind") {
        Some(kind) => kind == "connection",
        None => false,
    }
}

fn has_address(address: Option<&str>, line: &Value) -> bool
    ensures { result ≡ specs.has_address (option_copied address.entry) (view line.now) }
{
    let Some(address) = address else {
        return true;
    };
    match text_in(line, "forwarded") {
        Some(forwarded) => forwarded == address,
        None => is_peer(address, text_in(line, "peer")),
    }
}

fn is_peer(address: &str, peer: Option<&str>) -> bool
    ensures { result ≡ specs.is_peer address.now (option_copied peer.entry) }
{
    match peer {
        Some(peer) => is_host(address, peer),
        None => false,
    }
}

// Whether a peer is a port of this address; one of IPv6 is in brackets.
fn is_host(address: &str, peer: &str) -> bool
    ensures { result ≡ specs.is_host address.now peer.now }
{
    match peer.strip_prefix("[") {
        Some(inside) => begins(inside, address, "]:"),
        None => begins(peer, address, ":"),
    }
}

// Whether a text begins with another one, and then with `after`.
fn begins(text: &str, first: &str, after: &str) -> bool
    ensures { result ≡ specs.begins text.now first.now after.now }
{
    let text = text.as_bytes();
    let first = first.as_bytes();
    if text.len() < first.len() {
        return false;
    }
    let (_begun, rest) = text.split_at(first.len());
    text.starts_with(first) && rest.starts_with(after.as_bytes())
}

fn has_bucket(bucket: Option<u16>, line: &Value) -> bool
    ensures { result ≡ specs.has_bucket bucket (view line.now) }
{
    let Some(bucket) = bucket else {
        return true;
    };
    match list_in(line, "apps") {
        Some(apps) => any_in(bucket, apps),
        None => false,
    }
}

// Whether one of these apps is in the bucket.
fn any_in(bucket: u16, apps: &[Value]) -> bool
    ensures { result ≡ specs.any_in bucket (items_view apps.now) }
{
    let mut left = apps;
    while let [app, rest @ ..] = left {
        if is_in(bucket, app) {
            return true;
        }
        left = rest;
    }
    false
}

fn is_in(bucket: u16, app: &Value) -> bool
    ensures { result ≡ specs.is_in bucket (view app.now) }
{
    match number_in(app, "bucket") {
        Some(number) => number == bucket as u64,
        None => false,
    }
}

fn has_id(id: Option<&str>, line: &Value) -> bool
    ensures { result ≡ specs.has_id (option_copied id.entry) (view line.now) }
{
    match id {
        Some(id) => is_id(id, text_in(line, "request_id")),
        None => true,
    }
}

// Whether an id begins with what a line has of one, or the other way round.
fn is_id(id: &str, logged: Option<&str>) -> bool
    ensures { result ≡ specs.is_id id.now (option_copied logged.entry) }
{
    let Some(logged) = logged else {
        return false;
    };
    let (id, logged) = (id.as_bytes(), logged.as_bytes());
    id.starts_with(logged) || logged.starts_with(id)
}
