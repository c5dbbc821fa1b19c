//! An app of a request, and the outcome that it got.

use crate::excerpt::Excerpt;
use crate::further_members::FurtherMembers;

/// The outcome of an app.
#[derive(Clone, Copy)]
pub enum Outcome<'a> {
    /// The server doesn't have this app.
    Unknown,
    /// The app requested no update.
    NotRequested,
    /// No release was offered.
    NoUpdate,
    /// A release was offered: its number, counted from 1, and its version.
    Offered(u8, &'a str),
}

/// An app of a request.
#[derive(Clone, Copy)]
pub struct LoggedApp<'a> {
    pub appid: Excerpt<'a>,
    /// As the client wrote it; `None` if it didn't.
    pub version: Option<Excerpt<'a>>,
    /// From 0 to 9999.
    pub bucket: u16,
    /// Whether the client's cohort named the bucket.
    pub named: bool,
    pub outcome: Outcome<'a>,
    /// The member `event` as the client wrote it, in JSON; `None` if it didn't.
    pub event: Option<Excerpt<'a>>,
    /// The app's other members.
    pub more: FurtherMembers<'a>,
}
