//! What a page shows besides the counts of a log: its time, when the log ends, what a server says
//! of itself, and what a folder of `stage` has.

use crate::folder::FolderFacts;
use server_replies::{ServerFacts, ServerReplies};

/// When logs end.
#[derive(Clone, Copy)]
pub enum LogsEnd<'a> {
    /// The latest time of their last lines, as the line has it.
    At(&'a str),
    /// None has a line of a server near its end.
    NoLine,
    /// It wasn't looked at.
    Unknown,
}

/// What a page shows besides the counts of a log. Times are in UTC by RFC 3339.
#[derive(Clone, Copy)]
pub struct PageFacts<'a> {
    /// When the page is written.
    pub written: Option<&'a str>,
    /// When the logs end.
    pub end: LogsEnd<'a>,
    /// What a server says, if its port is given.
    pub server: Option<ServerFacts<'a>>,
    /// What a folder has, if one is given.
    pub folder: Option<&'a FolderFacts>,
}

impl<'a> PageFacts<'a> {
    // The replies of a server.
    fn replies(self) -> Option<ServerReplies<'a>> {
        self.server?.replies
    }

    /// The reply to `state`; empty if there is none.
    pub(crate) fn state(self) -> &'a str {
        match self.replies() {
            Some(replies) => replies.state.unwrap_or(""),
            None => "",
        }
    }

    /// The reply to `cells`; empty if there is none.
    pub(crate) fn cells(self) -> &'a str {
        match self.replies() {
            Some(replies) => replies.cells,
            None => "",
        }
    }
}
