//! The page that a report is to write.

use report_page::{FolderFacts, LogsEnd, PageFacts};
use server_replies::ServerFacts;

/// The file of a page, and what the page shows besides the logs.
#[derive(Clone, Copy)]
pub struct NamedPage<'a> {
    pub path: &'a str,
    pub server: Option<ServerFacts<'a>>,
    pub folder: Option<&'a FolderFacts>,
}

/// The path of a page, if one is written.
pub(crate) fn path_if<'a>(page: Option<NamedPage<'a>>) -> Option<&'a str> {
    match page {
        Some(page) => Some(page.path),
        None => None,
    }
}

/// The facts of a page that is written at a time, of logs with this end.
pub(crate) fn page_facts<'a>(
    page: Option<NamedPage<'a>>,
    written: Option<&'a str>,
    end: LogsEnd<'a>,
) -> PageFacts<'a> {
    match page {
        Some(page) => PageFacts {
            written,
            end,
            server: page.server,
            folder: page.folder,
        },
        None => PageFacts {
            written,
            end,
            server: None,
            folder: None,
        },
    }
}
