//! The lines of a server's log: each is a JSON object (RFC 8259), which says what happened, when,
//! and at which server.
//!
//! An event is defined as tokens of JSON, in a fixed order. Its line is these tokens as the kit's
//! writer prints them, followed by a line feed. Only texts differ: all characters that could
//! control a terminal are escaped. A line has at most 4096 bytes. As much of a client's request is
//! logged as fits: long texts are cut, only the first apps are listed, and counts say what is left
//! out.
//!
//! See docs/OPERATING.md, "The log".
#![tactic(auto)]

mod app;
mod apps;
mod event_line;
mod events;
mod excerpt;
mod further_members;
mod json_text;
mod left_out;
mod line_buffer;
mod log_event;
mod logged_app;
mod member;
mod text_size;
mod unescaped;
mod utc;

pub use event_line::{log_line, log_line_in};
pub use excerpt::Excerpt;
pub use further_members::FurtherMembers;
pub use line_buffer::LineBuffer;
pub use log_event::{Connection, Counter, Halt, LineHeader, Load, LogEvent, Start, Totals};
pub use logged_app::{LoggedApp, Outcome};
pub use utc::Utc;
