//! Totals of a server's log: update checks and offers by app and release, versions in use, results
//! of installs, and refusals. The log may have any lines.
//!
//! Lines that aren't the server's are only counted. For the server's lines in a time window, each
//! question has a table of names. It has a fixed maximum of rows, so memory is bounded for any log.
//! A log is read in blocks, and at most one line of it is kept.
#![tactic(auto)]

mod app_names;
mod borrowed_json;
mod chart_names;
mod counters;
mod counting;
mod event_names;
mod events;
mod exposition;
mod json_range;
mod labels;
mod line_members;
mod line_names;
mod log_events;
mod log_line;
mod log_lines;
mod metrics;
mod name_text;
mod note;
mod objects;
mod question;
mod question_texts;
mod responses;
mod rows;
mod screen;
mod tally;
mod window;

pub use borrowed_json::read_borrowed;
pub use counters::counters_text;
pub use counting::Report;
pub use exposition::exposition_text;
pub use labels::push_label;
pub use line_members::{flag_at, list_at, member_at, number_at, text_at};
pub use log_events::{flag_in, list_in, number_in, text_in};
pub use log_lines::{LogOnlooker, count_log};
pub use metrics::MetricKind;
pub use question::{AppQuestion, ChartQuestion, EventQuestion, LineQuestion, QUESTIONS, Question};
pub use screen::report_text;
pub use tally::Tally;
pub use window::Window;
