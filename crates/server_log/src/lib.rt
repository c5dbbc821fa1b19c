//! The log of a server: a queue, and a thread that writes its lines to standard error.
//!
//! The server's threads put lines into the queue. A worker thread buffers the lines of its
//! connections first, so that several connections share a place in the queue. Only the operator's
//! thread waits for a place, briefly, after a load and at the end. If the log's reader is too slow,
//! lines are lost, and a line with their number precedes the next line that is written.
//!
//! The contents of a connection's line are kept while the connection is answered: what was read and
//! how a device failed (`Recorder`), and the result for each app (`ConnectionRecord`). The line of
//! an event is that of `log_line` in `access_log`, which is proved. The line of an operator's
//! request is proved from the reply on (`request_line`), that of a start from the digest or the
//! fault on (`start_line`). Connections are also counted (`tally`), and the totals are logged each
//! minute. Nothing is proved about queues, threads, clocks and standard error.
//!
//! See docs/OPERATING.md, "The log".
#![tactic(auto)]

mod app_details;
mod app_record;
mod clock;
mod connection_line;
mod connection_record;
mod counters_line;
mod halt_line;
mod kept_texts;
mod load_line;
mod log;
mod log_output;
mod log_queue;
mod log_thread;
mod operator_line;
mod recorder;
mod requester;
mod start_line;
mod tally;

pub use clock::{seconds_from_now, utc_now};
pub use connection_line::{note_connection, note_unaccepted};
pub use connection_record::ConnectionRecord;
pub use counters_line::{note_counters, write_counters};
pub use load_line::{digest_text, note_serving};
pub use log::Log;
pub use log_output::LogOutput;
pub use log_queue::{LogPiece, LogQueue};
pub use log_thread::{LogEnd, start_log};
pub use operator_line::note_request;
pub use recorder::Recorder;
pub use start_line::{Starting, note_refused_start, note_start, write_refused_start};
pub use tally::{count_begun, count_ended};
