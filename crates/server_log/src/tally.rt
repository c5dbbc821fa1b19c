//! The totals of the connections since the log's last line of totals, as the workers count them. No
//! contract knows what threads share.

use crate::connection_line::status_of;
use crate::log_queue::LogQueue;
use access_log::Totals;
use answering::{AnswerFault, Sent};
use std::sync::atomic::{AtomicU64, Ordering};

/// The numbers of `Totals`, and how many workers are busy now.
#[derive(Drop)]
pub(crate) struct RunningTotals {
    success: AtomicU64,
    bad_request: AtomicU64,
    not_found: AtomicU64,
    method_not_allowed: AtomicU64,
    length_required: AtomicU64,
    content_too_large: AtomicU64,
    header_fields_too_large: AtomicU64,
    internal_server_error: AtomicU64,
    service_unavailable: AtomicU64,
    dropped: AtomicU64,
    longest_wait: AtomicU64,
    busy: AtomicU64,
    busy_now: AtomicU64,
}

impl RunningTotals {
    /// All zero.
    pub(crate) fn new() -> RunningTotals {
        RunningTotals {
            success: AtomicU64::new(0),
            bad_request: AtomicU64::new(0),
            not_found: AtomicU64::new(0),
            method_not_allowed: AtomicU64::new(0),
            length_required: AtomicU64::new(0),
            content_too_large: AtomicU64::new(0),
            header_fields_too_large: AtomicU64::new(0),
            internal_server_error: AtomicU64::new(0),
            service_unavailable: AtomicU64::new(0),
            dropped: AtomicU64::new(0),
            longest_wait: AtomicU64::new(0),
            busy: AtomicU64::new(0),
            busy_now: AtomicU64::new(0),
        }
    }

    // Counts a connection that a worker has taken.
    fn begin(&self, waited: u64) {
        let before = self.busy_now.fetch_add(1, Ordering::SeqCst);
        let _most = self
            .busy
            .fetch_max(before.saturating_add(1), Ordering::SeqCst);
        let _longest = self.longest_wait.fetch_max(waited, Ordering::SeqCst);
    }

    // Counts the end of a connection.
    fn end(&self, status: u16) {
        let _before = self.counted_by(status).fetch_add(1, Ordering::SeqCst);
        let _busy = self.busy_now.fetch_sub(1, Ordering::SeqCst);
    }

    // The count of the connections whose reply has this status, or of those without a reply.
    fn counted_by(&self, status: u16) -> &AtomicU64 {
        match status {
            200 => &self.success,
            400 => &self.bad_request,
            404 => &self.not_found,
            405 => &self.method_not_allowed,
            411 => &self.length_required,
            413 => &self.content_too_large,
            431 => &self.header_fields_too_large,
            500 => &self.internal_server_error,
            503 => &self.service_unavailable,
            _ => &self.dropped,
        }
    }

    /// Returns the totals and resets them.
    pub(crate) fn take(&self) -> Totals {
        let busy_now = self.busy_now.load(Ordering::SeqCst);
        Totals {
            success: taken(&self.success),
            bad_request: taken(&self.bad_request),
            not_found: taken(&self.not_found),
            method_not_allowed: taken(&self.method_not_allowed),
            length_required: taken(&self.length_required),
            content_too_large: taken(&self.content_too_large),
            header_fields_too_large: taken(&self.header_fields_too_large),
            internal_server_error: taken(&self.internal_server_error),
            service_unavailable: taken(&self.service_unavailable),
            dropped: taken(&self.dropped),
            longest_wait: taken(&self.longest_wait),
            busy: self.busy.swap(busy_now, Ordering::SeqCst),
        }
    }
}

fn taken(number: &AtomicU64) -> u64 {
    number.swap(0, Ordering::SeqCst)
}

/// Counts a connection that a worker has taken, and the microseconds that it waited, if there is a
/// log.
// open: the totals that result: tests.
pub fn count_begun(log: Option<&LogQueue>, waited: u64) {
    if let Some(queue) = log {
        queue.tally().begin(waited);
    }
}

/// Counts the end of a connection that was counted as begun, if there is a log.
// open: the totals that result: tests.
pub fn count_ended(log: Option<&LogQueue>, outcome: &Result<Sent, AnswerFault>) {
    if let Some(queue) = log {
        queue.tally().end(status_of(outcome));
    }
}
