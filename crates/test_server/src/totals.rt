//! The totals of connections, as the log counts them.

use access_log::Totals;
use answering::{AnswerFault, Sent};
use server_log::{LogQueue, count_begun, count_ended};

const STATUSES: [u16; 8] = [200, 400, 404, 405, 411, 413, 431, 500];

/// Counts connections with each status, which waited for as many microseconds: one with the first
/// status, two with the second, and so on. Nine connections get no reply.
fn count_each(queue: &LogQueue) {
    for (place, status) in STATUSES.iter().enumerate() {
        for _ in 0..place.saturating_add(1) {
            let sent = Sent {
                status: *status,
                line: b"",
            };
            count_begun(Some(queue), *status as u64);
            count_ended(Some(queue), &Ok(sent));
        }
    }
    for _ in 0..9 {
        count_begun(Some(queue), 0);
        count_ended(Some(queue), &Err(AnswerFault::Reading));
    }
}

/// The numbers of connections by status, without a reply, the longest wait, and the most workers
/// that were busy at once.
fn numbers_of(totals: &Totals) -> [u64; 11] {
    [
        totals.success,
        totals.bad_request,
        totals.not_found,
        totals.method_not_allowed,
        totals.length_required,
        totals.content_too_large,
        totals.header_fields_too_large,
        totals.internal_server_error,
        totals.dropped,
        totals.longest_wait,
        totals.busy,
    ]
}

/// Whether connections are counted by status, and only once.
fn are_counted(queue: &LogQueue) -> bool {
    count_each(queue);
    numbers_of(&queue.take_totals()) == [1, 2, 3, 4, 5, 6, 7, 8, 9, 500, 1]
        && numbers_of(&queue.take_totals()) == [0; 11]
}

#[test]
fn connections_are_counted_by_status(rt: HostRuntime) {
    let (queue, _pieces) = LogQueue::new(rt.alloc(), 8080).expect(&rt, "a queue");
    assert!(rt; are_counted(&queue));
}
