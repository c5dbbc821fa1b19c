//! A quota over several starts of a server, each of which began with the counters that the one
//! before left.
//!
//! See docs/SPECIFICATION.md, "Counters".
#![tactic(auto)]

// Along a legal history the additions of 1 to a quota's cell that reply below the quota are
// min(quota, opening + additions) less min(quota, opening). So if a server opens its counters with
// the last values of the one before, both together grant as much as one server that did what both
// did. That is the first law. Its premise on each server is what `serving` promises at its end.
//
// A start that crashed leaves no last values. Two things are required of the value that the next
// start opens with: it isn't below the value that the crashed start opened with, and it is above
// each place that was sent to a client. Then no more places are sent than the quota has. Some may
// be lost. That is the second law.
//
// Why a crash leaves such a value is the third law. A reply with a place is sent only once the
// place is below each number that a crash may leave at that moment, and no commit stores a lower
// number. These are rules of single moments, so each prefix of what a server does keeps them, and a
// crash is the end of such a prefix. The rules are those of the workers (`answering`, the
// `requires` of `send`) and of the store (`counter_store`, the clauses of `commit`).

mod laws;

pub use laws::{crashes_leave_openings, servers_count_as_one, starts_grant_no_more};
