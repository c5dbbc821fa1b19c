//! Rulesets are swapped while clients send requests. Each reply is wholly of one generation, and
//! none is lost. From a quota that the rulesets share, as many releases are offered as it has.

use crate::impaired::Impaired;
use crate::loopback::{FOUR_APPS, ONE_APP, has_answer, reply, sent, text_of};
use crate::servers::Place;
use operator_request::OperatorRequest;
use std::net::SocketAddr;
use std::process::Abort;
use std::sync::atomic::{AtomicBool, AtomicU64, Ordering};
use std::thread::{self, Threads};

/// What four clients request while rulesets are loaded in turn.
pub(crate) struct Swaps {
    /// The manifest that is served at first, and the one that is loaded in turn with it.
    served: &'static str,
    other: &'static str,
    /// How many loads there are. They begin after the first reply to a client.
    loads: u64,
    /// How many requests each client sends, and how many of them before it waits for all loads.
    request_count: u64,
    before: u64,
    /// The request, and how many apps it has.
    request: &'static str,
    apps: usize,
    /// How many replies offer the release, if the rulesets take from a quota.
    quota: Option<u64>,
}

/// Clients that don't wait for the loads. One of the two rulesets offers each app the release, the
/// other offers none.
pub(crate) const WHOLE: Swaps = Swaps {
    served: "yes.toml",
    other: "no.toml",
    loads: 60,
    request_count: 100,
    before: 100,
    request: FOUR_APPS,
    apps: 4,
    quota: None,
};

/// Clients that take from a quota. Before all is loaded they send at most 36 requests.
pub(crate) const FORTY: Swaps = Swaps {
    served: "forty.toml",
    other: "other.toml",
    loads: 7,
    request_count: 30,
    before: 9,
    request: ONE_APP,
    apps: 1,
    quota: Some(40),
};

/// Clients that take from a quota at once, without loads.
pub(crate) const TWO: Swaps = Swaps {
    served: "two.toml",
    other: "",
    loads: 0,
    request_count: 5,
    before: 5,
    request: ONE_APP,
    apps: 1,
    quota: Some(2),
};

/// The same with more requests and a larger quota.
pub(crate) const THOUSAND: Swaps = Swaps {
    served: "thousand.toml",
    other: "",
    loads: 0,
    request_count: 400,
    before: 400,
    request: ONE_APP,
    apps: 1,
    quota: Some(1000),
};

/// How far these swaps are: whether clients have begun and loads are done; and how many replies of
/// each ruleset offer the release to all apps, and how many to none.
#[derive(Drop)]
struct Progress {
    swaps: &'static Swaps,
    is_begun: AtomicBool,
    is_loaded: AtomicBool,
    offers: AtomicU64,
    refusals: AtomicU64,
    other_offers: AtomicU64,
    other_refusals: AtomicU64,
}

impl Progress {
    fn new(swaps: &'static Swaps) -> Progress {
        Progress {
            swaps,
            is_begun: AtomicBool::new(false),
            is_loaded: AtomicBool::new(false),
            offers: AtomicU64::new(0),
            refusals: AtomicU64::new(0),
            other_offers: AtomicU64::new(0),
            other_refusals: AtomicU64::new(0),
        }
    }

    /// Counts a reply by the ruleset that it names, if it is whole.
    fn count(&self, reply: &str) {
        let swaps = self.swaps;
        let is_offered = reply.matches("\"manifest\"").count() == swaps.apps;
        let is_refused = reply.matches("\"noupdate\"").count() == swaps.apps;
        let named = reply.strip_suffix("\"}}").unwrap_or("");
        let is_served = named.ends_with(swaps.served);
        let is_other = !swaps.other.is_empty() && named.ends_with(swaps.other);
        if is_offered == is_refused || !(is_served || is_other) {
            return;
        }
        let count = match (is_served, is_offered) {
            (true, true) => &self.offers,
            (true, false) => &self.refusals,
            (false, true) => &self.other_offers,
            (false, false) => &self.other_refusals,
        };
        let _before = count.fetch_add(1, Ordering::SeqCst);
    }

    /// Whether each client got all its replies, wholly of one ruleset: as many offers as the quota,
    /// some by each ruleset; or, without a quota, those of the first and no others.
    fn is_right(&self) -> bool {
        let offers = self.offers.load(Ordering::SeqCst);
        let refusals = self.refusals.load(Ordering::SeqCst);
        let other_offers = self.other_offers.load(Ordering::SeqCst);
        let other_refusals = self.other_refusals.load(Ordering::SeqCst);
        let all_offers = offers.saturating_add(other_offers);
        let all_refusals = refusals.saturating_add(other_refusals);
        let are_right = match self.swaps.quota {
            Some(quota) => {
                all_offers == quota && offers != 0 && (self.swaps.loads == 0 || other_offers != 0)
            }
            None => refusals == 0 && other_offers == 0,
        };
        are_right && all_offers.saturating_add(all_refusals) == self.swaps.posts()
    }
}

impl Swaps {
    /// How many requests all clients send.
    fn posts(&self) -> u64 {
        self.request_count.saturating_mul(4)
    }
}

/// Waits until the flag is set, or for a long time.
fn await_flag(flag: &AtomicBool) {
    for _ in 0..10_000_000 {
        if flag.load(Ordering::SeqCst) {
            return;
        }
        thread::yield_now();
    }
}

/// What one client gets for a request.
fn post<T: Abort>(own: &Impaired<'_, T>, place: SocketAddr, progress: &Progress) {
    let stream = sent(own, place, progress.swaps.request);
    if let Ok(bytes) = reply(own.rt.alloc(), &stream) {
        progress.count(text_of(&bytes));
    }
}

/// What one client does.
fn post_all<T: Abort>(own: &Impaired<'_, T>, place: SocketAddr, progress: &Progress) {
    for i in 0..progress.swaps.request_count {
        if i == progress.swaps.before {
            await_flag(&progress.is_loaded);
        }
        post(own, place, progress);
        progress.is_begun.store(true, Ordering::SeqCst);
    }
}

/// What four clients do at once.
fn post_by_four<T>(own: &Impaired<'_, T>, place: SocketAddr, progress: &Progress)
where
    T: Abort + Threads + Sync,
{
    let post_one = |_client: usize| { post_all(own, place, progress) };
    let _done = thread::map_indices(own.handles, own.rt.alloc(), 4, &post_one);
}

/// Whether the reply to a load is the next generation.
fn is_installed<T: Abort>(own: &Impaired<'_, T>, port: u16, swaps: &Swaps, i: u64) -> bool {
    let path = if i % 2 == 0 {
        swaps.other
    } else {
        swaps.served
    };
    let want = format!(in own.rt.alloc(); "generation {}\n", i.saturating_add(2));
    let want = want.expect(own.handles, "memory");
    has_answer(
        own.rt,
        port,
        OperatorRequest::Load(path),
        Some(want.as_str()),
    )
}

/// Whether each load gets the next generation.
fn are_installed<T: Abort>(own: &Impaired<'_, T>, port: u16, progress: &Progress) -> bool {
    await_flag(&progress.is_begun);
    let mut are_installed = true;
    for i in 0..progress.swaps.loads {
        are_installed = are_installed && is_installed(own, port, progress.swaps, i);
    }
    progress.is_loaded.store(true, Ordering::SeqCst);
    are_installed
}

/// Whether the quota's counter has each take.
fn is_counted<T: Abort>(own: &Impaired<'_, T>, port: u16, swaps: &Swaps) -> bool {
    if swaps.quota.is_none() {
        return true;
    }
    let want = format!(in own.rt.alloc(); "q[0] {}\n", swaps.posts());
    let want = want.expect(own.handles, "memory");
    has_answer(own.rt, port, OperatorRequest::Cells, Some(want.as_str()))
}

/// Loads while clients send requests. Returns whether all loads and all replies are right.
pub(crate) fn are_swapped<T>(own: &Impaired<'_, T>, place: Place, swaps: &'static Swaps) -> bool
where
    T: Abort + Threads + Sync,
{
    let port = place.operator.port();
    let progress = Progress::new(swaps);
    let (are_installed, _posted) = thread::join(
        own.handles,
        || are_installed(own, port, &progress),
        || post_by_four(own, place.clients, &progress),
    );
    are_installed && progress.is_right() && is_counted(own, port, swaps)
}
