//! Observers of requests and replies, such as a server's log.

use hot_swap::Generation;
use omaha_json::{AppObserver, FoundApp, Request, WrittenApp};

/// Observes a request and its result. First it is passed each app as its client wrote it, even if
/// the request is refused, and then the results of the apps. It can't change the reply.
pub trait RequestObserver: AppObserver {
    /// The apps have results, all under the ruleset of this generation. `found` has `None` for an
    /// app that isn't in the ruleset.
    fn observe(
        &mut self,
        generation: Generation,
        request: &Request,
        found: &[Option<FoundApp<'_>>],
    );
}

/// An observer that does nothing.
#[derive(Clone, Copy)]
pub struct NoObserver;

impl AppObserver for NoObserver {
    fn observe_app(&mut self, _app: WrittenApp<'_>) {}
}

impl RequestObserver for NoObserver {
    fn observe(
        &mut self,
        _generation: Generation,
        _request: &Request,
        _found: &[Option<FoundApp<'_>>],
    ) {}
}
