//! Which apps of a refused request of Omaha are passed to an observer.

use omaha_json::{AppObserver, OmahaFault, WrittenApp, read_request};
use std::alloc::Global;

/// An observer that counts apps.
#[derive(Clone, Copy)]
struct Apps {
    count: u32,
}

impl AppObserver for Apps {
    fn observe_app(&mut self, _app: WrittenApp<'_>) {
        self.count = self.count.saturating_add(1);
    }
}

/// The number of apps up to the one that isn't an app; none if the body is a request.
fn apps_of_refused(alloc: Global, body: &str) -> Option<u32> {
    let mut apps = Apps { count: 0 };
    match read_request(alloc, body.as_bytes(), &mut apps) {
        Err(OmahaFault::Shape) => Some(apps.count),
        _ => None,
    }
}

#[test]
fn apps_of_a_refused_request(rt: HostRuntime) {
    let body = r#"{"request":{"protocol":"3.1","app":[
        {"appid":"x"},{"appid":"y"},{"event":2},{"appid":"z"}]}}"#;
    assert!(rt; apps_of_refused(rt.alloc(), body) == Some(3));
}
