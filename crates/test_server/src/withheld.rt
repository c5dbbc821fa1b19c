//! A reply is withheld while what its runs did can't be stored, and the next one is sent once it
//! can.

use crate::impaired::Impaired;
use crate::loopback::ONE_APP;
use crate::stopped::publisher_of;
use answering::{AnswerBuffers, RequestObserver, Turn, answer_in};
use cells::{PlainCells, PlainPass};
use cover::Cover;
use hot_swap::{Generation, Watcher};
use http_front::Counted;
use omaha_json::{AppObserver, FoundApp, Request, WrittenApp};
use std::process::Abort;
use std::sync::Wait;

/// A store that may fail. It looks at no event, so it withholds each reply while it fails.
#[derive(Clone, Copy)]
struct FailingStore {
    fails: bool,
}

impl Cover<PlainCells> for FailingStore {
    ghost use Rattle.std.specs.Prelude.{true};

    type Receipt = ();

    ghost marks = { λ _ _ _. Unit {0} };

    ghost covers = { λ _ _ _ _. Unit {0} };

    ghost withholds = { λ _. true };

    fn begin(&self, _pass: &mut PlainPass) -> u64 {
        0
    }

    fn settle(&self, _cells: &PlainCells, _pass: &mut PlainPass, _mark: u64) -> Option<()> {
        if self.fails { None } else { Some(()) }
    }
}

/// Counts the requests whose results are observed.
#[derive(Clone, Copy)]
struct Results {
    count: u32,
}

impl AppObserver for Results {
    fn observe_app(&mut self, _app: WrittenApp<'_>) {}
}

impl RequestObserver for Results {
    fn observe(
        &mut self,
        _generation: Generation,
        _request: &Request,
        _found: &[Option<FoundApp<'_>>],
    ) {
        self.count = self.count.saturating_add(1);
    }
}

/// A reply: its status, how it begins, how it ends, and how many results are observed.
type Wanted = (u16, &'static str, &'static str, u32);

const SENT: Wanted = (200, "HTTP/1.1 200 OK\r\n", "\"}}", 1);

const WITHHELD: Wanted = (
    503,
    "HTTP/1.1 503 Service Unavailable\r\nContent-Type: text/plain\r\n",
    "\r\n\r\nK4 Store\n",
    0,
);

/// Whether a request gets this reply.
fn is_answered<T: Abort>(
    own: &Impaired<'_, T>,
    watcher: &mut Watcher,
    fails: bool,
    want: Wanted,
) -> bool {
    let alloc = own.rt.alloc();
    let (cells, mut pass) = PlainCells::new(alloc).expect(own.handles, "cells");
    let turn = Turn {
        alloc,
        cells: &cells,
        moment: &0,
    };
    let mut buffers = AnswerBuffers::new(alloc);
    let mut reader = Counted::new(ONE_APP.as_bytes());
    let mut writer = Counted::new(Vec::new(alloc));
    let mut results = Results { count: 0 };
    let sent = answer_in(
        &turn,
        &FailingStore { fails },
        &mut buffers,
        &mut reader,
        &mut writer,
        &mut pass,
        watcher,
        &mut results,
    );
    let written = writer.into_inner();
    let (status, start, end, observed) = want;
    let is_right = written.starts_with(start.as_bytes()) && written.ends_with(end.as_bytes());
    match sent {
        Ok(sent) => sent.status == status && is_right && results.count == observed,
        Err(_) => false,
    }
}

/// Whether replies are withheld only while the store fails.
fn are_withheld<T: Abort + Wait>(own: &Impaired<'_, T>) -> bool {
    let mut publisher = publisher_of(own);
    let mut watcher = publisher.watcher().expect(own.handles, "a watcher");
    let is_sent = is_answered(own, &mut watcher, false, SENT);
    let is_withheld = is_answered(own, &mut watcher, true, WITHHELD);
    let is_sent_again = is_answered(own, &mut watcher, false, SENT);
    drop(watcher);
    publisher.close(own);
    is_sent && is_withheld && is_sent_again
}

#[test]
fn replies_are_withheld(rt: HostRuntime) {
    assert!(rt; are_withheld(&Impaired::new(&rt, &rt, None)));
}
