//! An operator's port that is stopped: it ends at the next connection, which gets no reply.

use crate::impaired::Impaired;
use crate::loopback::{is_dropped, sent};
use crate::servers::service_of;
use bounded_files::Device;
use cells::{Directory, PlainCells};
use cover::Uncovered;
use hot_swap::Publisher;
use operator::{Control, LastLoad};
use ruleset::Ruleset;
use server_log::utc_now;
use serving::Manifests;
use std::net::TcpListener;
use std::process::Abort;
use std::sync::atomic::AtomicBool;
use std::sync::{Arc, Wait};
use workers::{NoCounters, ServerParts, operate};

/// A publisher of a ruleset without apps, with places for three watchers. It is ended by `close`.
pub(crate) fn publisher_of<T: Abort + Wait>(own: &Impaired<'_, T>) -> Publisher {
    let alloc = own.rt.alloc();
    let rules = Ruleset::new(String::new(alloc), Vec::new(alloc));
    let rules = Arc::new(alloc, rules.expect(own.handles, "a ruleset"));
    let publisher = Publisher::new(own, alloc, rules.expect(own.handles, "memory"), 3);
    publisher.expect(own.handles, "a publisher")
}

/// A control of a publisher of a ruleset without apps.
fn control_of<T: Abort + Wait>(own: &Impaired<'_, T>) -> Control {
    let alloc = own.rt.alloc();
    let rules = Ruleset::new(String::new(alloc), Vec::new(alloc));
    let rules = Arc::new(alloc, rules.expect(own.handles, "a ruleset"));
    let last = LastLoad {
        rules: rules.expect(own.handles, "memory"),
        digest: [0; 32],
        path: String::new(alloc),
        time: utc_now(own),
    };
    Control::new(
        publisher_of(own),
        Directory::new(alloc),
        last,
        Vec::new(alloc),
    )
}

/// Serves the operator's port of a stopped server. Returns whether a line ended it.
fn is_ended_by_line<T: Abort + Wait>(own: &Impaired<'_, T>, listener: &TcpListener) -> bool {
    let alloc = own.rt.alloc();
    let (cells, mut pass) = PlainCells::new(alloc).expect(own.handles, "cells");
    let mut control = control_of(own);
    let disk = Device::new(own.rt);
    let loader = Manifests::of(&disk);
    let cover = Uncovered;
    let bell = NoCounters;
    let parts = ServerParts {
        loader: &loader,
        cells: &cells,
        cover: &cover,
        bell: &bell,
        service: service_of(30),
    };
    let stop = AtomicBool::new(true);
    let end = operate(own, listener, &parts, &mut pass, &mut control, &stop);
    control.close(own);
    end.is_requested()
}

/// Whether the port ends at the next connection, by no line of it, and without a reply.
fn is_stopped<T: Abort + Wait>(own: &Impaired<'_, T>) -> bool {
    let listener = TcpListener::bind(own.rt, "127.0.0.1:0").expect(own.handles, "a port");
    let place = listener.local_addr().expect(own.handles, "an address");
    let stream = sent(own, place, "stop\n");
    let is_by_line = is_ended_by_line(own, &listener);
    drop(listener);
    is_dropped(own.rt.alloc(), &stream) && !is_by_line
}

#[test]
fn a_stopped_port_ends(rt: HostRuntime) {
    assert!(rt; is_stopped(&Impaired::new(&rt, &rt, None)));
}
