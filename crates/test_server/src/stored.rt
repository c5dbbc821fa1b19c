//! A server whose counters are stored: while that fails, a reply that takes a place of a quota is
//! withheld, and others aren't. Nor is one that takes after the quota's last place. The log says
//! when it begins to fail, and when it no longer does.

use crate::impaired::Impaired;
use crate::loopback::{ONE_APP, has_answer, reply, sent};
use crate::manifests::write_files;
use crate::whole_log::{lines_in, logging_to};
use bounded_files::Device;
use counter_store::CounterStore;
use counters_file::{CountersFault, KeptFile};
use operator_request::OperatorRequest;
use server_counters::Counters;
use server_log::LogQueue;
use serving::{Manifests, Server, prepare};
use std::alloc::Global;
use std::net::SocketAddr;
use std::process::Abort;
use std::sync::Wait;
use std::sync::atomic::{AtomicBool, Ordering};
use std::thread::{self, Threads};
use std::time::Duration;

/// An app that isn't in the ruleset.
const OTHER_APP: &str = "POST /service/update2/json HTTP/1.1\r\nContent-Length: 69\r\n\r\n\
    {\"request\":{\"protocol\":\"3.1\",\"app\":[{\"appid\":\"y\",\"updatecheck\":{}}]}}";

/// How a reply to a request begins.
const SENT: &str = "HTTP/1.1 200 OK\r\n";

/// How one begins that is withheld.
const WITHHELD: &str = "HTTP/1.1 503 ";

/// What lines have that say whether the file can be written.
const KIND: &str = "\"kind\":\"counters\"";

/// The end of a line that it can't be.
const FAILS: &str = "\"kind\":\"counters\",\"refusal\":\"K4 Store\"}\n";

/// The end of a line that it can be again.
const SUCCEEDS: &str = "\"kind\":\"counters\"}\n";

/// A file that can't be written while the flag is set.
#[derive(Drop)]
struct FailingFile<'a> {
    fails: &'a AtomicBool,
}

impl<'a> KeptFile for FailingFile<'a> {
    ghost use Rattle.std.specs.Prelude.{None};

    ghost known = { λ _. None };

    fn read(&self, _alloc: Global) -> Result<Option<Vec<u8>>, CountersFault> {
        Ok(None)
    }

    fn replace(&mut self, _bytes: &[u8]) -> Result<(), CountersFault> {
        if self.fails.load(Ordering::SeqCst) {
            return Err(CountersFault::Store);
        }
        Ok(())
    }
}

/// Whether the reply to this request begins so.
fn is_replied<T: Abort>(own: &Impaired<'_, T>, place: SocketAddr, text: &str, start: &str) -> bool {
    match reply(own.rt.alloc(), &sent(own, place, text)) {
        Ok(bytes) => bytes.starts_with(start.as_bytes()),
        Err(_) => false,
    }
}

/// Whether one of forty requests gets a reply that begins so.
fn is_replied_once<T: Abort>(own: &Impaired<'_, T>, place: SocketAddr, start: &str) -> bool {
    for _ in 0..40 {
        if is_replied(own, place, ONE_APP, start) {
            return true;
        }
        thread::sleep(own.rt, Duration::from_millis(50));
    }
    false
}

/// Whether only replies that take are withheld, and only while the file can't be written. Then the
/// server is stopped.
fn are_withheld<T: Abort + Threads + Sync>(
    own: &Impaired<'_, T>,
    clients: SocketAddr,
    operator: u16,
    fails: &AtomicBool,
) -> bool {
    let is_sent = is_replied(own, clients, ONE_APP, SENT);
    fails.store(true, Ordering::SeqCst);
    let is_withheld = is_replied_once(own, clients, WITHHELD);
    let is_other_sent = is_replied(own, clients, OTHER_APP, SENT);
    fails.store(false, Ordering::SeqCst);
    let is_sent_again = is_replied_once(own, clients, SENT);
    is_sent && is_withheld && is_other_sent && is_sent_again && is_stopped(own, operator)
}

fn is_stopped<T: Abort>(own: &Impaired<'_, T>, operator: u16) -> bool {
    has_answer(own.rt, operator, OperatorRequest::Stop, Some("stopping\n"))
}

/// Whether only the two replies are withheld that take the places of a quota of two. Then the
/// server is stopped.
fn are_two_withheld<T: Abort>(own: &Impaired<'_, T>, clients: SocketAddr, operator: u16) -> bool {
    let is_first_withheld = is_replied(own, clients, ONE_APP, WITHHELD);
    let is_second_withheld = is_replied(own, clients, ONE_APP, WITHHELD);
    let is_third_sent = is_replied(own, clients, ONE_APP, SENT);
    is_first_withheld && is_second_withheld && is_third_sent && is_stopped(own, operator)
}

/// Serves with two workers and this file, and logs to the queue.
fn served<T>(own: &Impaired<'_, T>, server: Server, fails: &AtomicBool, queue: &LogQueue) -> bool
where
    T: Abort + Threads + Wait + Sync,
{
    let alloc = own.rt.alloc();
    let directory = server.loaded().directory.copy(alloc);
    let values = server.values().to_vec(alloc);
    let store = CounterStore::new(
        alloc,
        FailingFile { fails },
        Vec::new(alloc),
        directory.expect(own.handles, "arrays"),
        values.expect(own.handles, "values"),
    );
    let store = Some(store.expect(own.handles, "a store"));
    let disk = Device::new(own.rt);
    let server = server.staffed(own, 2).expect(own.handles, "a staff");
    let mut out = Vec::new(alloc);
    let service = logging_to(queue);
    let end = server.serve(own, &Manifests::of(&disk), store, service, &mut out);
    drop(end.expect(own.handles, "an end"));
    true
}

/// Whether a log has one line that the file can't be written, and then one that it can be again.
fn has_changes(log: &str) -> bool {
    let Some((before, after)) = log.split_once(FAILS) else {
        return false;
    };
    let Some((meanwhile, later)) = after.split_once(SUCCEEDS) else {
        return false;
    };
    !before.contains(KIND) && !meanwhile.contains(KIND) && !later.contains(KIND)
}

/// A server of this manifest that is ready.
fn ready<T: Abort>(own: &Impaired<'_, T>, manifest: &str) -> Server {
    let none = Counters::none(own.rt.alloc()).expect(own.handles, "counters");
    let server = prepare(own, &Device::new(own.rt), manifest, 0, 0, none);
    server.expect(own.handles, "a server")
}

/// Whether a server of the manifest with a quota of a thousand serves as it should, and logs it.
fn is_right<T>(own: &Impaired<'_, T>) -> bool
where
    T: Abort + Threads + Wait + Sync,
{
    let server = ready(own, "thousand.toml");
    let (clients, operator) = (server.ports().service(), server.ports().operator().port());
    let fails = AtomicBool::new(false);
    let (queue, pieces) = LogQueue::new(own.rt.alloc(), 8080).expect(own.handles, "a queue");
    let (is_right, is_served) = thread::join(
        own.handles,
        || are_withheld(own, clients, operator, &fails),
        || served(own, server, &fails, &queue),
    );
    is_right && is_served && has_changes(lines_in(own, &pieces).as_str())
}

/// Whether a server of the manifest with a quota of two serves as it should, with a file that can't
/// be written.
fn is_right_past_the_quota<T>(own: &Impaired<'_, T>) -> bool
where
    T: Abort + Threads + Wait + Sync,
{
    let server = ready(own, "two.toml");
    let (clients, operator) = (server.ports().service(), server.ports().operator().port());
    let fails = AtomicBool::new(true);
    let (queue, _pieces) = LogQueue::new(own.rt.alloc(), 8080).expect(own.handles, "a queue");
    let (is_right, is_served) = thread::join(
        own.handles,
        || are_two_withheld(own, clients, operator),
        || served(own, server, &fails, &queue),
    );
    is_right && is_served
}

#[test]
fn what_cannot_be_stored_is_withheld(rt: HostRuntime) {
    write_files(&rt).expect(&rt, "files");
    let own = Impaired::new(&rt, &rt, None);
    assert!(rt; is_right(&own));
}

#[test]
fn what_is_past_a_quota_is_sent(rt: HostRuntime) {
    write_files(&rt).expect(&rt, "files");
    let own = Impaired::new(&rt, &rt, None);
    assert!(rt; is_right_past_the_quota(&own));
}
