//! Whole servers of manifests over loopback, with what is done at their ports until the operator
//! stops them.

use crate::app_halts::halted;
use crate::ending::ending;
use crate::impaired::Impaired;
use crate::log_lines::Line;
use crate::logged::is_requested;
use crate::loopback::has_answer;
use crate::manifests::write_files;
use crate::swaps::{FORTY, Swaps, THOUSAND, TWO, WHOLE, are_swapped};
use crate::turns::{at_once, silent, silent_operator, slow};
use bounded_files::Device;
use counter_store::CounterStore;
use counters_file::MemoryFile;
use operator_request::OperatorRequest;
use server_counters::Counters;
use serving::{Manifests, Server, prepare};
use std::io::{self, Write};
use std::net::SocketAddr;
use std::process::Abort;
use std::sync::Wait;
use std::thread::{self, Threads};
use std::time::Duration;
use workers::ServeOptions;

/// The addresses of a server's ports.
#[derive(Clone, Copy)]
pub(crate) struct Place {
    pub(crate) clients: SocketAddr,
    pub(crate) operator: SocketAddr,
}

/// What is done at a server's ports.
#[derive(Clone, Copy)]
pub(crate) enum PortTask {
    /// A client sends no body until another one got its reply.
    AtOnce,
    /// A client and an operator send nothing, and others follow them.
    Silent,
    /// An operator sends nothing, and another one follows.
    SilentOperator,
    /// A client sends slowly, and another one needs the only worker.
    Slow,
    /// An app is halted and resumed, and rulesets are loaded.
    Halted,
    /// The server is stopped while requests are read and others wait.
    Ending,
    /// Clients send requests at once, while rulesets are swapped or a quota is taken from.
    Swapped(&'static Swaps),
    /// A client sends the request of a line in the log.
    Logged(&'static Line),
}

/// A connection may last this number of seconds, and nothing is logged.
pub(crate) fn service_of(seconds: u64) -> ServeOptions<'static> {
    ServeOptions {
        timeout: Duration::from_secs(seconds),
        log: None,
    }
}

/// A writer that counts the writes to it.
#[derive(Clone, Copy)]
struct Writes {
    count: u64,
}

impl Write for Writes {
    fn write(&mut self, buf: &[u8]) -> io::Result<usize> {
        self.count = self.count.saturating_add(1);
        Ok(buf.len())
    }

    fn flush(&mut self) -> io::Result<()> {
        Ok(())
    }
}

/// Serves with 1 to 64 workers until the server is stopped. Returns whether it printed by one
/// write.
fn served<T>(
    own: &Impaired<'_, T>,
    server: Server,
    workers: usize,
    service: ServeOptions<'_>,
) -> bool
where
    T: Abort + Threads + Wait + Sync,
{
    let mut out = Writes { count: 0 };
    let disk = Device::new(own.rt);
    let staffed = server.staffed(own, workers.clamp(1, 64));
    let server = staffed.expect(own.handles, "a server's staff");
    let store = None::<CounterStore<MemoryFile>>;
    let end = server.serve(own, &Manifests::of(&disk), store, service, &mut out);
    drop(end.expect(own.handles, "a server's end"));
    out.count == 1
}

/// Whether clients and operators get what they should.
fn is_right<T>(own: &Impaired<'_, T>, place: Place, task: PortTask) -> bool
where
    T: Abort + Threads + Sync,
{
    match task {
        PortTask::AtOnce => at_once(own, place.clients),
        PortTask::Silent => silent(own, place),
        PortTask::SilentOperator => silent_operator(own, place),
        PortTask::Slow => slow(own, place.clients),
        PortTask::Halted => halted(own, place),
        PortTask::Ending => ending(own, place),
        PortTask::Swapped(swaps) => are_swapped(own, place, swaps),
        PortTask::Logged(line) => is_requested(own, place.clients, line),
    }
}

/// As above, with ports on loopback. Then the server, whose clock can be read again, is stopped, if
/// it hasn't been.
fn is_right_to_its_end<T>(own: &Impaired<'_, T>, place: Place, task: PortTask) -> bool
where
    T: Abort + Threads + Sync,
{
    let is_right = is_right(own, place, task);
    own.set_readable(true);
    let port = place.operator.port();
    let is_stopping = has_answer(own.rt, port, OperatorRequest::Stop, Some("stopping\n"));
    let are_local = place.clients.ip().is_loopback() && place.operator.ip().is_loopback();
    let is_stopped = is_stopping || matches!(task, PortTask::Ending);
    is_right && are_local && is_stopped
}

/// Whether a server of the manifest at this path serves as it should, and ends.
pub(crate) fn is_served<T>(
    own: &Impaired<'_, T>,
    path: &str,
    workers: usize,
    service: ServeOptions<'_>,
    task: PortTask,
) -> bool
where
    T: Abort + Threads + Wait + Sync,
{
    let none = Counters::none(own.rt.alloc()).expect(own.handles, "counters");
    let server = prepare(own, &Device::new(own.rt), path, 0, 0, none);
    let server = server.expect(own.handles, "a server");
    let place = Place {
        clients: server.ports().service(),
        operator: server.ports().operator(),
    };
    let (is_right, is_printed) = thread::join(
        own.handles,
        || is_right_to_its_end(own, place, task),
        || served(own, server, workers, service),
    );
    is_printed && is_right
}

/// What is done at a server's ports, its manifest, how many workers there are, how many seconds a
/// connection may last, and what is shown.
const SERVED: &[(PortTask, &str, usize, u64, &str)] = &[
    (
        PortTask::AtOnce,
        "no.toml",
        2,
        300,
        "two are served at once",
    ),
    (PortTask::Silent, "no.toml", 1, 1, "silent ones are dropped"),
    (
        PortTask::SilentOperator,
        "no.toml",
        1,
        30,
        "a silent operator is dropped after five seconds",
    ),
    (PortTask::Slow, "no.toml", 1, 1, "a slow one is dropped"),
    (PortTask::Halted, "yes.toml", 2, 10, "a halt holds"),
    (
        PortTask::Ending,
        "no.toml",
        2,
        30,
        "those accepted before a stop are answered",
    ),
    (
        PortTask::Swapped(&WHOLE),
        "yes.toml",
        4,
        10,
        "each reply is of one generation",
    ),
    (
        PortTask::Swapped(&FORTY),
        "forty.toml",
        4,
        10,
        "a quota of forty holds over loads",
    ),
    (
        PortTask::Swapped(&TWO),
        "two.toml",
        4,
        10,
        "a quota of two holds",
    ),
    (
        PortTask::Swapped(&THOUSAND),
        "thousand.toml",
        4,
        10,
        "a quota of a thousand holds",
    ),
];

#[test]
fn clients_are_served(rt: HostRuntime) {
    write_files(&rt).expect(&rt, "files");
    let own = Impaired::new(&rt, &rt, None);
    for (task, path, workers, seconds, what) in SERVED {
        let service = service_of(*seconds);
        assert!(rt; is_served(&own, path, *workers, service, *task), "{what}");
    }
}
