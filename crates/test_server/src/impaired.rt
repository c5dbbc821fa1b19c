//! A runtime whose connections may fail, for example by a filter of system calls or a firewall, and
//! whose clock may be stopped, and then may be unreadable.

use crate::manifests::write_files;
use crate::servers::{PortTask, is_served, service_of};
use std::alloc::Global;
use std::io::{self, ErrorKind};
use std::net::{Net, SocketAddr, TcpListener, TcpStream};
use std::sync::Wait;
use std::sync::atomic::{AtomicBool, AtomicU64, Ordering};
use std::thread::Threads;
use std::time::{Clock, Duration};

/// The host's runtime, with what fails. Files, ports and the clock are the host's own, so only
/// threads, waiting and the end of a test are a type parameter.
#[derive(Drop)]
pub(crate) struct Impaired<'a, T> {
    pub(crate) rt: &'a HostRuntime,
    /// What may start threads, wait, and end the test.
    pub(crate) handles: &'a T,
    pub(crate) may_connect: bool,
    /// The number of seconds after 1970 began at which the clock is stopped, if it is. Then ports
    /// don't wait for connections.
    stopped_at: Option<u64>,
    is_readable: AtomicBool,
    /// The port of the client of a line in the log, and how many bytes its reply has.
    pub(crate) client_port: AtomicU64,
    pub(crate) reply_size: AtomicU64,
}

impl<'a, T> Impaired<'a, T> {
    /// A runtime whose clock is stopped, or runs as usual. Nothing else fails.
    pub(crate) fn new(
        rt: &'a HostRuntime,
        handles: &'a T,
        stopped_at: Option<u64>,
    ) -> Impaired<'a, T> {
        Impaired {
            rt,
            handles,
            may_connect: true,
            stopped_at,
            is_readable: AtomicBool::new(true),
            client_port: AtomicU64::new(0),
            reply_size: AtomicU64::new(0),
        }
    }

    /// Whether a stopped clock can be read from now on.
    pub(crate) fn set_readable(&self, is_readable: bool) {
        self.is_readable.store(is_readable, Ordering::SeqCst);
    }
}

impl<T: Threads> Threads for Impaired<'_, T> {}

impl<T: Wait> Wait for Impaired<'_, T> {}

impl<T> Alloc for Impaired<'_, T> {
    type A = Global;

    fn alloc(&self) -> Global {
        self.rt.alloc()
    }
}

impl<T> Clock for Impaired<'_, T> {
    fn monotonic(&self) -> io::Result<Duration> {
        match self.stopped_at {
            Some(_) => self.since_1970(),
            None => self.rt.monotonic(),
        }
    }

    fn since_1970(&self) -> io::Result<Duration> {
        match self.stopped_at {
            Some(seconds) if self.is_readable.load(Ordering::SeqCst) => {
                Ok(Duration::from_secs(seconds))
            }
            Some(_) => Err(io::Error::from(ErrorKind::Unsupported)),
            None => self.rt.since_1970(),
        }
    }

    fn sleep(&self, duration: Duration) {
        self.rt.sleep(duration)
    }
}

impl<T> Net for Impaired<'_, T> {
    type Stream = TcpStream;

    type Listener = TcpListener;

    fn bind(&self, addr: SocketAddr) -> io::Result<TcpListener> {
        let listener = self.rt.bind(addr)?;
        listener.set_nonblocking(self.stopped_at.is_some())?;
        Ok(listener)
    }

    fn connect(&self, addr: SocketAddr) -> io::Result<TcpStream> {
        if self.may_connect {
            return self.rt.connect(addr);
        }
        Err(io::Error::from(ErrorKind::PermissionDenied))
    }

    fn connect_timeout(&self, addr: SocketAddr, timeout: Duration) -> io::Result<TcpStream> {
        if self.may_connect {
            return self.rt.connect_timeout(addr, timeout);
        }
        Err(io::Error::from(ErrorKind::PermissionDenied))
    }
}

#[test]
fn a_server_that_may_not_connect_ends(rt: HostRuntime) {
    write_files(&rt).expect(&rt, "files");
    let mut own = Impaired::new(&rt, &rt, None);
    own.may_connect = false;
    assert!(rt; is_served(&own, "no.toml", 2, service_of(30), PortTask::AtOnce));
}
