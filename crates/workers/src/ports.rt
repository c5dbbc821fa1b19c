//! The ports of a server, for its clients and for its operator. Both are on loopback, and both are
//! bound before anything is served.

ghost use Rattle.std.specs.Prelude.{◌≡◌};

use crate::stopping::StopFlags;
use std::io;
use std::net::{Ipv4Addr, Net, Shutdown, SocketAddr, TcpListener, TcpStream};
use std::os::fd::OwnedFd;
use std::sync::atomic::Ordering;
use std::time::Duration;

/// How long the end of a port waits for its own connection.
const WAKE_SECONDS: u64 = 1;

/// How many descriptors a server needs at least in addition to its ports: one to keep the
/// operator's port open, one for each side's connection, and one for a file that is loaded.
const DESCRIPTORS: u8 = 4;

/// The two listening ports, and their addresses.
pub struct Ports {
    pub(crate) service: TcpListener,
    pub(crate) service_end: PortEnd,
    pub(crate) operator: TcpListener,
    pub(crate) operator_address: SocketAddr,
}

// Not derived: a crate that drops one would prove the drop of each of its parts anew.
impl Drop for Ports {
    fn drop(self) {
        let Self {
            service: _service,
            service_end: _service_end,
            operator: _operator,
            operator_address: _operator_address,
        } = self;
    }
}

impl Ports {
    /// The address to which clients post their requests.
    pub fn service(&self) -> SocketAddr
        ensures { result ≡ self.now.service_end.address }
    {
        self.service_end.address
    }

    /// The address to which the operator's requests are sent.
    pub fn operator(&self) -> SocketAddr
        ensures { result ≡ self.now.operator_address }
    {
        self.operator_address
    }

    /// One more handle of the operator's port, which stays open as long as a handle exists. A
    /// connection after the server has dropped its own handle isn't answered, and is reset once the
    /// last handle is dropped.
    pub fn operator_handle(&self) -> io::Result<TcpListener> {
        self.operator.try_clone()
    }

    /// The clients' port, its end, and the operator's port.
    pub(crate) fn parts(self) -> (TcpListener, PortEnd, TcpListener) {
        let Ports {
            service,
            service_end,
            operator,
            operator_address: _address,
        } = self;
        (service, service_end, operator)
    }
}

/// Binds both ports; 0 is any free port. Also fails if the system has fewer descriptors left than a
/// server needs at least: otherwise it would listen and could accept no connection. It needs one to
/// keep the operator's port open (`operator_handle`), one for each side's connection, and one for a
/// file that is loaded.
// open: that both ports are on loopback: std says nothing about addresses, so tests do.
pub fn bind<H>(rt: &H, service: u16, operator: u16) -> io::Result<Ports>
where
    H: Net<Listener = TcpListener, Stream = TcpStream>,
{
    let (service, address) = bind_one(rt, service)?;
    let (operator, operator_address) = bind_one(rt, operator)?;
    let handle = service.try_clone()?;
    require_descriptors(&handle, DESCRIPTORS)?;
    Ok(Ports {
        service,
        service_end: PortEnd { handle, address },
        operator,
        operator_address,
    })
}

// Opens this many descriptors, and closes them.
fn require_descriptors(port: &TcpListener, count: u8) -> io::Result<()> {
    if count == 0 {
        return Ok(());
    }
    let open = port.try_clone()?;
    require_descriptors(&open, count - 1)
}

fn bind_one<H>(rt: &H, port: u16) -> io::Result<(TcpListener, SocketAddr)>
where
    H: Net<Listener = TcpListener, Stream = TcpStream>,
{
    let listener = TcpListener::bind(rt, (Ipv4Addr::LOCALHOST, port))?;
    let address = listener.local_addr()?;
    Ok((listener, address))
}

/// What ends the accept loop of a port: the port's address, and one more handle of it, so that no
/// new descriptor is needed then.
#[derive(Drop)]
pub(crate) struct PortEnd {
    handle: TcpListener,
    pub(crate) address: SocketAddr,
}

impl PortEnd {
    /// Sets the flag that the accept loop reads after each connection, and makes one more
    /// connection, so that it reads the flag. That is noted, so that only the others are answered.
    /// If it fails or takes over a second, the port is shut down: then accept fails, and the loop
    /// reads the flag as well. The handle is dropped.
    pub(crate) fn end<H>(self, rt: &H, ends: &StopFlags)
    where
        H: Net<Stream = TcpStream>,
    {
        let PortEnd { handle, address } = self;
        ends.clients.store(true, Ordering::SeqCst);
        match TcpStream::connect_timeout(rt, &address, Duration::from_secs(WAKE_SECONDS)) {
            Ok(stream) => {
                ends.wake.note(stream.local_addr().ok());
                drop(handle);
            }
            Err(_) => {
                ends.wake.note(None);
                shut(handle);
            }
        }
    }
}

// Shuts down a port for all its handles. The system shuts it down like the reading half of a
// stream, and accept then returns an error.
fn shut(port: TcpListener) {
    let socket = TcpStream::from(OwnedFd::from(port));
    let _shut = socket.shutdown(Shutdown::Read);
}
