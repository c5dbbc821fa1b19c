//! Ports of this machine at which nothing can listen, or nobody answers.

use std::io::Write;
use std::net::{IpAddr, Ipv4Addr, Net, SocketAddr, TcpListener, TcpStream};
use std::time::Duration;

/// Prints which of a server's two ports can't be bound, and why, if that shows. Each is bound for a
/// moment.
// open: the line, and when there is one: rows.
pub fn print_bind_fault<R, E>(rt: &R, port: u16, operator: u16, err: &mut E) -> bool
where
    R: Net<Listener = TcpListener, Stream = TcpStream>,
    E: Write,
{
    if port == operator {
        return writeln!(err, "port {port}: both ports of the server are this one").is_ok();
    }
    print_unbound(rt, port, err) || print_unbound(rt, operator, err)
}

fn print_unbound<R, E>(rt: &R, port: u16, err: &mut E) -> bool
where
    R: Net<Listener = TcpListener, Stream = TcpStream>,
    E: Write,
{
    match TcpListener::bind(rt, (Ipv4Addr::LOCALHOST, port)) {
        Ok(_bound) => false,
        Err(error) => writeln!(err, "port {port}: {error}").is_ok(),
    }
}

/// Prints why a server's operator didn't reply: the port can't be connected to within a second, or
/// what listens there doesn't reply as an operator's port does.
// open: the line: rows.
pub fn print_connect_fault<R, E>(rt: &R, port: u16, err: &mut E) -> bool
where
    R: Net<Stream = TcpStream>,
    E: Write,
{
    let place = SocketAddr::new(IpAddr::V4(Ipv4Addr::LOCALHOST), port);
    match TcpStream::connect_timeout(rt, &place, Duration::from_secs(1)) {
        Ok(_connected) => writeln!(err, "operator port {port}: no reply of an operator").is_ok(),
        Err(error) => writeln!(err, "operator port {port}: {error}").is_ok(),
    }
}
