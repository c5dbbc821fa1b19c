//! Ports of loopback: free ones, and what comes back from a port for the bytes that are sent to it.

use crate::marks::first_word;
use crate::printed::{Printed, text_of};
use std::alloc::{AllocError, Global};
use std::fs;
use std::io::{self, Error, Read, Write};
use std::net::{Ipv4Addr, Shutdown, TcpListener, TcpStream};
use std::time::Clock;

/// A free port, which the listener that is added takes.
fn free_port(rt: &HostRuntime, taken: &mut Vec<TcpListener>) -> io::Result<u16> {
    let listener = TcpListener::bind(rt, (Ipv4Addr::LOCALHOST, 0))?;
    let address = listener.local_addr();
    taken.push(listener)?;
    Ok(address?.port())
}

/// A text in which each of these names is replaced by a number.
fn with_number(alloc: Global, text: &str, name: &str, number: u64) -> Result<String, AllocError> {
    let number = format!(in alloc; "{number}")?;
    text.replace(alloc, name, number.as_str())
}

/// The whole days from 2007-01-01 to now.
fn days_now(rt: &HostRuntime) -> u64 {
    match rt.since_1970() {
        Ok(since) => since.as_secs().saturating_sub(1167609600) / 86400,
        Err(_) => 0,
    }
}

const PORTS: [&str; 12] = [
    "<port1>", "<port2>", "<port3>", "<port4>", "<port5>", "<port6>", "<port7>", "<port8>",
    "<port9>", "<port10>", "<port11>", "<port12>",
];

/// Replaces the names of ports by free ones, all different.
fn fill_ports(rt: &HostRuntime, text: &mut String) -> io::Result<()> {
    let mut taken = Vec::new(rt.alloc());
    for name in PORTS.iter() {
        let port = free_port(rt, &mut taken)?;
        *text = with_number(rt.alloc(), text.as_str(), name, port as u64)?;
    }
    Ok(())
}

/// A text in which the names of ports and of the day are replaced by numbers.
fn with_numbers(rt: &HostRuntime, text: &str) -> io::Result<String> {
    let mut text = with_number(rt.alloc(), text, "<day>", days_now(rt))?;
    fill_ports(rt, &mut text)?;
    Ok(text)
}

/// A text in which the name of the folder is replaced by its path.
fn with_folder(rt: &HostRuntime, text: &str) -> io::Result<String> {
    let folder = fs::canonicalize(rt, ".")?.into_string();
    Ok(text.replace(rt.alloc(), "<folder>", folder.as_str())?)
}

/// The text of a file of rows, in which the names of free ports and of the day are replaced by
/// numbers, and that of the folder by its path.
pub(crate) fn filled_text(rt: &HostRuntime, text: &str) -> io::Result<String> {
    if text.contains("<port1>") {
        with_numbers(rt, text)
    } else if text.contains("<folder>") {
        with_folder(rt, text)
    } else {
        Ok(String::from_str(rt.alloc(), text)?)
    }
}

/// The port that a word names.
pub(crate) fn port_of(word: &str) -> io::Result<u16> {
    match word.parse::<u16>() {
        Ok(port) => Ok(port),
        Err(_) => Err(Error::other("it has no port")),
    }
}

/// What comes back over a connection until the other side ends it, with `\r` for a carriage return.
pub(crate) fn replied(alloc: Global, stream: &TcpStream) -> io::Result<Printed> {
    let mut bytes = Vec::new(alloc);
    let mut from = stream;
    let _count = from.read_to_end(&mut bytes)?;
    let text = text_of(&bytes).replace(alloc, "\r", "\\r");
    drop(bytes);
    Ok(Printed::of(alloc, text?.into_bytes()))
}

/// A connection that has sent these bytes.
pub(crate) fn sent(rt: &HostRuntime, port: u16, bytes: &[u8]) -> io::Result<TcpStream> {
    let stream = TcpStream::connect(rt, (Ipv4Addr::LOCALHOST, port))?;
    let mut to = &stream;
    to.write_all(bytes)?;
    Ok(stream)
}

/// What comes back for the bytes of a file, by a port and the file's name. If the word `end`
/// follows, nothing more is sent after them.
pub(crate) fn reply_of(rt: &HostRuntime, text: &str) -> io::Result<Printed> {
    let (port, text) = first_word(text);
    let (name, end) = first_word(text);
    let port = port_of(port)?;
    let bytes = fs::read(rt, name)?;
    let stream = sent(rt, port, &bytes);
    drop(bytes);
    let stream = stream?;
    if end == "end" {
        stream.shutdown(Shutdown::Write)?;
    }
    replied(rt.alloc(), &stream)
}
