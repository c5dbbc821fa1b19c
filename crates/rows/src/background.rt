//! What runs in the background of a file of rows, in a thread: a server, a client that sends the
//! end of its request late, or a port that gives its client a text.

use crate::calling::called;
use crate::logging::{Handles, Logging};
use crate::loopback::{port_of, replied, sent};
use crate::marks::{Mark, first_word};
use crate::printed::Printed;
use std::fs;
use std::io::{self, Error, Read, Write};
use std::net::{Ipv4Addr, TcpListener, TcpStream};
use std::sync::Arc;
use std::sync::atomic::{AtomicBool, Ordering};
use std::thread::{self, JoinHandle, Threads};
use std::time::{Clock, Duration};

/// A thread that runs while steps are done.
#[derive(Drop)]
pub(crate) struct Background {
    /// The number of the step that started it.
    pub(crate) place: usize,
    port: u16,
    thread: JoinHandle<io::Result<Printed>>,
    /// If it sends the end of a request late, the time when it started; otherwise 0.
    began: Duration,
}

/// What a thread does.
#[derive(Drop)]
enum Task {
    /// Runs a command, by its words.
    Command(String),
    /// Sends the bytes after the first ones half a second later, and takes the reply.
    Late(TcpStream, Vec<u8>, usize),
    /// Sends the bytes to the next client.
    Give(TcpListener, Vec<u8>),
}

/// After how many milliseconds the end of a request is sent.
const LATE: u64 = 500;

/// A time that only grows.
fn now(rt: &HostRuntime) -> Duration {
    rt.monotonic().unwrap_or(Duration::ZERO)
}

/// The time of now for a request whose end is sent late, otherwise 0.
fn began_of(rt: &HostRuntime, mark: Mark) -> Duration {
    match mark {
        Mark::Slowly => now(rt),
        _ => Duration::ZERO,
    }
}

impl Background {
    /// What it gave, once it has ended. If a row is wrong, a server is stopped before.
    pub(crate) fn end<T: Threads>(self, rt: &Logging<T>, is_wrong: bool) -> io::Result<Printed> {
        let Background {
            place: _place,
            port,
            thread,
            began,
        } = self;
        if now(&rt.rt).saturating_sub(began) < Duration::from_millis(LATE) {
            return Err(Error::other("this line came too soon"));
        }
        if is_wrong {
            drop(sent(&rt.rt, port, b"stop\n"));
        }
        thread.join(&rt.threads)
    }
}

/// Waits until a port accepts connections, or the command has ended, for at most half a minute.
fn await_port(rt: &HostRuntime, port: u16, has_ended: &Arc<AtomicBool>) -> io::Result<()> {
    for _ in 0..3000 {
        if TcpStream::connect(rt, (Ipv4Addr::LOCALHOST, port)).is_ok() {
            return Ok(());
        }
        if has_ended.load(Ordering::SeqCst) {
            return Ok(());
        }
        thread::sleep(rt, Duration::from_millis(10));
    }
    Err(Error::other("nothing listens at its port"))
}

/// The reply to a request whose end is sent half a second later.
fn late_reply(
    rt: &HostRuntime,
    stream: &TcpStream,
    bytes: &[u8],
    first: usize,
) -> io::Result<Printed> {
    thread::sleep(rt, Duration::from_millis(LATE));
    let (_before, rest) = bytes.split_at(first.min(bytes.len()));
    let mut to = stream;
    to.write_all(rest)?;
    replied(rt.alloc(), stream)
}

/// Reads the bytes up to a line feed.
fn read_line(stream: &TcpStream) {
    let mut byte = [0u8; 1];
    let mut from = stream;
    for _ in 0..u64::MAX {
        match from.read(&mut byte) {
            Ok(1) if byte[0] != b'\n' => {}
            _ => return,
        }
    }
}

/// Sends these bytes to the next client, or as many as it reads, once it has sent a line.
fn given(rt: &HostRuntime, listener: &TcpListener, bytes: &[u8]) -> io::Result<Printed> {
    let (stream, _client) = listener.accept()?;
    read_line(&stream);
    let mut to = &stream;
    let _whole = to.write_all(bytes);
    Ok(Printed::nothing(rt.alloc()))
}

/// What a thread gives.
fn performed<T: Handles + 'static>(rt: &Logging<T>, task: Task) -> io::Result<Printed> {
    match task {
        Task::Command(words) => called(rt, Mark::Command, words.as_str()),
        Task::Late(stream, bytes, first) => late_reply(&rt.rt, &stream, &bytes, first),
        Task::Give(listener, bytes) => given(&rt.rt, &listener, &bytes),
    }
}

/// The same, which is noted once it has ended.
fn ended<T: Handles + 'static>(
    rt: &Logging<T>,
    task: Task,
    notice: Arc<AtomicBool>,
) -> io::Result<Printed> {
    let printed = performed(rt, task);
    notice.store(true, Ordering::SeqCst);
    printed
}

/// Sends the first bytes of a file, by their number and the file's name.
fn begun(rt: &HostRuntime, port: u16, text: &str) -> io::Result<Task> {
    let (first, name) = first_word(text);
    let Ok(first) = first.parse::<usize>() else {
        return Err(Error::other("it has no number of bytes"));
    };
    let bytes = fs::read(rt, name)?;
    let (before, _rest) = bytes.split_at(first.min(bytes.len()));
    match sent(rt, port, before) {
        Ok(stream) => Ok(Task::Late(stream, bytes, first)),
        Err(error) => Err(error),
    }
}

/// A port, and the bytes of a file for its next client.
fn offered(rt: &HostRuntime, port: u16, name: &str) -> io::Result<Task> {
    let bytes = fs::read(rt, name)?;
    match TcpListener::bind(rt, (Ipv4Addr::LOCALHOST, port)) {
        Ok(listener) => Ok(Task::Give(listener, bytes)),
        Err(error) => Err(error),
    }
}

/// What the mark says, by a port and the text after it.
fn task_of(rt: &HostRuntime, mark: Mark, port: u16, text: &str) -> io::Result<Task> {
    match mark {
        Mark::Slowly => begun(rt, port, text),
        Mark::Give => offered(rt, port, text),
        _ => Ok(Task::Command(String::from_str(rt.alloc(), text)?)),
    }
}

/// Starts what the mark says, by a port and what follows it. After a command it waits until
/// something listens at the port, or the command has ended; it is an error if neither comes.
pub(crate) fn start<T: Handles + 'static>(
    rt: &Logging<T>,
    background: &mut Vec<Background>,
    place: usize,
    mark: Mark,
    text: &str,
) -> io::Result<()> {
    let (port, text) = first_word(text);
    let port = port_of(port)?;
    let task = task_of(&rt.rt, mark, port, text)?;
    let began = began_of(&rt.rt, mark);
    let own = *rt;
    let has_ended = Arc::new(rt.rt.alloc(), AtomicBool::new(false))?;
    let notice = has_ended.clone()?;
    let thread = thread::spawn(&rt.threads, move || ended(&own, task, notice))?;
    if matches!(mark, Mark::Background) {
        await_port(&rt.rt, port, &has_ended)?;
    }
    Ok(background.push(Background {
        place,
        port,
        thread,
        began,
    })?)
}
