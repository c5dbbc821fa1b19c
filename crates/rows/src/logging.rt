//! A runtime that writes its log to files; all else it passes on. The lines of connections go to
//! the file `connections`, all others to `log`, each without its time.

use cli_commands::LogOutput;
use std::alloc::{Allocator, Global};
use std::fmt::Display;
use std::fs::{File, Metadata, OpenOptions};
use std::io::{self, ErrorKind, Write};
use std::net::{Net, SocketAddr, TcpListener, TcpStream};
use std::path::PathBuf;
use std::rt::Files;
use std::str;
use std::sync::Wait;
use std::thread::Threads;
use std::time::{Clock, Duration};

/// What may start threads and wait, and may be used by several threads.
pub(crate) trait Handles: Threads + Wait + Copy + Drop + Send + Sync {}

impl<T: Threads + Wait + Copy + Drop + Send + Sync> Handles for T {}

/// The runtime to which it passes on.
#[derive(Clone, Copy)]
pub(crate) struct Logging<T> {
    pub(crate) rt: HostRuntime,
    /// What may start threads and wait.
    pub(crate) threads: T,
}

/// Appends a line to a file.
fn append(rt: &HostRuntime, name: &str, line: &str) -> io::Result<()> {
    let mut file = OpenOptions::new().append(true).create(true).open(rt, name)?;
    writeln!(file, "{line}")
}

impl<T> LogOutput for Logging<T> {
    fn write_lines(&self, bytes: &[u8]) -> io::Result<()> {
        let Ok(text) = str::from_utf8(bytes) else {
            return Err(io::Error::from(ErrorKind::InvalidData));
        };
        for line in text.lines() {
            let (_time, line) = line.split_once("\"kind\":").unwrap_or(("", line));
            let is_connection = line.starts_with("\"connection\"");
            let name = if is_connection { "connections" } else { "log" };
            append(&self.rt, name, line)?;
        }
        Ok(())
    }
}

impl<T: Threads> Threads for Logging<T> {}

impl<T: Wait> Wait for Logging<T> {}

impl<T> Alloc for Logging<T> {
    type A = Global;

    fn alloc(&self) -> Global {
        self.rt.alloc()
    }
}

impl<T> Clock for Logging<T> {
    fn monotonic(&self) -> io::Result<Duration> {
        self.rt.monotonic()
    }

    fn since_1970(&self) -> io::Result<Duration> {
        self.rt.since_1970()
    }

    fn sleep(&self, duration: Duration) {
        self.rt.sleep(duration)
    }
}

impl<T> Eprint for Logging<T> {
    fn eprint<D: Display + Drop>(&self, value: D) -> io::Result<()> {
        self.rt.eprint(value)
    }

    fn eprintln<D: Display + Drop>(&self, value: D) -> io::Result<()> {
        self.rt.eprintln(value)
    }
}

impl<T> Net for Logging<T> {
    type Stream = TcpStream;

    type Listener = TcpListener;

    fn bind(&self, addr: SocketAddr) -> io::Result<TcpListener> {
        self.rt.bind(addr)
    }

    fn connect(&self, addr: SocketAddr) -> io::Result<TcpStream> {
        self.rt.connect(addr)
    }

    fn connect_timeout(&self, addr: SocketAddr, timeout: Duration) -> io::Result<TcpStream> {
        self.rt.connect_timeout(addr, timeout)
    }
}

impl<T> Files for Logging<T> {
    type File = File;

    type Dir = <HostRuntime as Files>::Dir;

    fn open_file(&self, how: &OpenOptions, path: &str) -> io::Result<File> {
        self.rt.open_file(how, path)
    }

    fn open_dir(&self, path: &str) -> io::Result<<HostRuntime as Files>::Dir> {
        self.rt.open_dir(path)
    }

    fn metadata(&self, path: &str) -> io::Result<Metadata> {
        self.rt.metadata(path)
    }

    fn symlink_metadata(&self, path: &str) -> io::Result<Metadata> {
        self.rt.symlink_metadata(path)
    }

    fn copy(&self, from: &str, to: &str) -> io::Result<u64> {
        self.rt.copy(from, to)
    }

    fn rename(&self, from: &str, to: &str) -> io::Result<()> {
        self.rt.rename(from, to)
    }

    fn remove_file(&self, path: &str) -> io::Result<()> {
        self.rt.remove_file(path)
    }

    fn create_dir(&self, path: &str) -> io::Result<()> {
        self.rt.create_dir(path)
    }

    fn remove_dir(&self, path: &str) -> io::Result<()> {
        self.rt.remove_dir(path)
    }

    fn remove_dir_all<B: Allocator>(&self, alloc: B, path: &str) -> io::Result<()> {
        self.rt.remove_dir_all(alloc, path)
    }

    fn canonicalize<B: Allocator>(&self, alloc: B, path: &str) -> io::Result<PathBuf<B>> {
        self.rt.canonicalize(alloc, path)
    }
}
