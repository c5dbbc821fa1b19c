//! From the words of a command line to the status, with what is printed on the way.

ghost use Rattle.std.specs.Prelude.{◌≡◌, ◌≤◌, map};
ghost use Rattle.cli_base.specs.Printed.{IsGiven};
ghost use Rattle.cli_commands.specs.Commands.{AreWrong, HasSucceeded, IsDone};

use crate::serve::serve;
use bounded_files::Disk;
use cli_base::{is_verbose, usage};
use cli_tasks::perform;
use cli_words::{Command, read_words};
use server_log::LogOutput;
use std::convert::AsStr;
use std::fs::File;
use std::io::Write;
use std::net::{Net, TcpListener, TcpStream};
use std::rt::Files;
use std::sync::Wait;
use std::thread::Threads;
use std::time::Clock;

/// Does what the words request, with files of the disk. The first word is the program's name.
/// Results go to `out`, and only refusals and usage to `err`. With `--verbose` a refusal has a
/// second line, and a load prints by the runtime itself which apps the server no longer has. The
/// status is 0 if the request was done; 1 if it was refused, or a write failed; and 2 for usage.
/// For `serve` it is returned after the server's end.
// open: `clap`'s texts; that the status isn't 1, since a read or a write may fail at any time: the
// tests compare each command's lines and status.
pub fn command<R, D, S, O, E>(rt: &R, disk: &D, words: &[S], out: &mut O, err: &mut E) -> u8
where
    R: Files<File = File> + Threads + Wait + AllocGlobal + Clock + LogOutput,
    R: Copy + Drop + Send + Sync + 'static,
    R: Net<Listener = TcpListener, Stream = TcpStream>,
    R::File: Send,
    R::Dir: Send,
    D: Disk + Sync,
    S: AsStr,
    O: Write,
    E: Write,
    ensures within { result ≤ 2 }
    ensures done { result ≡ 0 → IsDone (D.known disk.now) (map S.text words.now)
        (O.contents out.old) (O.contents out.new) (IsGiven E.contents err.old err.new) }
    ensures wrong { result ≡ 2 → AreWrong (map S.text words.now) }
    ensures usage { result ≡ 2 → out.new ≡ out.old }
{
    match read_words(rt.alloc(), words) {
        // A value of many parts is dropped by one call. Left to the end of the arm, each of its
        // parts would be dropped by its own call.
        Ok(command) => {
            let status = carry_out(rt, disk, &command, is_verbose(words), out, err);
            drop(command);
            status
        }
        Err(fault) => {
            let status = usage(&fault, out, err);
            drop(fault);
            status
        }
    }
}

// Serves, or does the task.
fn carry_out<R, D, O, E>(
    rt: &R,
    disk: &D,
    command: &Command<'_>,
    verbose: bool,
    out: &mut O,
    err: &mut E,
) -> u8
where
    R: Files<File = File> + Threads + Wait + AllocGlobal + Clock + LogOutput,
    R: Copy + Drop + Send + Sync + 'static,
    R: Net<Listener = TcpListener, Stream = TcpStream>,
    R::File: Send,
    R::Dir: Send,
    D: Disk + Sync,
    O: Write,
    E: Write,
    ensures within { result ≤ 1 }
    ensures done { result ≡ 0 → HasSucceeded (D.known disk.now) command.now
        (O.contents out.old) (O.contents out.new) (IsGiven E.contents err.old err.new) }
{
    match command {
        Command::Serve(args) => serve(rt, disk, args, verbose, out, err),
        Command::Task(task) => perform(rt, disk, task, verbose, out, err),
    }
}
