//! What a step calls: a command, a file that is shown, or a request that is sent to a port.

use crate::escapes::words_of;
use crate::logging::{Handles, Logging};
use crate::loopback::reply_of;
use crate::marks::{Mark, first_word};
use crate::printed::Printed;
use cli_base::{WordsFault, unreadable_words, usage};
use cli_commands::Device;
use std::alloc::Global;
use std::fs;
use std::io::{self, ErrorKind, Write};
use std::os::unix::fs::symlink;

/// The commands of `rollout-tools`; `rollout` has any other word.
const TOOLS: [&str; 11] = [
    "check",
    "diff",
    "explain",
    "trace",
    "order",
    "simulate",
    "ask",
    "report",
    "why",
    "stage",
    "completion",
];

fn is_tool(command: &str) -> bool {
    for tool in TOOLS {
        if command == tool {
            return true;
        }
    }
    false
}

/// The words of a command, without a name of a program in front of them, and whether
/// `rollout-tools` has the command.
fn program_of(words: &[String]) -> (&[String], bool) {
    let [_, named @ ..] = words else {
        return (words, false);
    };
    let [first, ..] = named else {
        return (words, false);
    };
    match first.as_str() {
        "rollout" => (named, false),
        "rollout-tools" => (named, true),
        command => (words, is_tool(command)),
    }
}

/// Calls a command, and returns its status.
fn status_of<T, O>(rt: &Logging<T>, words: &[String], out: &mut O, err: &mut Vec<u8>) -> u8
where
    T: Handles + 'static,
    O: Write,
{
    let disk = Device::new(&rt.rt);
    let (words, is_of_tools) = program_of(words);
    if is_of_tools {
        cli_tool_commands::command(&rt.rt, &disk, words, out, err)
    } else {
        cli_commands::command(rt, &disk, words, out, err)
    }
}

/// The output of a command. If its standard output takes only ten bytes, these aren't in it.
fn printed_of<T: Handles + 'static>(rt: &Logging<T>, words: &[String], is_narrow: bool) -> Printed {
    let mut out = Vec::new(rt.rt.alloc());
    let mut err = Vec::new(rt.rt.alloc());
    let status = if is_narrow {
        let mut bytes = [0; 10];
        let mut narrow: &mut [u8] = &mut bytes;
        status_of(rt, words, &mut narrow, &mut err)
    } else {
        status_of(rt, words, &mut out, &mut err)
    };
    Printed { status, out, err }
}

/// What both programs print if memory for words is refused, as they are read and as they are
/// parsed. The status is 1 if both statuses are.
fn without_memory(alloc: Global) -> Printed {
    let mut out = Vec::new(alloc);
    let mut err = Vec::new(alloc);
    let reading = io::Error::from(ErrorKind::OutOfMemory);
    let unread = unreadable_words(&reading, &mut err);
    let status = usage(&WordsFault::Memory, &mut out, &mut err);
    let status = if unread == 1 { status } else { 0 };
    Printed { status, out, err }
}

/// The text of a file, as if a command printed it.
fn file_of(rt: &HostRuntime, name: &str) -> io::Result<Printed> {
    Ok(Printed::of(rt.alloc(), fs::read(rt, name)?))
}

/// Makes a symbolic link, by its name and its target.
fn link(rt: &HostRuntime, text: &str) -> io::Result<Printed> {
    let (name, target) = first_word(text);
    symlink(rt, target, name)?;
    Ok(Printed::nothing(rt.alloc()))
}

/// What the call of a step gives.
pub(crate) fn called<T: Handles + 'static>(
    rt: &Logging<T>,
    mark: Mark,
    text: &str,
) -> io::Result<Printed> {
    match mark {
        Mark::Show => file_of(&rt.rt, text),
        Mark::Send => reply_of(&rt.rt, text),
        Mark::Link => link(&rt.rt, text),
        Mark::NoMemory => Ok(without_memory(rt.rt.alloc())),
        _ => {
            let words = words_of(rt.rt.alloc(), text)?;
            Ok(printed_of(rt, words.as_slice(), matches!(mark, Mark::Narrow)))
        }
    }
}
